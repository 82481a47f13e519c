ghost use Rattle.std.specs.Prelude.{◌≡◌, IfOk};
ghost use Rattle.hys_number.specs.Ops.{whole};
ghost use Rattle.hys_relax.specs.Worked.{term};
ghost use Rattle.hys_stack.specs.Sample.{column_of, next_s, next_x, sample_columns, sample_output, sample_row, sample_system};

use crate::{Pick, Request, RequestFault, StackFault, read_request, stack};
use hys_base::{List, Text};
use hys_frac::Frac;
use hys_lin::{Affine, Interval, Lost, Op, Problem, Row, Term};
use hys_sys::{Column, ColumnRole, Kind2, Output, System};
use std::alloc::{AllocError, Global};
use std::test::Fail;

// ---- a system of the states x and `#s`, the inputs u and a, the fresh column `#1` and the output `#y`

fn word(alloc: Global, text: &str) -> Result<Text, AllocError>
    ensures { IfOk result (λ t. t ≡ text.now) }
{
    Ok(Text::of(String::from_str(alloc, text)?))
}

fn column(
    alloc: Global,
    name: &str,
    role: ColumnRole,
    kind: Kind2,
    bounds: Interval,
) -> Result<Column, AllocError>
    ensures { IfOk result (λ c. c ≡ column_of name.now role kind bounds.low bounds.high) }
{
    Ok(Column {
        name: word(alloc, name)?,
        role,
        kind,
        bounds,
    })
}

fn between(low: Frac, high: u32) -> Interval
    ensures { result ≡ record { low = low; high = whole high } }
{
    Interval {
        low,
        high: Frac::whole(high),
    }
}

fn columns(alloc: Global) -> Result<List<Column>, AllocError>
    ensures { IfOk result (λ r. r ≡ sample_columns) }
{
    let zero = Frac::whole(0);
    let unit = between(zero, 1);
    let signed = between(Frac::whole(1).neg(), 1);
    let mut columns = Vec::new(alloc);
    columns.push(column(
        alloc,
        "x",
        ColumnRole::State,
        Kind2::Real,
        between(zero, 10),
    )?)?;
    columns.push(column(alloc, "#s", ColumnRole::State, Kind2::Bool, unit)?)?;
    columns.push(column(alloc, "u", ColumnRole::Input, Kind2::Real, signed)?)?;
    columns.push(column(alloc, "a", ColumnRole::Input, Kind2::Bool, unit)?)?;
    columns.push(column(alloc, "#1", ColumnRole::D, Kind2::Bool, unit)?)?;
    Ok(List::of(columns))
}

fn item(column: u32, factor: Frac) -> Term
    ensures { result ≡ term column factor }
{
    Term { column, factor }
}

fn level(alloc: Global) -> Result<Affine, AllocError>
    ensures { IfOk result (λ f. f ≡ next_x) }
{
    let mut terms = Vec::new(alloc);
    terms.push(item(0, Frac::whole(1)))?;
    terms.push(item(2, Frac::whole(1)))?;
    terms.push(item(3, Frac::whole(2).neg()))?;
    Ok(Affine {
        terms: List::of(terms),
        constant: Frac::whole(1),
    })
}

fn switch(alloc: Global) -> Result<Affine, AllocError>
    ensures { IfOk result (λ f. f ≡ next_s) }
{
    let mut terms = Vec::new(alloc);
    terms.push(item(4, Frac::whole(1)))?;
    Ok(Affine {
        terms: List::of(terms),
        constant: Frac::whole(0),
    })
}

fn output(alloc: Global) -> Result<Output, AllocError>
    ensures { IfOk result (λ o. o ≡ sample_output) }
{
    let mut terms = Vec::new(alloc);
    terms.push(item(0, Frac::whole(2)))?;
    terms.push(item(2, Frac::whole(1)))?;
    Ok(Output {
        name: word(alloc, "#y")?,
        kind: Kind2::Real,
        form: Affine {
            terms: List::of(terms),
            constant: Frac::whole(5),
        },
    })
}

fn row(alloc: Global) -> Result<Row, AllocError>
    ensures { IfOk result (λ r. r ≡ sample_row) }
{
    let mut terms = Vec::new(alloc);
    terms.push(item(0, Frac::whole(1)))?;
    terms.push(item(4, Frac::whole(5).neg()))?;
    Ok(Row {
        terms: List::of(terms),
        bound: Frac::whole(4),
        eq: false,
    })
}

fn system(alloc: Global) -> Result<System, AllocError>
    ensures { IfOk result (λ s. s ≡ sample_system) }
{
    let mut next = Vec::new(alloc);
    next.push(level(alloc)?)?;
    next.push(switch(alloc)?)?;
    let mut outputs = Vec::new(alloc);
    outputs.push(output(alloc)?)?;
    let mut rows = Vec::new(alloc);
    rows.push(row(alloc)?)?;
    let mut labels = Vec::new(alloc);
    labels.push(word(alloc, "d")?)?;
    Ok(System {
        name: word(alloc, "t")?,
        columns: columns(alloc)?,
        next: List::of(next),
        outputs: List::of(outputs),
        rows: List::of(rows),
        labels: List::of(labels),
        weight: 20,
    })
}

// ---- what is answered, in words

fn push_number(alloc: Global, text: &mut String, number: Frac) -> Result<(), AllocError> {
    let digits = number.text(alloc)?;
    text.push_str(digits.as_str())
}

fn push_numbers(
    alloc: Global,
    text: &mut String,
    word: &str,
    numbers: &[Frac],
) -> Result<(), AllocError> {
    text.push_str(word)?;
    for number in numbers {
        text.push(' ')?;
        push_number(alloc, text, *number)?;
    }
    Ok(())
}

fn pick_word(pick: Pick) -> &'static str {
    match pick {
        Pick::Bound => "bound",
        Pick::Depth => "depth",
    }
}

fn shown_request(alloc: Global, request: &Request) -> Result<String, AllocError> {
    let pick = pick_word(request.pick);
    let mut text = format!(in alloc; "{} {} {pick}", request.horizon, request.nodes)?;
    push_numbers(alloc, &mut text, " start", request.start.items())?;
    push_numbers(alloc, &mut text, " step", request.step_cost.items())?;
    push_numbers(alloc, &mut text, " output", request.output_cost.items())?;
    push_numbers(alloc, &mut text, " final", request.final_cost.items())?;
    Ok(text)
}

fn refused(alloc: Global, fault: &RequestFault) -> Result<String, AllocError> {
    match fault {
        RequestFault::Json => String::from_str(alloc, "json"),
        RequestFault::Shape(path) => format!(in alloc; "shape {}", path.text()),
        RequestFault::Number(path) => format!(in alloc; "number {}", path.text()),
        RequestFault::Name(name) => format!(in alloc; "name {}", name.text()),
        RequestFault::Start(name) => format!(in alloc; "start {}", name.text()),
        RequestFault::Limit(what) => format!(in alloc; "limit {}", what.text()),
        RequestFault::TooLarge => String::from_str(alloc, "too large"),
        RequestFault::Memory => String::from_str(alloc, "memory"),
    }
}

// The text with the first place of a part changed.
fn changed(alloc: Global, text: &str, part: &str, other: &str) -> Result<String, AllocError> {
    let mut found = String::new(alloc);
    match text.split_once(part) {
        Some((before, after)) => {
            found.push_str(before)?;
            found.push_str(other)?;
            found.push_str(after)?;
        }
        None => found.push_str(text)?,
    }
    Ok(found)
}

fn answered(alloc: Global, text: &str) -> Result<String, AllocError> {
    let system = system(alloc)?;
    match read_request(alloc, &system, text.as_bytes()) {
        Ok(request) => shown_request(alloc, &request),
        Err(fault) => refused(alloc, &fault),
    }
}

// ---- requests

const FIRST: &str =
    r##"{"final":{"x":"-1"},"horizon":2,"nodes":7,"pick":"bound","start":{"#s":"1","x":"1/2"},"step":{"#y":"3","u":"1/2"}}"##;

const READ: &str = "2 7 bound start 1/2 1 step 0 0 1/2 0 0 output 3 final -1 0";

/// The start of `FIRST`.
const START: &str = r##"{"#s":"1","x":"1/2"}"##;

/// The weights of its steps.
const STEP: &str = r##"{"#y":"3","u":"1/2"}"##;

/// A part of `FIRST`, what stands in its place, and what is answered.
const ROOTS: [(&str, &str, &str); 20] = [
    ("", "", READ),
    (
        FIRST,
        r##"{"start":{"x":"0","#s":"0"},"pick":"depth","nodes":1,"horizon":1}"##,
        "1 1 depth start 0 0 step 0 0 0 0 0 output 0 final 0 0",
    ),
    // no JSON
    (FIRST, "", "json"),
    (FIRST, "{", "json"),
    (FIRST, "{} x", "json"),
    (r##"{"final""##, r##"["final""##, "json"),
    (r##"2,"nodes""##, r##"2 "nodes""##, "json"),
    (r##""horizon":2"##, r##""horizon":007"##, "json"),
    // the root
    (FIRST, "[]", "shape root"),
    (FIRST, "null", "shape root"),
    (FIRST, "1", "shape root"),
    (FIRST, "{}", "shape horizon"),
    (FIRST, r##"{"a":1}"##, "shape horizon"),
    (FIRST, r##"{"horizon":0}"##, "shape nodes"),
    (FIRST, r##"{"nodes":1,"horizon":1}"##, "shape pick"),
    (
        FIRST,
        r##"{"nodes":1,"horizon":1,"pick":1}"##,
        "shape start",
    ),
    (r##""nodes":7"##, r##""nodes":7,"size":1"##, "shape size"),
    (r##""nodes":7"##, r##""nodes":7,"b":1,"a":1"##, "shape a"),
    (r##""final""##, r##""Final""##, "shape Final"),
    (r##"{"x":"-1"}"##, r##"1,"zz":1"##, "shape zz"),
];

/// The same of the weights of the last states.
const LASTS: [(&str, &str, &str); 19] = [
    (r##"{"x":"-1"}"##, "1", "shape final"),
    (r##"{"x":"-1"}"##, "null", "shape final"),
    (r##"{"x":"-1"}"##, "[]", "shape final"),
    (r##""-1""##, "-1", "shape final.x"),
    (r##""x":"-1""##, r##""a":"q","x":1"##, "shape final.x"),
    (r##""x":"-1""##, r##""b":1,"a":1"##, "shape final.a"),
    (r##""-1""##, r##""q""##, "number final.x"),
    (r##""-1""##, r##"" -1""##, "number final.x"),
    (r##""-1""##, r##""1/0""##, "number final.x"),
    (r##""x":"-1""##, r##""a":"q""##, "number final.a"),
    (r##""x":"-1""##, r##""x":"q","a":"q""##, "number final.a"),
    (r##""x":"-1""##, r##""u":"1""##, "name u"),
    (r##""x":"-1""##, r##""z":"1","#y":"1""##, "name #y"),
    (r##""x":"-1""##, r##""#1":"1""##, "name #1"),
    (r##""x":"-1""##, r##""x":"q","x":"-1""##, READ),
    (r##""x":"-1""##, r##""\u0078":"-2/2""##, READ),
    (
        r##""x":"-1""##,
        r##""#s":"2","x":"-1.0""##,
        "2 7 bound start 1/2 1 step 0 0 1/2 0 0 output 3 final -1 2",
    ),
    (
        r##"{"x":"-1"}"##,
        "{}",
        "2 7 bound start 1/2 1 step 0 0 1/2 0 0 output 3 final 0 0",
    ),
    (
        r##""-1"},"horizon":2"##,
        r##""q"},"horizon":"2""##,
        "number final.x",
    ),
];

/// The same of the numbers of steps and nodes and of the pick.
const COUNTS: [(&str, &str, &str); 26] = [
    // the number of steps
    (r##""horizon":2"##, r##""horizon":"2""##, "shape horizon"),
    (r##""horizon":2"##, r##""horizon":2.0"##, "shape horizon"),
    (r##""horizon":2"##, r##""horizon":2e0"##, "shape horizon"),
    (r##""horizon":2"##, r##""horizon":-2"##, "shape horizon"),
    (r##""horizon":2"##, r##""horizon":-0"##, "shape horizon"),
    (r##""horizon":2"##, r##""horizon":true"##, "shape horizon"),
    (r##""horizon":2"##, r##""horizon":null"##, "shape horizon"),
    (
        r##""horizon":2"##,
        r##""horizon":4294967296"##,
        "shape horizon",
    ),
    (
        r##""horizon":2"##,
        r##""horizon":4294967295"##,
        "limit horizon",
    ),
    (r##""horizon":2"##, r##""horizon":0"##, "limit horizon"),
    (r##""horizon":2"##, r##""horizon":51"##, "limit horizon"),
    (r##""horizon":2"##, r##""horizon":50"##, "too large"),
    (r##""horizon":2"##, r##""horizon":31"##, "too large"),
    (
        r##""horizon":2"##,
        r##""horizon":30"##,
        "30 7 bound start 1/2 1 step 0 0 1/2 0 0 output 3 final -1 0",
    ),
    (r##""horizon":2"##, r##""horizon":60,"horizon":2"##, READ),
    // the number of nodes
    (r##""nodes":7"##, r##""nodes":7.0"##, "shape nodes"),
    (r##""nodes":7"##, r##""nodes":0"##, "limit nodes"),
    (r##""nodes":7"##, r##""nodes":500001"##, "limit nodes"),
    (r##""nodes":7"##, r##""nodes":500000"##, "too large"),
    (r##""nodes":7"##, r##""nodes":12501"##, "too large"),
    (
        r##""nodes":7"##,
        r##""nodes":12500"##,
        "2 12500 bound start 1/2 1 step 0 0 1/2 0 0 output 3 final -1 0",
    ),
    (r##"2,"nodes":7"##, r##"51,"nodes":0"##, "limit horizon"),
    (r##"2,"nodes":7"##, r##"51,"nodes":"7""##, "shape nodes"),
    // the pick
    (r##""bound""##, r##""Bound""##, "shape pick"),
    (r##""bound""##, "1", "shape pick"),
    (
        r##""bound""##,
        r##""depth""##,
        "2 7 depth start 1/2 1 step 0 0 1/2 0 0 output 3 final -1 0",
    ),
];

/// The same of the start and of the weights of a step.
const NAMED: [(&str, &str, &str); 27] = [
    // the start
    (START, "1", "shape start"),
    (START, "null", "shape start"),
    (START, r##"{"x":0,"#s":"q"}"##, "shape start.x"),
    (START, r##"{"x":"1e-19","#s":"q"}"##, "number start.#s"),
    (START, r##"{"x":"1e-19","y":"0"}"##, "number start.x"),
    (START, "{}", "name x"),
    (START, r##"{"x":"0"}"##, "name #s"),
    (START, r##"{"#s":"0"}"##, "name x"),
    (START, r##"{"y":"0"}"##, "name y"),
    (START, r##"{"u":"0","x":"11"}"##, "name u"),
    (START, r##"{"x":"11"}"##, "name #s"),
    (START, r##"{"#s":"0","x":"11"}"##, "start x"),
    (START, r##"{"#s":"2","x":"-1/2"}"##, "start x"),
    (START, r##"{"#s":"2","x":"10"}"##, "start #s"),
    (START, r##"{"#s":"1/2","x":"0"}"##, "start #s"),
    (
        START,
        r##"{"#s":"0.0","x":"10"}"##,
        "2 7 bound start 10 0 step 0 0 1/2 0 0 output 3 final -1 0",
    ),
    (
        r##""x":"1/2"},"step":{"#y""##,
        r##""x":"11"},"step":{"q""##,
        "start x",
    ),
    (
        r##"2,"nodes":7,"pick":"bound","start":{"#s":"1","x":"1/2"##,
        r##"51,"nodes":7,"pick":"bound","start":{"#s":"1","x":"11"##,
        "start x",
    ),
    // the weights of a step
    (STEP, "null", "shape step"),
    (STEP, r##"{"x":1}"##, "shape step.x"),
    (STEP, r##"{"x":"."}"##, "number step.x"),
    (STEP, r##"{"q":"1"}"##, "name q"),
    (STEP, r##"{"#s":"1"}"##, "name #s"),
    (STEP, r##"{"#s":"1","#1":"1"}"##, "name #1"),
    (
        STEP,
        "{}",
        "2 7 bound start 1/2 1 step 0 0 0 0 0 output 0 final -1 0",
    ),
    (
        STEP,
        r##"{"x":"1","a":"4/2","#y":"-1"}"##,
        "2 7 bound start 1/2 1 step 1 0 0 2 0 output -1 final -1 0",
    ),
    (
        r##"7,"pick":"bound","start":{"#s":"1","x":"1/2"},"step":{"#y""##,
        r##"0,"pick":"bound","start":{"#s":"1","x":"1/2"},"step":{"#s""##,
        "name #s",
    ),
];

#[test]
fn roots_are_judged(rt: HostRuntime) -> Result<(), Fail> {
    let alloc = rt.alloc();
    for (part, other, wanted) in ROOTS {
        let text = changed(alloc, FIRST, part, other)?;
        let got = answered(alloc, text.as_str())?;
        assert_eq!(rt; got.as_str(), wanted, "{text}");
    }
    Ok(())
}

#[test]
fn last_weights_are_judged(rt: HostRuntime) -> Result<(), Fail> {
    let alloc = rt.alloc();
    for (part, other, wanted) in LASTS {
        let text = changed(alloc, FIRST, part, other)?;
        let got = answered(alloc, text.as_str())?;
        assert_eq!(rt; got.as_str(), wanted, "{text}");
    }
    Ok(())
}

#[test]
fn numbers_of_steps_are_judged(rt: HostRuntime) -> Result<(), Fail> {
    let alloc = rt.alloc();
    for (part, other, wanted) in COUNTS {
        let text = changed(alloc, FIRST, part, other)?;
        let got = answered(alloc, text.as_str())?;
        assert_eq!(rt; got.as_str(), wanted, "{text}");
    }
    Ok(())
}

#[test]
fn starts_and_weights_are_judged(rt: HostRuntime) -> Result<(), Fail> {
    let alloc = rt.alloc();
    for (part, other, wanted) in NAMED {
        let text = changed(alloc, FIRST, part, other)?;
        let got = answered(alloc, text.as_str())?;
        assert_eq!(rt; got.as_str(), wanted, "{text}");
    }
    Ok(())
}

// ---- stacked problems

fn push_terms(alloc: Global, text: &mut String, terms: &[Term]) -> Result<(), AllocError> {
    for term in terms {
        text.push_str(format!(in alloc; " {}:", term.column)?.as_str())?;
        push_number(alloc, text, term.factor)?;
    }
    Ok(())
}

fn push_boxes(alloc: Global, text: &mut String, boxes: &[Interval]) -> Result<(), AllocError> {
    text.push_str("boxes")?;
    for bounds in boxes {
        text.push(' ')?;
        push_number(alloc, text, bounds.low)?;
        text.push_str("..")?;
        push_number(alloc, text, bounds.high)?;
    }
    Ok(())
}

fn push_rows(alloc: Global, text: &mut String, rows: &[Row]) -> Result<(), AllocError> {
    for row in rows {
        text.push_str("\nrow")?;
        push_terms(alloc, text, row.terms.items())?;
        text.push_str(if row.eq { " == " } else { " <= " })?;
        push_number(alloc, text, row.bound)?;
    }
    Ok(())
}

fn shown_problem(alloc: Global, problem: &Problem) -> Result<String, AllocError> {
    let mut text = String::new(alloc);
    push_boxes(alloc, &mut text, problem.boxes.items())?;
    push_rows(alloc, &mut text, problem.rows.items())?;
    text.push_str("\ncost")?;
    push_terms(alloc, &mut text, problem.cost.terms.items())?;
    text.push_str(" + ")?;
    push_number(alloc, &mut text, problem.cost.constant)?;
    text.push_str("\nbranch")?;
    for column in problem.branch.items() {
        text.push_str(format!(in alloc; " {column}")?.as_str())?;
    }
    Ok(text)
}

fn sign(op: Op) -> &'static str {
    match op {
        Op::Add => " + ",
        Op::Sub => " - ",
        Op::Mul => " * ",
        Op::Div => " / ",
    }
}

fn shown_lost(alloc: Global, lost: Lost) -> Result<String, AllocError> {
    let mut text = String::new(alloc);
    push_number(alloc, &mut text, lost.left)?;
    text.push_str(sign(lost.op))?;
    push_number(alloc, &mut text, lost.right)?;
    Ok(text)
}

fn stacked(alloc: Global, text: &str) -> Result<String, AllocError> {
    let system = system(alloc)?;
    let request = match read_request(alloc, &system, text.as_bytes()) {
        Ok(request) => request,
        Err(fault) => return refused(alloc, &fault),
    };
    match stack(alloc, &system, &request) {
        Ok(problem) => shown_problem(alloc, &problem),
        Err(StackFault::Lost(lost)) => shown_lost(alloc, lost),
        Err(StackFault::Memory) => String::from_str(alloc, "memory"),
    }
}

/// Of `FIRST`: the output is 2 x + u + 5, so that with its weight 3 and u's 1/2 a step costs
/// 6 x + 7/2 u + 15. Columns 5 to 9 are those of the second step, 10 and 11 the last states.
const STACKED: &str =
    "boxes 1/2..1/2 1..1 -1..1 0..1 0..1 0..10 0..1 -1..1 0..1 0..1 0..10 0..1\nrow 0:1 4:-5 <= 4\nrow 0:-1 2:-1 3:2 5:1 == 1\nrow 4:-1 6:1 == 0\nrow 5:1 9:-5 <= 4\nrow 5:-1 7:-1 8:2 10:1 == 1\nrow 9:-1 11:1 == 0\ncost 0:6 2:7/2 5:6 7:7/2 10:-1 + 30\nbranch 3 4 8 9";

/// A part of `FIRST`, what stands in its place, and the stacked problem or the operation that is lost.
const STACKS: [(&str, &str, &str); 5] = [
    ("", "", STACKED),
    (
        r##""3""##,
        r##""9223372036854775807""##,
        "9223372036854775807 * 2",
    ),
    (
        r##""3""##,
        r##""4000000000000000000""##,
        "4000000000000000000 * 5",
    ),
    (
        STEP,
        r##"{"#y":"1","u":"9223372036854775807"}"##,
        "9223372036854775807 + 1",
    ),
    (
        r##""-1""##,
        r##""-9223372036854775807""##,
        "-9223372036854775807 * 10",
    ),
];

#[test]
fn requests_are_stacked(rt: HostRuntime) -> Result<(), Fail> {
    let alloc = rt.alloc();
    for (part, other, wanted) in STACKS {
        let text = changed(alloc, FIRST, part, other)?;
        let got = stacked(alloc, text.as_str())?;
        assert_eq!(rt; got.as_str(), wanted, "{text}");
    }
    Ok(())
}

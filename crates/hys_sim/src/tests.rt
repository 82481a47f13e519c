ghost use Rattle.std.specs.Prelude.{◌≡◌, IfOk, Some};
ghost use Rattle.hys_number.specs.Ops.{whole, neg};
ghost use Rattle.hys_sim.specs.Tank.{filled as filled_with, item_of as item_by, name_of, one_term as term_of, tank as the_tank, tank_order as the_order};

use crate::{SimFault, Simulated, Which, simulate};
use hys_ast::{Kind, Place};
use hys_base::{List, Text};
use hys_formula::Formula;
use hys_frac::Frac;
use hys_lin::{Affine, Interval, Term};
use hys_prog::{Body, Name, NameId, Order, ProgItem, Program, Role, Stop};
use std::alloc::{AllocError, Global};
use std::test::Fail;

const PLACE: Place = Place {
    byte: 0,
    line: 1,
    col: 1,
};

// ---- a tank: x in [0, 10] gets u in [-1, 1], d is whether x is at least 5 with tolerance 1, the
// Boolean state `step` becomes d, y is 2 x + 1, and x + u has to be at most 9

fn minus(number: u32) -> Frac
    ensures { result ≡ neg (whole number) }
{
    Frac::whole(number).neg()
}

fn word(alloc: Global, text: &str) -> Result<Text, AllocError>
    ensures { IfOk result (λ t. t ≡ text.now) }
{
    Ok(Text::of(String::from_str(alloc, text)?))
}

fn name(
    alloc: Global,
    text: &str,
    role: Role,
    kind: Kind,
    bounds: Interval,
) -> Result<Name, AllocError>
    ensures { IfOk result (λ x. x ≡ name_of text.now role kind bounds.low bounds.high) }
{
    Ok(Name {
        text: word(alloc, text)?,
        role,
        kind,
        place: PLACE,
        bounds,
        value: Frac::whole(0),
    })
}

fn between(low: Frac, high: u32) -> Interval
    ensures { result ≡ record { low = low; high = whole high } }
{
    Interval {
        low,
        high: Frac::whole(high),
    }
}

fn one_term(alloc: Global, factor: Frac, constant: u32) -> Result<Affine, AllocError>
    ensures { IfOk result (λ f. f ≡ term_of factor (whole constant)) }
{
    let mut terms = Vec::new(alloc);
    terms.push(Term { column: 0, factor })?;
    Ok(Affine {
        terms: List::of(terms),
        constant: Frac::whole(constant),
    })
}

fn filled(alloc: Global, constant: Frac) -> Result<Affine, AllocError>
    ensures { IfOk result (λ f. f ≡ filled_with constant) }
{
    let mut terms = Vec::new(alloc);
    terms.push(Term {
        column: 0,
        factor: Frac::whole(1),
    })?;
    terms.push(Term {
        column: 2,
        factor: Frac::whole(1),
    })?;
    Ok(Affine {
        terms: List::of(terms),
        constant,
    })
}

fn item_of(name: NameId, body: Body) -> ProgItem
    ensures { result ≡ item_by name body }
{
    ProgItem {
        name: Some(name),
        place: PLACE,
        body,
    }
}

fn tank(alloc: Global) -> Result<Program, AllocError>
    ensures { IfOk result (λ p. p ≡ the_tank) }
{
    let zero = Frac::whole(0);
    let mut names = Vec::new(alloc);
    names.push(name(alloc, "x", Role::State, Kind::Real, between(zero, 10))?)?;
    names.push(name(alloc, "step", Role::State, Kind::Bool, between(zero, 1))?)?;
    names.push(name(alloc, "u", Role::Input, Kind::Real, between(minus(1), 1))?)?;
    names.push(name(alloc, "d", Role::Aux, Kind::Bool, between(zero, 0))?)?;
    names.push(name(alloc, "y", Role::Output, Kind::Real, between(zero, 0))?)?;
    let mut items = Vec::new(alloc);
    items.push(item_of(
        3,
        Body::Guard {
            number: one_term(alloc, minus(1), 5)?,
            eps: Frac::whole(1),
        },
    ))?;
    items.push(item_of(0, Body::NextReal(filled(alloc, zero)?)))?;
    items.push(item_of(1, Body::NextBool(Formula::Name(3))))?;
    items.push(item_of(4, Body::OutReal(one_term(alloc, Frac::whole(2), 1)?)))?;
    items.push(ProgItem {
        name: None,
        place: PLACE,
        body: Body::MustMost(filled(alloc, minus(9))?),
    })?;
    Ok(Program {
        system: word(alloc, "t")?,
        names: List::of(names),
        items: List::of(items),
        weight: 5,
    })
}

fn tank_order(alloc: Global) -> Result<Order, AllocError>
    ensures { IfOk result (λ o. o ≡ the_order) }
{
    let mut names = Vec::new(alloc);
    names.push(3)?;
    Ok(Order {
        names: List::of(names),
    })
}

// ---- what is answered, in words

fn table_word(which: Which) -> &'static str {
    match which {
        Which::Start => "start",
        Which::Inputs => "inputs",
    }
}

fn refused(alloc: Global, fault: &SimFault) -> Result<String, AllocError> {
    match fault {
        SimFault::Csv(which, record) => format!(in alloc; "{} csv {record}", table_word(*which)),
        SimFault::Rows(which, count) => format!(in alloc; "{} rows {count}", table_word(*which)),
        SimFault::Column(which, text) => {
            format!(in alloc; "{} column {}", table_word(*which), text.text())
        }
        SimFault::Value(which, record, field) => {
            format!(in alloc; "{} value {record} {field}", table_word(*which))
        }
        SimFault::Limit => String::from_str(alloc, "limit"),
        SimFault::Memory => String::from_str(alloc, "memory"),
    }
}

fn stopped(alloc: Global, stop: &Stop) -> Result<String, AllocError> {
    match stop {
        Stop::Bounds(name) => format!(in alloc; "bounds {name}"),
        Stop::Gap(item) => format!(in alloc; "gap {item}"),
        Stop::Must(item) => format!(in alloc; "must {item}"),
        Stop::Range(item, _) => format!(in alloc; "range {item}"),
    }
}

// The number of steps, what stopped the next, and the table.
fn shown(alloc: Global, run: &Simulated) -> Result<String, AllocError> {
    let mut text = format!(in alloc; "{}", run.steps)?;
    match &run.stop {
        Some(stop) => {
            text.push(' ')?;
            text.push_str(stopped(alloc, stop)?.as_str())?;
        }
        None => {}
    }
    text.push('\n')?;
    match str::from_utf8(run.table.items()) {
        Ok(table) => text.push_str(table)?,
        Err(_) => text.push_str("no text")?,
    }
    Ok(text)
}

fn answered(alloc: Global, start: &[u8], inputs: &[u8]) -> Result<String, AllocError> {
    let program = tank(alloc)?;
    let order = tank_order(alloc)?;
    match simulate(alloc, &program, &order, start, inputs) {
        Ok(run) => shown(alloc, &run),
        Err(fault) => refused(alloc, &fault),
    }
}

// ---- tables

const START: &[u8] = b"step,x,step\n0,5,0\n";

const INPUTS: &[u8] = b"step,u\n0,-1\n1,1/2\n";

/// At 5 d is 1 and y is 11; at 4 d is 0, since 1 is no number below the tolerance.
const RUN: &str = "2\nstep,x,step,u,d,y\n0,5,0,-1,1,11\n1,4,1,1/2,0,9\n2,9/2,0,,,\n";

/// Tables of a start and of inputs, and what is answered.
const ROWS: [(&[u8], &[u8], &str); 67] = [
    // one run, spelled in many ways
    (START, INPUTS, RUN),
    (b"step,step,x\n0,0,5\n", INPUTS, RUN),
    (b"step,x,step\r\n0,5,0\r\n", b"step,u\r\n0,-1\r\n1,1/2", RUN),
    (b"step,x,step\r0,5,0\r", b"step,u\r0,-1\r1,1/2\r", RUN),
    (
        b"\"step\",\"x\",\"step\"\n0,\"5\",\"0\"",
        b"step,\"u\"\n0,-1\n\"1\",\"1/2\"\n",
        RUN,
    ),
    (b"\xef\xbb\xbfstep,x,step\n0,5,0\n", INPUTS, RUN),
    (b" step\t, x ,\tstep \n 0 , 5\t,0\n", INPUTS, RUN),
    (b"step,\" x\t\",step\n0,\" 5 \",0\n", INPUTS, RUN),
    (
        b"\n\r\nstep,x,step\n\n0,5,0\n\n",
        b"step,u\n\n0,-1\n\n\n1,1/2\n",
        RUN,
    ),
    (START, b"step,u\n0.0,-1.0\n2/2,5e-1\n", RUN),
    (START, b"step,u\n0e3,-2/2\n1e0,.5\n", RUN),
    (b"step,x,step\n0/7,+5.,0.0\n", INPUTS, RUN),
    // no header, or one that is no text
    (b"", INPUTS, "start csv 0"),
    (b"\n\r\n", INPUTS, "start csv 0"),
    (START, b"", "inputs csv 0"),
    (b"step,\xff,step\n0,5,0\n", INPUTS, "start csv 0"),
    (b"step,\xff,step\n0,5\n", INPUTS, "start csv 0"),
    (START, b"step,\xc3\n", "inputs csv 0"),
    // records of another length
    (b"step,x,step\n0,5\n", INPUTS, "start csv 1"),
    (b"step,x,step\n0,5,0\n0,5,0,1\n", INPUTS, "start csv 2"),
    (b"step,x,step\n \n0,5,0\n", INPUTS, "start csv 1"),
    (b"step,y\n0\n", INPUTS, "start csv 1"),
    (START, b"step,u\n0,-1\n1\n", "inputs csv 2"),
    // the header
    (b"x,step\n5,0\n", INPUTS, "start column x"),
    (b"Step,x,step\n0,5,0\n", INPUTS, "start column Step"),
    (b"step,x,y\n0,5,0\n", INPUTS, "start column y"),
    (b"step, d ,x\n0,5,0\n", INPUTS, "start column d"),
    (b"step,x,x\n0,5,5\n", INPUTS, "start column x"),
    (b"step,x,step,step\n0,5,0,0\n", INPUTS, "start column step"),
    (b"step,step\n0,0\n", INPUTS, "start column x"),
    (b"step,x\n0,5\n", INPUTS, "start column step"),
    (b"step\n0\n", INPUTS, "start column x"),
    (
        b"step,\"x\"\"y\",step\n0,5,0\n",
        INPUTS,
        "start column x\"y",
    ),
    (b"step,\"x,y\",step\n0,5,0\n", INPUTS, "start column x,y"),
    (b"step,\"x\n\",step\n0,5,0\n", INPUTS, "start column x\n"),
    (b"step, \"x\",step\n0,5,0\n", INPUTS, "start column \"x\""),
    (b"step,,step\n0,5,0\n", INPUTS, "start column "),
    (START, b"step,U\n0,0\n", "inputs column U"),
    (START, b"step\n0\n", "inputs column u"),
    (START, b"step,u,x\n0,0,0\n", "inputs column x"),
    // the number of records
    (b"step,x,step\n", INPUTS, "start rows 1"),
    (b"step,y,step\n", INPUTS, "start column y"),
    (b"step,x,step\n0,q,0\n0,5,0\n", INPUTS, "start rows 2"),
    // values
    (b"step,x,step\n1,5,0\n", INPUTS, "start value 1 1"),
    (b"step,x,step\n0,\xff,0\n", INPUTS, "start value 1 2"),
    (b"step,x,step\n0,,0\n", INPUTS, "start value 1 2"),
    (b"step,x,step\n0,1 /2,0\n", INPUTS, "start value 1 2"),
    (b"step,x,step\n0,5/0,0\n", INPUTS, "start value 1 2"),
    (
        b"step,x,step\n0,9223372036854775808,0\n",
        INPUTS,
        "start value 1 2",
    ),
    (b"step,x,step\n0,5,2\n", INPUTS, "start value 1 3"),
    (b"step,step,x\n0,2,5\n", INPUTS, "start value 1 2"),
    (b"step,x,step\n0,5,1/2\n", INPUTS, "start value 1 3"),
    (START, b"step,u\n1,0\n", "inputs value 1 1"),
    (START, b"step,u\n0,-1\n2,0\n", "inputs value 2 1"),
    (START, b"step,u\n0,q\nr,0\n", "inputs value 1 2"),
    // the start before the inputs
    (b"step,x,step\n0,q,0\n", b"", "start value 1 2"),
    // runs
    (START, b"step,u\n", "0\nstep,x,step,u,d,y\n0,5,0,,,\n"),
    (
        b"step,x,step\n0,11,0\n",
        b"step,u\n",
        "0\nstep,x,step,u,d,y\n0,11,0,,,\n",
    ),
    (
        b"step,x,step\n0,6.5,4/4\n",
        INPUTS,
        "2\nstep,x,step,u,d,y\n0,13/2,1,-1,1,14\n1,11/2,1,1/2,1,12\n2,6,1,,,\n",
    ),
    // runs that stop
    (
        b"step,x,step\n0,11,0\n",
        INPUTS,
        "0 bounds 0\nstep,x,step,u,d,y\n0,11,0,,,\n",
    ),
    (
        START,
        b"step,u\n0,2\n",
        "0 bounds 2\nstep,x,step,u,d,y\n0,5,0,,,\n",
    ),
    (
        START,
        b"step,u\n0,-1\n1,2\n2,0\n",
        "1 bounds 2\nstep,x,step,u,d,y\n0,5,0,-1,1,11\n1,4,1,,,\n",
    ),
    (
        b"step,x,step\n0,9/2,1\n",
        INPUTS,
        "0 gap 0\nstep,x,step,u,d,y\n0,9/2,1,,,\n",
    ),
    (
        START,
        b"step,u\n0,-1/2\n1,0\n",
        "1 gap 0\nstep,x,step,u,d,y\n0,5,0,-1/2,1,11\n1,9/2,1,,,\n",
    ),
    (
        b"step,x,step\n0,9,0\n",
        b"step,u\n0,1\n",
        "0 must 4\nstep,x,step,u,d,y\n0,9,0,,,\n",
    ),
    (
        b"step,x,step\n0,8,0\n",
        b"step,u\n0,1\n1,1\n",
        "1 must 4\nstep,x,step,u,d,y\n0,8,0,1,1,17\n1,9,1,,,\n",
    ),
    (
        b"step,x,step\n0,1/9223372036854775807,0\n",
        INPUTS,
        "0 range 0\nstep,x,step,u,d,y\n0,1/9223372036854775807,0,,,\n",
    ),
];

#[test]
fn tables_are_judged(rt: HostRuntime) -> Result<(), Fail> {
    let alloc = rt.alloc();
    for (start, inputs, wanted) in ROWS {
        let got = answered(alloc, start, inputs)?;
        assert_eq!(rt; got.as_str(), wanted);
    }
    Ok(())
}

// A table of so many records of the step 0.
fn records(alloc: Global, count: u32) -> Result<Vec<u8>, AllocError> {
    let mut text = b"step,u\n".to_vec(alloc)?;
    for _ in 0..count {
        text.extend_from_slice(b"0,0\n")?;
    }
    Ok(text)
}

// Five names that aren't parameters, so 200,000 records have a million of their values; that the
// second record's step is wrong is judged after their number.
#[test]
fn a_million_values_are_allowed(rt: HostRuntime) -> Result<(), Fail> {
    let alloc = rt.alloc();
    for (count, wanted) in [(200_000, "inputs value 2 1"), (200_001, "limit")] {
        let inputs = records(alloc, count)?;
        let got = answered(alloc, START, &inputs)?;
        assert_eq!(rt; got.as_str(), wanted, "{count} records");
    }
    Ok(())
}

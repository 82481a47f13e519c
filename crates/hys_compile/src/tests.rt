use crate::{Compiled, Detail, SourceFault, compile};
use hys_ast::Place;
use hys_frac::Frac;
use hys_lin::Op;
use std::alloc::{AllocError, Global};
use std::test::Fail;

const INTEGRATOR: &str =
    "SYSTEM s { INTERFACE { STATE { REAL x [0, 10]; } INPUT { REAL u [-1, 1]; } } IMPLEMENTATION { CONTINUOUS { x = x + u; } } }";

// What is compiled at a tolerance; none where that isn't above 0.
fn compiled(
    alloc: Global,
    text: &[u8],
    num: i64,
    den: i64,
) -> Option<Result<Compiled, SourceFault>> {
    let eps = Frac::new(num, den)?;
    if eps.is_positive() {
        Some(compile(alloc, text, eps))
    } else {
        None
    }
}

// The piece so many times.
fn repeated(alloc: Global, piece: &str, count: u32) -> Result<String, AllocError> {
    let mut text = String::new(alloc);
    for _ in 0..count {
        text.push_str(piece)?;
    }
    Ok(text)
}

// The number of a fault with its place.
fn placed(alloc: Global, number: u8, place: Place) -> Result<String, AllocError> {
    format!(in alloc; "{number} {}:{}", place.line, place.col)
}

// A fault that shows two numbers, in few words.
fn with_numbers(alloc: Global, front: &str, left: Frac, right: Frac) -> Result<String, AllocError> {
    let left = left.num();
    let right = right.num();
    format!(in alloc; "{front} {left} {right}")
}

// A fault in few words.
fn in_words(alloc: Global, number: u8, detail: &Detail) -> Result<String, AllocError> {
    match detail {
        Detail::At(place) => placed(alloc, number, *place),
        Detail::Named(name) => {
            let name = name.text();
            format!(in alloc; "{number} {name}")
        }
        Detail::Names(names) => {
            let mut text = format!(in alloc; "{number}")?;
            for name in names.items() {
                text.push_str(" ")?;
                text.push_str(name.text())?;
            }
            Ok(text)
        }
        Detail::Ends(place, low, high) => {
            let front = placed(alloc, number, *place)?;
            with_numbers(alloc, front.as_str(), *low, *high)
        }
        Detail::Literal(place) => {
            let front = placed(alloc, number, *place)?;
            format!(in alloc; "{front} literal")
        }
        Detail::Range(place, lost) => {
            let front = placed(alloc, number, *place)?;
            let is_sum = lost.op == Op::Add;
            let front = format!(in alloc; "{front} {is_sum}")?;
            with_numbers(alloc, front.as_str(), lost.left, lost.right)
        }
        Detail::Tolerance(place, value) => {
            let front = placed(alloc, number, *place)?;
            let value = value.num();
            format!(in alloc; "{front} {value}")
        }
        Detail::Limit(kind) => {
            let kind = *kind;
            format!(in alloc; "{number} {kind:?}")
        }
        Detail::Memory => format!(in alloc; "memory"),
    }
}

// What the compiler answers, in few words.
fn described(alloc: Global, text: &[u8]) -> Result<String, AllocError> {
    match compiled(alloc, text, 1, 1000) {
        Some(Ok(Compiled { system, .. })) => {
            let columns = system.columns.items().len();
            let rows = system.rows.items().len();
            format!(in alloc; "{columns} columns, {rows} rows")
        }
        Some(Err(fault)) => in_words(alloc, fault.number, &fault.detail),
        None => String::from_str(alloc, "no tolerance"),
    }
}

const GUARD: &str =
    "SYSTEM g { INTERFACE { STATE { REAL x [0, 10]; } } IMPLEMENTATION { AUX { BOOL d; } AD { d = x >= 5; } CONTINUOUS { x = x; } } }";

const OWN: &str =
    "SYSTEM g { INTERFACE { STATE { REAL x [0, 10]; } } IMPLEMENTATION { AUX { BOOL d; } AD { d = x >= 5 [1/2]; } CONTINUOUS { x = x; } } }";

const THERMOSTAT: &str = "SYSTEM thermostat {
  INTERFACE {
    STATE { REAL T [-10, 60]; BOOL on; }
    INPUT { REAL amb [-10, 30]; }   // outside
    OUTPUT { REAL y; }
    PARAMETER { REAL a = 0.8; REAL b = 1 - a; }
  }
  IMPLEMENTATION {
    AUX { BOOL hot, cold; REAL heat; }
    AD { hot = T >= 22; cold = T <= 18; }
    DA { heat = { IF on THEN 30 ELSE 0 }; }
    AUTOMATA { on = cold | (on & ~hot); }
    CONTINUOUS { T = a*T + b*(amb + heat); }
    OUTPUT { y = T; }
    MUST { T <= 55; }
  }
}
";

const ROWS: [(&str, &str); 66] = [
    ("@", "1 1:1"),
    ("SYSTEM s {\n @", "1 2:2"),
    ("SYSTEM s { < }", "1 1:12"),
    ("SYSTEM s { /* ", "2 1:12"),
    ("SYSTEM s { /*/", "2 1:12"),
    (
        "SYSTEM aaaaaaaabbbbbbbbccccccccddddddddeeeeeeeeffffffffgggggggghhhhhhhhi { @",
        "3 1:8",
    ),
    ("SYSTEM 012345670123456701234567012345670 { /* ", "3 1:8"),
    ("", "4 1:1"),
    ("  \n // nothing", "4 2:12"),
    ("SYSTEM s", "4 1:9"),
    ("SYSTEM SYSTEM { }", "4 1:8"),
    (
        "SYSTEM l { INTERFACE { INPUT { BOOL a, b, c; } }\nIMPLEMENTATION { AUX { BOOL d; } LOGIC {\nd = a -> b -> c;\n} } }",
        "4 3:12",
    ),
    (
        "SYSTEM s { INTERFACE { STATE { REAL x [0, 1]; } } IMPLEMENTATION { CONTINUOUS {\nx = 1.5e; } } }",
        "4 2:8",
    ),
    (
        "SYSTEM s { INTERFACE { STATE { } STATE { } } IMPLEMENTATION { } }",
        "4 1:34",
    ),
    (
        "SYSTEM s { INTERFACE { } IMPLEMENTATION { MUST { x >= 1 } } }",
        "4 1:57",
    ),
    ("SYSTEM s { INTERFACE { } IMPLEMENTATION { } } ;", "4 1:47"),
    (
        "SYSTEM e { INTERFACE { } IMPLEMENTATION { } }",
        "0 columns, 0 rows",
    ),
    (
        "SYSTEM v { INTERFACE { PARAMETER { } OUTPUT { } } IMPLEMENTATION { } }",
        "0 columns, 0 rows",
    ),
    (
        "SYSTEM v { INTERFACE { INPUT { BOOL a; } } IMPLEMENTATION { AUX { } MUST { } AD { } } }",
        "1 columns, 0 rows",
    ),
    (
        "/* \u{ff} */ SYSTEM e{INTERFACE{STATE{}}IMPLEMENTATION{CONTINUOUS{}}} // end",
        "0 columns, 0 rows",
    ),
    (INTEGRATOR, "2 columns, 0 rows"),
    (
        "SYSTEM e { INTERFACE { STATE { } } IMPLEMENTATION { MUST { } } }",
        "0 columns, 0 rows",
    ),
    (GUARD, "2 columns, 2 rows"),
    (
        "SYSTEM p { INTERFACE { STATE { REAL x [0, 9223372036854775807]; } } IMPLEMENTATION { CONTINUOUS { x = x; } } }",
        "1 columns, 0 rows",
    ),
    (
        "SYSTEM g { INTERFACE { STATE { REAL x [0, 10]; } } IMPLEMENTATION { AUX { BOOL d; } AD { d = x <= 20; } CONTINUOUS { x = x; } } }",
        "2 columns, 2 rows",
    ),
    (
        "SYSTEM c { INTERFACE { STATE { REAL x [0, 10]; } INPUT { BOOL a, b; } } IMPLEMENTATION { AUX { REAL z; } DA { z = { IF a <-> ~b THEN 2*x }; } CONTINUOUS { x = x; } } }",
        "5 columns, 8 rows",
    ),
    (
        "SYSTEM b { INTERFACE { STATE { REAL x [0, 10]; } INPUT { BOOL a, b; } } IMPLEMENTATION { CONTINUOUS { x = x + 3*(REAL a) + 2*(REAL b); } MUST { 3*(REAL a) + 2*(REAL b) <= 4; } } }",
        "3 columns, 1 rows",
    ),
    (THERMOSTAT, "7 columns, 17 rows"),
    (
        "SYSTEM v { INTERFACE { STATE { REAL x [0, 10]; } INPUT { REAL u [-1, 1]; } } IMPLEMENTATION { AUX { REAL z; } LINEAR { z = 2*x - u + 3; } CONTINUOUS { x = z; } } }",
        "3 columns, 2 rows",
    ),
    (
        "SYSTEM v { INTERFACE { STATE { REAL x [0, 10]; } INPUT { REAL u [-1, 1]; } } IMPLEMENTATION { AUX { REAL z, w; } LINEAR { z = w + 1; w = 2*x; } CONTINUOUS { x = z; } } }",
        "4 columns, 4 rows",
    ),
    (OWN, "2 columns, 2 rows"),
    (
        "SYSTEM h { INTERFACE { STATE { REAL x [0, 10]; } INPUT { BOOL a; } } IMPLEMENTATION { AUX { BOOL d; } LOGIC { d = a & x <= 4; } CONTINUOUS { x = x; } } }",
        "4 columns, 6 rows",
    ),
    (
        "SYSTEM t { INTERFACE { STATE {\nREAL x [0, 1], x [0, 1]; } } IMPLEMENTATION { } }",
        "5 2:16",
    ),
    (
        "SYSTEM t { INTERFACE { STATE { REAL x [0, 1]; } } IMPLEMENTATION { CONTINUOUS {\nx = 1 + z; } } }",
        "6 2:9",
    ),
    (
        "SYSTEM t { INTERFACE { PARAMETER {\nREAL a = b, b = 1; } } IMPLEMENTATION { } }",
        "6 2:10",
    ),
    (
        "SYSTEM k { INTERFACE { STATE { REAL x [0, 10]; }\nINPUT { REAL y [0, 1]; BOOL a; } } IMPLEMENTATION { CONTINUOUS {\nx = a + 1;\n} } }",
        "7 3:7",
    ),
    (
        "SYSTEM k { INTERFACE { STATE { REAL x [0, 10]; }\nINPUT { REAL y [0, 1]; BOOL a; } } IMPLEMENTATION { CONTINUOUS {\nx = x * y;\n} } }",
        "8 3:7",
    ),
    (
        "SYSTEM k { INTERFACE { STATE { REAL x [0, 10]; }\nINPUT { REAL y [0, 1]; BOOL a; } } IMPLEMENTATION { CONTINUOUS {\nx = x / (2 - 2);\n} } }",
        "9 3:7",
    ),
    (
        "SYSTEM t { INTERFACE { STATE {\nREAL x; } } IMPLEMENTATION { } }",
        "10 2:6",
    ),
    (
        "SYSTEM p { INTERFACE { STATE { REAL x [3, 2]; } } IMPLEMENTATION { CONTINUOUS { x = x; } } }",
        "11 1:37 3 2",
    ),
    (
        "SYSTEM p { INTERFACE { STATE { REAL x [3, 3]; } } IMPLEMENTATION { CONTINUOUS { x = x; } } }",
        "1 columns, 0 rows",
    ),
    (
        "SYSTEM t { INTERFACE { PARAMETER {\nREAL a; } } IMPLEMENTATION { } }",
        "12 2:6",
    ),
    (
        "SYSTEM t { INTERFACE { STATE { REAL x [0, 1]; } } IMPLEMENTATION { } }",
        "13 x",
    ),
    (
        "SYSTEM t { INTERFACE { STATE { REAL x [0, 1]; } } IMPLEMENTATION { CONTINUOUS {\nx = 1;\nx = 2; } } }",
        "14 3:1",
    ),
    (
        "SYSTEM t { INTERFACE { INPUT { REAL u [0, 1]; } } IMPLEMENTATION { CONTINUOUS {\nu = 1; } } }",
        "15 2:1",
    ),
    (
        "SYSTEM p { INTERFACE { STATE { REAL x [0, 1e-19]; } } IMPLEMENTATION { CONTINUOUS { x = x; } } }",
        "17 1:43 literal",
    ),
    (
        "SYSTEM p { INTERFACE { STATE { REAL x [0, 9223372036854775808]; } } IMPLEMENTATION { CONTINUOUS { x = x; } } }",
        "17 1:43 literal",
    ),
    (
        "SYSTEM p { INTERFACE { STATE {\nREAL x [0, 9223372036854775807 + 1]; } } IMPLEMENTATION { CONTINUOUS { x = x; } } }",
        "17 2:32 true 9223372036854775807 1",
    ),
    (
        "SYSTEM t { INTERFACE { STATE { REAL x [0, 1]; } } IMPLEMENTATION { AUX { BOOL d; } AD {\nd = x >= 1 [0]; } CONTINUOUS { x = x; } } }",
        "20 2:1 0",
    ),
    (
        "SYSTEM t { INTERFACE { } IMPLEMENTATION { AUX { BOOL d; } LOGIC { d = d; } } }",
        "16 d",
    ),
    (
        "SYSTEM t { INTERFACE { } IMPLEMENTATION { AUX { BOOL d1, d2; } LOGIC { d1 = d2; d2 = ~d1; } } }",
        "16 d1 d2",
    ),
    (
        "SYSTEM t { INTERFACE { } IMPLEMENTATION { AUX { BOOL d; REAL z; } LOGIC { d = z <= 5; } LINEAR { z = (REAL d); } } }",
        "16 d @1 z",
    ),
    (
        "SYSTEM t { INTERFACE { STATE { REAL x [0, 10]; } } IMPLEMENTATION { AUX { REAL z; } LINEAR { z = z - z + x; } CONTINUOUS {\nx = z; } } }",
        "2 columns, 2 rows",
    ),
    (
        "SYSTEM t { INTERFACE { STATE { REAL x [0, 9223372036854775807]; } } IMPLEMENTATION { AUX { BOOL d; } AD {\nd = x <= -1; } CONTINUOUS { x = x; } } }",
        "17 2:1 true 1 9223372036854775807",
    ),
    // The least guard number less the tolerance, of an AD item and of a comparison in a formula.
    (
        "SYSTEM t { INTERFACE { STATE { REAL x [0, 9223372036854775807]; } } IMPLEMENTATION { AUX { BOOL d; } AD {\nd = x >= 5; } CONTINUOUS { x = x; } } }",
        "17 2:1 false -9223372036854775802 1",
    ),
    (
        "SYSTEM t { INTERFACE { STATE { REAL x [0, 9223372036854775807]; } } IMPLEMENTATION { AUX { BOOL d; } LOGIC {\nd = x >= 5; } CONTINUOUS { x = x; } } }",
        "17 2:7 false -9223372036854775802 1",
    ),
    // Two faults: names before values, boxes before items, the left name before the right side, operands before their
    // operator, items before names that none defines, circles before numbers of intervals, and these before numbers of
    // rows.
    (
        "SYSTEM t { INTERFACE { STATE { REAL x [0, 9223372036854775807]; } } IMPLEMENTATION { AUX { BOOL d, e; } AD { d = x >= 5;\ne = x <= -1; } CONTINUOUS { x = x; } } }",
        "17 2:1 true 1 9223372036854775807",
    ),
    (
        "SYSTEM t { INTERFACE { STATE { REAL x [0, 9223372036854775807]; } } IMPLEMENTATION { AUX { BOOL d, e; } AD { d = x <= -1; } LOGIC { e = e; } CONTINUOUS { x = x; } } }",
        "16 e",
    ),
    (
        "SYSTEM t { INTERFACE { PARAMETER {\nREAL a, a; } } IMPLEMENTATION { } }",
        "5 2:9",
    ),
    (
        "SYSTEM t { INTERFACE { STATE { REAL x [3, 2]; } } IMPLEMENTATION { CONTINUOUS { x = z; } } }",
        "11 1:37 3 2",
    ),
    (
        "SYSTEM t { INTERFACE { STATE { REAL x [0, 1]; } } IMPLEMENTATION { CONTINUOUS {\nx = 1;\nx = z; } } }",
        "14 3:1",
    ),
    (
        "SYSTEM t { INTERFACE { STATE { REAL x [0, 1]; } } IMPLEMENTATION { CONTINUOUS {\nx = x * (x + z); } } }",
        "6 2:14",
    ),
    (
        "SYSTEM t { INTERFACE { STATE { REAL y [0, 1], x [0, 1]; } } IMPLEMENTATION { CONTINUOUS {\nx = z; } } }",
        "6 2:5",
    ),
    (
        "SYSTEM t { INTERFACE { OUTPUT { REAL y; } } IMPLEMENTATION { } }",
        "13 y",
    ),
    (
        "SYSTEM t { INTERFACE { STATE { REAL x [0, 1]; } } IMPLEMENTATION { AUX { BOOL d; } AD {\nd = z >= 1 [0]; } CONTINUOUS { x = x; } } }",
        "6 2:5",
    ),
    (
        "SYSTEM t { INTERFACE { PARAMETER {\nREAL a = 1; } } IMPLEMENTATION { } }",
        "0 columns, 0 rows",
    ),
];

#[test]
fn rows(rt: HostRuntime) -> Result<(), Fail> {
    let alloc = rt.alloc();
    for (text, wanted) in ROWS {
        let got = described(alloc, text.as_bytes())?;
        assert_eq!(rt; got.as_str(), wanted, "{text}");
    }
    Ok(())
}

// The bound of the second row of a text's system at a tolerance; 0/0 where there is no system.
fn second_bound(alloc: Global, text: &str, num: i64, den: i64) -> (i64, i64) {
    match compiled(alloc, text.as_bytes(), num, den) {
        Some(Ok(Compiled { system, .. })) => match system.rows.items().get(1) {
            Some(row) => (row.bound.num(), row.bound.den()),
            None => (0, 1),
        },
        Some(Err(_)) => (0, 0),
        None => (0, 0),
    }
}

// A guard's own tolerance, or else the one that was asked for, is taken from the 5.
#[test]
fn tolerances(rt: HostRuntime) {
    let alloc = rt.alloc();
    for (text, eps, bound) in [
        (GUARD, (1, 1000), (4999, 1000)),
        (GUARD, (1, 2), (9, 2)),
        (OWN, (1, 1000), (9, 2)),
        (OWN, (1, 1), (9, 2)),
    ] {
        assert_eq!(rt; second_bound(alloc, text, eps.0, eps.1), bound, "{text}");
    }
}

// What is made of a size.
#[derive(Clone, Copy, Debug)]
enum Sized {
    // So many blanks.
    Bytes,
    // So many semicolons.
    Tokens,
    // A name in so many parentheses.
    Nesting,
    // So many items that say the same sum of 500 names, and then one with four nodes and one with five. Each bound is a
    // node, and a sum of n names has 2 * n - 1 nodes.
    Nodes,
    More,
    // A sum of 500 names behind so many signs.
    Expression,
    // So many inputs.
    Names,
    // A chain of so many auxiliaries, each defined by the one that is declared after it.
    Chain,
}

const LIMITS: [(Sized, u32, &str); 15] = [
    (Sized::Bytes, 1_048_576, "4 1:1048577"),
    (Sized::Bytes, 1_048_577, "18 Bytes"),
    (Sized::Tokens, 16_384, "4 1:1"),
    (Sized::Tokens, 16_385, "18 Tokens"),
    (Sized::Nesting, 64, "1 columns, 0 rows"),
    (Sized::Nesting, 65, "18 Nesting"),
    (Sized::Nodes, 0, "1 columns, 0 rows"),
    // The second item, after 80 and 2,003 characters, defines the name again.
    (Sized::Nodes, 4, "14 1:2084"),
    (Sized::More, 0, "1 columns, 0 rows"),
    (Sized::More, 4, "18 Nodes"),
    (Sized::Expression, 1, "1 columns, 0 rows"),
    (Sized::Expression, 2, "18 Expression"),
    (Sized::Names, 200, "200 columns, 0 rows"),
    (Sized::Names, 201, "18 Names"),
    (Sized::Chain, 199, "200 columns, 398 rows"),
];

// A source of a state x with these items in CONTINUOUS.
fn stepping(alloc: Global, items: &str) -> Result<String, AllocError> {
    format!(in alloc;
        "SYSTEM n {{ INTERFACE {{ STATE {{ REAL x [0, 1]; }} }} IMPLEMENTATION {{ CONTINUOUS {{ {items} }} }} }}"
    )
}

fn nested(alloc: Global, count: u32) -> Result<String, AllocError> {
    let open = repeated(alloc, "(", count)?;
    let close = repeated(alloc, ")", count)?;
    let item = format!(in alloc; "x = {open}x{close};")?;
    stepping(alloc, item.as_str())
}

fn summed(alloc: Global, count: u32, last: &str) -> Result<String, AllocError> {
    let sum = repeated(alloc, " + x", 499)?;
    let item = format!(in alloc; "x = x{sum}; ")?;
    let items = repeated(alloc, item.as_str(), count)?;
    let items = format!(in alloc; "{items}{last}")?;
    stepping(alloc, items.as_str())
}

fn signed(alloc: Global, count: u32) -> Result<String, AllocError> {
    let signs = repeated(alloc, "- ", count)?;
    let sum = repeated(alloc, " + x", 499)?;
    let item = format!(in alloc; "x = {signs}x{sum};")?;
    stepping(alloc, item.as_str())
}

fn inputs(alloc: Global, count: u32) -> Result<String, AllocError> {
    let mut names = String::new(alloc);
    for number in 0..count {
        let name = format!(in alloc; "BOOL a{number}; ")?;
        names.push_str(name.as_str())?;
    }
    format!(in alloc; "SYSTEM n {{ INTERFACE {{ INPUT {{ {names} }} }} IMPLEMENTATION {{ }} }}")
}

fn chained(alloc: Global, count: u32) -> Result<String, AllocError> {
    let mut items = String::new(alloc);
    let mut names = String::new(alloc);
    for number in 1..count {
        let next = number.wrapping_add(1);
        let item = format!(in alloc; "z{number} = z{next}; ")?;
        items.push_str(item.as_str())?;
        let name = format!(in alloc; "z{number}, ")?;
        names.push_str(name.as_str())?;
    }
    format!(in alloc;
        "SYSTEM n {{ INTERFACE {{ STATE {{ REAL x [0, 1]; }} }} IMPLEMENTATION {{ AUX {{ REAL {names}z{count}; }} LINEAR {{ {items}z{count} = x; }} CONTINUOUS {{ x = z1; }} }} }}"
    )
}

fn source_of(alloc: Global, what: Sized, count: u32) -> Result<String, AllocError> {
    match what {
        Sized::Bytes => repeated(alloc, " ", count),
        Sized::Tokens => repeated(alloc, ";", count),
        Sized::Nesting => nested(alloc, count),
        Sized::Nodes => summed(alloc, count, "x = -x;"),
        Sized::More => summed(alloc, count, "x = x + x;"),
        Sized::Expression => signed(alloc, count),
        Sized::Names => inputs(alloc, count),
        Sized::Chain => chained(alloc, count),
    }
}

#[test]
fn limits(rt: HostRuntime) -> Result<(), Fail> {
    let alloc = rt.alloc();
    for (what, count, wanted) in LIMITS {
        let text = source_of(alloc, what, count)?;
        let got = described(alloc, text.as_bytes())?;
        assert_eq!(rt; got.as_str(), wanted, "{what:?} {count}");
    }
    Ok(())
}

// Any byte may stand in a comment.
#[test]
fn comments(rt: HostRuntime) -> Result<(), Fail> {
    let alloc = rt.alloc();
    let mut text = b"/*x*/ ".to_vec(alloc)?;
    text[2] = 255;
    text.extend_from_slice(INTEGRATOR.as_bytes())?;
    let got = described(alloc, &text)?;
    assert_eq!(rt; got.as_str(), "2 columns, 0 rows");
    Ok(())
}

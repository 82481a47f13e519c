//! The order of definition of worked sources, and the intervals of their auxiliaries.

use crate::source::{lost_text, name_at, program_of};
use hys_bound::{BoundFault, bounds};
use hys_order::{OrderFault, order};
use hys_prog::{NameId, Program};
use std::alloc::{AllocError, Global};
use std::test::Fail;

fn circle_line(alloc: Global, program: &Program, names: &[NameId]) -> Result<String, AllocError> {
    let mut line = String::from_str(alloc, "cycle")?;
    for name in names {
        line.push_str(" ")?;
        line.push_str(name_at(program, *name))?;
    }
    Ok(line)
}

fn range_line(
    alloc: Global,
    program: &Program,
    item: u32,
    lost: hys_lin::Lost,
) -> Result<String, AllocError> {
    let lost = lost_text(alloc, lost)?;
    match program.items.items().get(item as usize) {
        Some(item) => {
            let line = item.place.line;
            let col = item.place.col;
            format!(in alloc; "range at {line}:{col}: {lost}")
        }
        None => format!(in alloc; "range: {lost}"),
    }
}

// The auxiliaries in their order with their intervals, or why they have none.
fn ranges_of(alloc: Global, text: &str) -> Result<String, Fail> {
    let program = program_of(alloc, text)?;
    let order = match order(alloc, &program) {
        Ok(order) => order,
        Err(OrderFault::Cycle(names)) => return Ok(circle_line(alloc, &program, names.items())?),
        Err(OrderFault::Memory) => return Err(Fail::from("memory")),
    };
    let boxes = match bounds(alloc, &program, &order) {
        Ok(boxes) => boxes,
        Err(BoundFault::Range(item, lost)) => {
            return Ok(range_line(alloc, &program, item, lost)?);
        }
        Err(BoundFault::Memory) => return Err(Fail::from("memory")),
    };
    let mut line = String::from_str(alloc, "order")?;
    for name in order.names.items() {
        if let Some(interval) = boxes.get(*name as usize) {
            let shown = name_at(&program, *name);
            let low = interval.low.text(alloc)?;
            let high = interval.high.text(alloc)?;
            line.push_str(&format!(in alloc; " {shown} {low} {high}")?)?;
        }
    }
    Ok(line)
}

// The rows of cycles and of a guard past the range are those of the manual; the numbers of the
// others were worked out by hand.
const ROWS: [(&str, &str); 10] = [
    (
        "SYSTEM y { INTERFACE { } IMPLEMENTATION { AUX { BOOL d1, d2; } LOGIC { d1 = d2; d2 = ~d1; } } }",
        "cycle d1 d2",
    ),
    (
        "SYSTEM y { INTERFACE { } IMPLEMENTATION { AUX { BOOL d; } LOGIC { d = d; } } }",
        "cycle d",
    ),
    (
        "SYSTEM y { INTERFACE { } IMPLEMENTATION { AUX { BOOL d; REAL z; } LOGIC { d = z <= 5; } LINEAR { z = (REAL d); } } }",
        "cycle d @1 z",
    ),
    (
        "SYSTEM v { INTERFACE { STATE { REAL x [0, 10]; } INPUT { REAL u [-1, 1]; } } IMPLEMENTATION { AUX { REAL z, w; } LINEAR { z = w + 1; w = 2*x; } CONTINUOUS { x = z; } } }",
        "order w 0 20 z 1 21",
    ),
    (
        "SYSTEM w { INTERFACE { STATE { REAL x [0, 9223372036854775807]; } }\nIMPLEMENTATION { AUX { BOOL d; } AD {\nd = x <= -1;\n} CONTINUOUS { x = x; } } }",
        "range at 3:1: 1 + 9223372036854775807",
    ),
    // A Boolean auxiliary is from 0 to 1, a choice is around both its forms.
    (
        "SYSTEM c { INTERFACE { STATE { REAL x [0, 10]; } } IMPLEMENTATION { AUX { BOOL d; REAL z, w; } AD { d = x >= 5; } DA { z = IF d THEN 2*x - 3 ELSE 30 - x; w = IF d THEN z; } CONTINUOUS { x = x; } } }",
        "order d 0 1 z -3 30 w -3 30",
    ),
    // The THEN form, the ELSE form, and a LINEAR form past the range.
    (
        "SYSTEM c { INTERFACE { STATE { REAL x [0, 9223372036854775807]; BOOL a; } } IMPLEMENTATION { AUX { REAL z; }\nDA { z = IF a THEN x + 1 ELSE 2*x; }\nAUTOMATA { a = a; } CONTINUOUS { x = x; } } }",
        "range at 2:6: 1 + 9223372036854775807",
    ),
    (
        "SYSTEM c { INTERFACE { STATE { REAL x [0, 9223372036854775807]; BOOL a; } } IMPLEMENTATION { AUX { REAL z; }\nDA { z = IF a THEN x ELSE 2*x; }\nAUTOMATA { a = a; } CONTINUOUS { x = x; } } }",
        "range at 2:6: 2 * 9223372036854775807",
    ),
    (
        "SYSTEM l { INTERFACE { STATE { REAL x [-9223372036854775807, 0]; } } IMPLEMENTATION { AUX { REAL z, w; }\nLINEAR { w = z - 2; z = x; }\nCONTINUOUS { x = x; } } }",
        "range at 2:10: -2 + -9223372036854775807",
    ),
    // Intervals found before are those that count: the first auxiliary of the order is from 2 to 3.
    (
        "SYSTEM l { INTERFACE { INPUT { REAL u [0, 1]; } } IMPLEMENTATION { AUX { REAL a, b, c; } LINEAR { a = b - c; b = -4*c; c = u + 2; } } }",
        "order c 2 3 b -12 -8 a -15 -10",
    ),
];

#[test]
fn orders_and_intervals(rt: HostRuntime) -> Result<(), Fail> {
    let alloc = rt.alloc();
    for (text, want) in ROWS {
        let line = ranges_of(alloc, text)?;
        assert_eq!(rt; line.as_str(), want, "{text}");
    }
    Ok(())
}

// As many names as a source may have.
const LENGTH: u32 = 200;

// Each auxiliary is 1 more than the one declared behind it, and the last is 0.
fn chain(alloc: Global) -> Result<String, AllocError> {
    let mut text = String::from_str(alloc, "SYSTEM c { INTERFACE { } IMPLEMENTATION { AUX { ")?;
    for k in 0..LENGTH {
        text.push_str(&format!(in alloc; "REAL a{k}; ")?)?;
    }
    text.push_str("} LINEAR { ")?;
    for k in 1..LENGTH {
        let before = k - 1;
        text.push_str(&format!(in alloc; "a{before} = a{k} + 1; ")?)?;
    }
    text.push_str("a199 = 0; } } }")?;
    Ok(text)
}

// The order and the intervals of the chain, from the last declared name to the first.
fn chain_line(alloc: Global) -> Result<String, AllocError> {
    let mut line = String::from_str(alloc, "order")?;
    for k in 0..LENGTH {
        let name = LENGTH - 1 - k;
        line.push_str(&format!(in alloc; " a{name} {k} {k}")?)?;
    }
    Ok(line)
}

#[test]
fn a_long_chain(rt: HostRuntime) -> Result<(), Fail> {
    let alloc = rt.alloc();
    let text = chain(alloc)?;
    let line = ranges_of(alloc, &text)?;
    assert_eq!(rt; line.as_str(), chain_line(alloc)?.as_str());
    Ok(())
}

use crate::{ParseFault, parse};
use hys_lex::tokens;
use std::alloc::{AllocError, Global};
use std::test::Fail;

#[derive(Clone, Copy, Debug, PartialEq, Eq)]
enum Outcome {
    Tree,
    Fault(ParseFault),
    NoTokens,
}

fn parsed(alloc: Global, text: &[u8]) -> Outcome {
    if text.len() >= 1 << 20 {
        return Outcome::NoTokens;
    }
    match tokens(alloc, text) {
        Err(_) => Outcome::NoTokens,
        Ok(tokens) => match parse(alloc, tokens.as_slice(), text) {
            Ok(_) => Outcome::Tree,
            Err(fault) => Outcome::Fault(fault),
        },
    }
}

// A source with this MUST section, which begins with so many times `front`.
fn must(alloc: Global, front: &str, count: u32, back: &str) -> Result<String, AllocError> {
    let mut text = String::from_str(alloc, "SYSTEM v { INTERFACE { } IMPLEMENTATION { MUST { ")?;
    for _ in 0..count {
        text.push_str(front)?;
    }
    text.push_str(back)?;
    Ok(text)
}

#[test]
fn outcomes(rt: HostRuntime) -> Result<(), Fail> {
    let alloc = rt.alloc();
    let rows = [
        ("", Outcome::Fault(ParseFault::Syntax(0))),
        ("SYSTEM s {", Outcome::Fault(ParseFault::Syntax(3))),
        (
            "SYSTEM s { INTERFACE { STATE { REAL x [0, 10]; } INPUT { REAL u [-1, 1]; } } IMPLEMENTATION { CONTINUOUS { x = x + u; } } }",
            Outcome::Tree,
        ),
        (
            "SYSTEM c { INTERFACE { STATE { REAL x [0, 10]; } INPUT { BOOL a, b; } } IMPLEMENTATION { AUX { REAL z; } DA { z = { IF a <-> ~b THEN 2*x }; } CONTINUOUS { x = x; } } }",
            Outcome::Tree,
        ),
        (
            "SYSTEM l { INTERFACE { INPUT { BOOL a, b, c; } } IMPLEMENTATION { AUX { BOOL d; } LOGIC { d = a -> b -> c; } } }",
            Outcome::Fault(ParseFault::Syntax(31)),
        ),
        (
            "SYSTEM s { INTERFACE { STATE { } STATE { } } IMPLEMENTATION { } }",
            Outcome::Fault(ParseFault::Syntax(8)),
        ),
        (
            "SYSTEM s { INTERFACE { } IMPLEMENTATION { MUST { x >= 1 } } }",
            Outcome::Fault(ParseFault::Syntax(13)),
        ),
        (
            "SYSTEM s { INTERFACE { } IMPLEMENTATION { } } }",
            Outcome::Fault(ParseFault::Syntax(10)),
        ),
        (
            "SYSTEM s { INTERFACE { } IMPLEMENTATION { AD { d = x >= 5 [1/2]; } } }",
            Outcome::Tree,
        ),
        (
            "SYSTEM s { INTERFACE { } IMPLEMENTATION { LOGIC { d = x >= 5 [1/2]; } } }",
            Outcome::Fault(ParseFault::Syntax(15)),
        ),
    ];
    for (text, expected) in rows {
        assert_eq!(rt; parsed(alloc, text.as_bytes()), expected, "{text}");
    }
    Ok(())
}

// What stands behind the first wrong token does not matter.
#[test]
fn behind_the_fault(rt: HostRuntime) -> Result<(), Fail> {
    let alloc = rt.alloc();
    let rows = [
        (
            "SYSTEM l { INTERFACE { INPUT { BOOL a, b, c; } } IMPLEMENTATION { AUX { BOOL d; } LOGIC { d = a -> b -> ",
            "c; } } }",
            31,
        ),
        (
            "SYSTEM s { INTERFACE { STATE { } STATE ",
            "{ } } IMPLEMENTATION { } }",
            8,
        ),
        ("SYSTEM s { INTERFACE { STATE { REAL x [0 ] ", ", 1];", 11),
        ("SYSTEM s { INTERFACE { OUTPUT { REAL y [ ", "0, 1];", 9),
        (
            "SYSTEM s { INTERFACE { } IMPLEMENTATION { MUST { x <= 1 <= ",
            "2; } } }",
            13,
        ),
        (
            "SYSTEM s { INTERFACE { } IMPLEMENTATION { MUST { (REAL 1 ",
            ") >= 0; } } }",
            12,
        ),
        (
            "SYSTEM s { INTERFACE { } IMPLEMENTATION { AD { d = x >= 5 [1, ",
            "2]; } } }",
            17,
        ),
        (
            "SYSTEM s { INTERFACE { } IMPLEMENTATION { } } } ",
            "SYSTEM",
            10,
        ),
    ];
    for (front, back, place) in rows {
        let expected = Outcome::Fault(ParseFault::Syntax(place));
        let mut text = String::from_str(alloc, front)?;
        assert_eq!(rt; parsed(alloc, text.as_bytes()), expected, "{front}");
        text.push_str(back)?;
        assert_eq!(rt; parsed(alloc, text.as_bytes()), expected, "{front}{back}");
    }
    Ok(())
}

#[test]
fn depths(rt: HostRuntime) -> Result<(), Fail> {
    let alloc = rt.alloc();
    let mut inside = String::from_str(alloc, "x")?;
    for _ in 0..64 {
        inside.push_str(")")?;
    }
    inside.push_str("; } } }")?;
    let shallow = must(alloc, "(", 64, inside.as_str())?;
    let deep = must(alloc, "(", 65, "x")?;
    let open = must(alloc, "(", 65, "")?;
    let long = must(alloc, "x + ", 8000, "x <= 1; } } }")?;
    assert_eq!(rt; parsed(alloc, shallow.as_bytes()), Outcome::Tree);
    assert_eq!(rt;
        parsed(alloc, deep.as_bytes()),
        Outcome::Fault(ParseFault::Deep(75))
    );
    assert_eq!(rt;
        parsed(alloc, open.as_bytes()),
        Outcome::Fault(ParseFault::Syntax(75))
    );
    assert_eq!(rt; parsed(alloc, long.as_bytes()), Outcome::Tree);
    Ok(())
}

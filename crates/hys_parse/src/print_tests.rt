use crate::parse;
use hys_ast::{NodeCount, count_nodes, print};
use hys_lex::tokens;
use std::alloc::{AllocError, Global};
use std::test::Fail;

// What a source is printed as, and how many nodes it has.
fn printed(alloc: Global, text: &[u8]) -> Option<(NodeCount, Vec<u8>)> {
    if text.len() >= 1 << 20 {
        return None;
    }
    let Ok(tokens) = tokens(alloc, text) else {
        return None;
    };
    match parse(alloc, tokens.as_slice(), text) {
        Err(_) => None,
        Ok(source) => match print(alloc, &source) {
            Err(_) => None,
            Ok(found) => Some((count_nodes(&source), found)),
        },
    }
}

// Whether the text is that of a source that is printed as expected.
fn is_printed(alloc: Global, text: &[u8], expected: &[u8]) -> bool {
    match printed(alloc, text) {
        None => false,
        Some((_, found)) => found.as_slice() == expected,
    }
}

// A source with this formula in MUST.
fn must(alloc: Global, formula: &str) -> Result<String, AllocError> {
    format!(in alloc; "SYSTEM e {{ INTERFACE {{ }} IMPLEMENTATION {{ MUST {{ {formula} ; }} }} }} ")
}

const FORMULAS: [(&str, &str); 40] = [
    ("a", "a"),
    ("((a))", "a"),
    ("- -x", "- - x"),
    ("-+x", "- + x"),
    ("~ ~a", "~ ~ a"),
    ("!a", "~ a"),
    ("a - -b", "a - - b"),
    ("a - (b - c)", "a - ( b - c )"),
    ("(a - b) - c", "a - b - c"),
    ("(a + b) * c", "( a + b ) * c"),
    ("(a * b) + c", "a * b + c"),
    ("a + (b * c)", "a + b * c"),
    ("a * (b / c)", "a * ( b / c )"),
    ("(a * b) / c", "a * b / c"),
    ("-(a + b)", "- ( a + b )"),
    ("-(a * b)", "- ( a * b )"),
    ("(-a) + b", "- a + b"),
    ("-(~a)", "- ( ~ a )"),
    ("~(-a)", "~ - a"),
    ("~(a & b)", "~ ( a & b )"),
    ("(~a) & b", "~ a & b"),
    ("~(a <= b)", "~ a <= b"),
    ("(~a) <= b", "( ~ a ) <= b"),
    ("a + (~b)", "a + ( ~ b )"),
    ("(REAL a)", "( REAL a )"),
    ("((REAL a)) * 2", "( REAL a ) * 2"),
    ("5. + .5 - 1e3", "5. + .5 - 1e3"),
    ("1.5E-07", "1.5E-07"),
    ("true | FALSE", "TRUE | FALSE"),
    ("TRUE & false", "TRUE & FALSE"),
    ("(a -> b) -> c", "( a -> b ) -> c"),
    ("a <-> (b <-> c)", "a <-> ( b <-> c )"),
    ("a <- (b & c)", "a <- b & c"),
    ("(a | b) -> (c & d)", "a | b -> c & d"),
    ("(a -> b) | c", "( a -> b ) | c"),
    ("a & (b | c)", "a & ( b | c )"),
    ("a || (b || c)", "a | ( b | c )"),
    ("a && b && c", "a & b & c"),
    ("(a <= b) == c", "( a <= b ) == c"),
    ("x + 1 >= 2*y", "x + 1 >= 2 * y"),
];

#[test]
fn formulas(rt: HostRuntime) -> Result<(), Fail> {
    let alloc = rt.alloc();
    for (formula, expected) in FORMULAS {
        let text = must(alloc, formula)?;
        let wanted = must(alloc, expected)?;
        assert!(rt;
            is_printed(alloc, text.as_bytes(), wanted.as_bytes()),
            "{formula}"
        );
        assert!(rt;
            is_printed(alloc, wanted.as_bytes(), wanted.as_bytes()),
            "{expected}"
        );
    }
    Ok(())
}

const SOURCES: [(&str, &str); 6] = [
    (
        "SYSTEM e { INTERFACE { STATE { } } IMPLEMENTATION { MUST { } } }",
        "SYSTEM e { INTERFACE { } IMPLEMENTATION { } } ",
    ),
    (
        "SYSTEM p { INTERFACE { PARAMETER { REAL p = 1/2, q; BOOL b = TRUE; } INPUT { BOOL u; REAL w [0, p]; } } IMPLEMENTATION { } }",
        "SYSTEM p { INTERFACE { PARAMETER { REAL p = 1 / 2 ; REAL q ; BOOL b = TRUE ; } INPUT { BOOL u ; REAL w [ 0 , p ] ; } } IMPLEMENTATION { } } ",
    ),
    (
        "SYSTEM d { INTERFACE { INPUT { BOOL a; } } IMPLEMENTATION { DA { z = { IF a & a THEN 2 ELSE -1 }; w = IF a THEN 1; } AUX { REAL z, w; } } }",
        "SYSTEM d { INTERFACE { INPUT { BOOL a ; } } IMPLEMENTATION { AUX { REAL z ; REAL w ; } DA { z = IF a & a THEN 2 ELSE - 1 ; w = IF a THEN 1 ; } } } ",
    ),
    (
        "SYSTEM g { INTERFACE { STATE { REAL x [0, 9]; } } IMPLEMENTATION { AD { d = (x >= 5) [(1/2)]; e = x <= (2); } AUX { BOOL d, e; } } }",
        "SYSTEM g { INTERFACE { STATE { REAL x [ 0 , 9 ] ; } } IMPLEMENTATION { AUX { BOOL d ; BOOL e ; } AD { d = x >= 5 [ 1 / 2 ] ; e = x <= 2 ; } } } ",
    ),
    (
        "SYSTEM o { INTERFACE { OUTPUT { REAL y; BOOL z; } STATE { REAL x [-1, 1]; } } IMPLEMENTATION { OUTPUT { y = x; z = x <= 0; } LINEAR { } LOGIC { a = !z; } } }",
        "SYSTEM o { INTERFACE { OUTPUT { REAL y ; BOOL z ; } STATE { REAL x [ - 1 , 1 ] ; } } IMPLEMENTATION { OUTPUT { y = x ; z = x <= 0 ; } LOGIC { a = ~ z ; } } } ",
    ),
    (
        "SYSTEM thermostat {
  INTERFACE {
    STATE { REAL T [-10, 60]; BOOL on; }
    INPUT { REAL amb [-10, 30]; }   // outside
    OUTPUT { REAL y; }
    PARAMETER { REAL a = 0.8; REAL b = 1 - a; }
  }
  IMPLEMENTATION {
    AUX { BOOL hot, cold; REAL heat; }
    AD { hot = T >= 22; cold = T <= 18; }
    DA { heat = { IF on THEN 30 ELSE 0 }; }
    AUTOMATA { on = cold | (on & ~hot); }
    CONTINUOUS { T = a*T + b*(amb + heat); }
    OUTPUT { y = T; }
    MUST { T <= 55; }
  }
}
",
        "SYSTEM thermostat { INTERFACE { STATE { REAL T [ - 10 , 60 ] ; BOOL on ; } INPUT { REAL amb [ - 10 , 30 ] ; } OUTPUT { REAL y ; } PARAMETER { REAL a = 0.8 ; REAL b = 1 - a ; } } IMPLEMENTATION { AUX { BOOL hot ; BOOL cold ; REAL heat ; } AD { hot = T >= 22 ; cold = T <= 18 ; } DA { heat = IF on THEN 30 ELSE 0 ; } AUTOMATA { on = cold | on & ~ hot ; } CONTINUOUS { T = a * T + b * ( amb + heat ) ; } OUTPUT { y = T ; } MUST { T <= 55 ; } } } ",
    ),
];

#[test]
fn sources(rt: HostRuntime) -> Result<(), Fail> {
    let alloc = rt.alloc();
    for (text, expected) in SOURCES {
        assert!(rt;
            is_printed(alloc, text.as_bytes(), expected.as_bytes()),
            "{text}"
        );
        assert!(rt;
            is_printed(alloc, expected.as_bytes(), expected.as_bytes()),
            "{expected}"
        );
    }
    Ok(())
}

// So many times the front, and then the back.
fn repeated(alloc: Global, front: &str, count: u32, back: &str) -> Result<String, AllocError> {
    let mut text = String::new(alloc);
    for _ in 0..count {
        text.push_str(front)?;
    }
    text.push_str(back)?;
    Ok(text)
}

// A chain of operators is as deep in the tree as it is long, and no deeper in the text.
#[test]
fn long_chains(rt: HostRuntime) -> Result<(), Fail> {
    let alloc = rt.alloc();
    let rows = [
        ("x + ", 8184, "x", 16369),
        ("a & ", 8184, "a", 16369),
        ("x - ", 7900, "- x", 15802),
        ("- ", 64, "x", 65),
        ("~ ", 64, "a", 65),
        ("- - x - ", 1, "+ x", 6),
    ];
    for (front, count, back, nodes) in rows {
        let formula = repeated(alloc, front, count, back)?;
        let text = must(alloc, formula.as_str())?;
        match printed(alloc, text.as_bytes()) {
            None => assert!(rt; false, "{front}"),
            Some((found_nodes, found)) => {
                assert_eq!(rt; found_nodes.total, nodes, "{front}");
                assert!(rt; found.as_slice() == text.as_bytes(), "{front}");
            }
        }
    }
    Ok(())
}

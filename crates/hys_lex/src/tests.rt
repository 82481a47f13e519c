use crate::cut::{LexFault, tokens};
use crate::token::TokenKind;
use crate::{keyword, sign};
use std::test::Fail;

const NAME: TokenKind = TokenKind::Name;

const LITERAL: TokenKind = TokenKind::Literal;

const CUTS: [(&[u8], &[(TokenKind, u32, u32)]); 25] = [
    (b"", &[]),
    (b" \t\r\n", &[]),
    (b"<=", &[(TokenKind::Sign(sign::AT_MOST), 0, 2)]),
    (b"<-", &[(TokenKind::Sign(sign::FROM), 0, 2)]),
    (b"<->", &[(TokenKind::Sign(sign::IFF), 0, 3)]),
    (b"->", &[(TokenKind::Sign(sign::THEN), 0, 2)]),
    (
        b"--",
        &[
            (TokenKind::Sign(sign::MINUS), 0, 1),
            (TokenKind::Sign(sign::MINUS), 1, 2),
        ],
    ),
    (b"==", &[(TokenKind::Sign(sign::EQUAL_TO), 0, 2)]),
    (
        b"&&&",
        &[
            (TokenKind::Sign(sign::AND_AND), 0, 2),
            (TokenKind::Sign(sign::AND), 2, 3),
        ],
    ),
    (
        b"|||",
        &[
            (TokenKind::Sign(sign::OR_OR), 0, 2),
            (TokenKind::Sign(sign::OR), 2, 3),
        ],
    ),
    (b"5.", &[(LITERAL, 0, 2)]),
    (b".5", &[(LITERAL, 0, 2)]),
    (b"1.5e", &[(LITERAL, 0, 3), (NAME, 3, 4)]),
    (b"1.5e-07", &[(LITERAL, 0, 7)]),
    (
        b"1e+",
        &[
            (LITERAL, 0, 1),
            (NAME, 1, 2),
            (TokenKind::Sign(sign::PLUS), 2, 3),
        ],
    ),
    (b"12345678901234567890123456789012", &[(LITERAL, 0, 32)]),
    (&[b'a'; 64], &[(NAME, 0, 64)]),
    (b"REALx", &[(NAME, 0, 5)]),
    (
        b"true TRUE",
        &[
            (TokenKind::Keyword(keyword::TRUE_SMALL), 0, 4),
            (TokenKind::Keyword(keyword::TRUE), 5, 9),
        ],
    ),
    (b"a/*b*/c", &[(NAME, 0, 1), (NAME, 6, 7)]),
    (b"a//b\nc", &[(NAME, 0, 1), (NAME, 5, 6)]),
    (b"/*\xff*/", &[]),
    (b"/**/", &[]),
    (b"//", &[]),
    (
        b"/ *",
        &[
            (TokenKind::Sign(sign::DIVIDE), 0, 1),
            (TokenKind::Sign(sign::TIMES), 2, 3),
        ],
    ),
];

const FAULTS: [(&[u8], LexFault); 11] = [
    (b"SYSTEM s { /* ", LexFault::Comment(11)),
    (b"/*/", LexFault::Comment(0)),
    (b"@", LexFault::Byte(0)),
    (b"x @ /*", LexFault::Byte(2)),
    (b"< ", LexFault::Byte(0)),
    (b"<a", LexFault::Byte(0)),
    (b"a>", LexFault::Byte(1)),
    (b".", LexFault::Byte(0)),
    (&[b'a'; 65], LexFault::Long(0)),
    (b"x 123456789012345678901234567890123", LexFault::Long(2)),
    (b"\xff", LexFault::Byte(0)),
];

#[test]
fn cuts(rt: HostRuntime) -> Result<(), Fail> {
    for (text, want) in CUTS {
        assert!(rt; text.len() < 100);
        let found = tokens(rt.alloc(), text)?;
        assert_eq!(rt; found.len(), want.len(), "in {text:?}");
        for (token, (kind, from, to)) in found.iter().zip(want) {
            assert_eq!(rt; token.kind, *kind, "in {text:?}");
            assert_eq!(rt; (token.from, token.to), (*from, *to), "in {text:?}");
        }
    }
    Ok(())
}

#[test]
fn faults(rt: HostRuntime) {
    for (text, want) in FAULTS {
        assert!(rt; text.len() < 100);
        match tokens(rt.alloc(), text) {
            Ok(found) => assert!(rt; false, "{found:?} in {text:?}"),
            Err(fault) => assert_eq!(rt; fault, want, "in {text:?}"),
        }
    }
}

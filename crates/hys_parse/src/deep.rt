//! How deep tokens stand.

ghost use Rattle.std.specs.Prelude.{◌≡◌, ◌+◌, ◌-◌, ◌<◌, ◌≤◌, ◌^◌, length, MatchOption};
ghost use Rattle.hys_parse.specs.Depth.{opened, run_on, IsFirstDeep, IsShallow};

use hys_lex::{Token, TokenKind, sign};

/// The greatest depth that a token may have.
pub const MOST: u32 = 64;

fn opened(count: u32, kind: TokenKind) -> u32
    requires { count < 2 ^ 31 }
    ensures { result ≡ opened count kind }
{
    match kind {
        TokenKind::Sign(sign::OPEN_PARENTHESIS) => count + 1,
        TokenKind::Sign(sign::CLOSE_PARENTHESIS) => count.saturating_sub(1),
        _ => count,
    }
}

fn run_on(run: u32, kind: TokenKind) -> u32
    requires { run < 2 ^ 31 }
    ensures { result ≡ run_on run kind }
{
    match kind {
        TokenKind::Sign(sign::TILDE | sign::BANG | sign::MINUS | sign::PLUS) => run + 1,
        _ => 0,
    }
}

/// The place among the tokens of the first that is deeper than the limit.
pub fn first_deep(tokens: &[Token]) -> Option<u32>
    requires { length tokens.now < 2 ^ 32 }
    ensures { MatchOption result (IsShallow tokens.now) (λ k. IsFirstDeep tokens.now k) }
{
    let mut open = 0;
    let mut run = 0;
    for (at, token) in tokens.iter().enumerate() {
        if open + run > MOST {
            return Some(at as u32);
        }
        open = opened(open, token.kind);
        run = run_on(run, token.kind);
    }
    None
}

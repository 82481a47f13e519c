ghost use Rattle.std.specs.Prelude.{◌≡◌, ◌<◌, ◌≤◌, ◌-◌, ◌^◌, length, slice_range, IsAscii, IfOk};
ghost use Rattle.hys_lex.specs.Cut.{Cut};
ghost use Rattle.hys_ast.specs.Places.{text_at, lexemes_of};

use crate::place::{Place, advance, start};
use hys_base::Text;
use hys_lex::{Token, TokenKind, laws};
use std::alloc::{AllocError, Global};

/// A token with its place, and with its text where it is a name or a literal. The kind tells the
/// text of any other token, so `text` is empty there.
#[derive(Debug, Drop)]
pub struct Lexeme {
    pub kind: TokenKind,
    pub text: Text,
    pub place: Place,
}

fn slice_text(alloc: Global, bytes: &[u8]) -> Result<Text, AllocError>
    requires { IsAscii bytes.now }
    ensures { IfOk result (λ t. t ≡ bytes.now) }
{
    match std::str::from_utf8(bytes) {
        Ok(text) => Ok(Text::of(String::from_str(alloc, text)?)),
        Err(_) => unreachable!(),
    }
}

fn text_of(
    alloc: Global,
    text: &[u8],
    kind: TokenKind,
    from: u32,
    to: u32,
) -> Result<Text, AllocError>
    requires order { from ≤ to }
    requires within { to ≤ length text.now }
    requires ascii { IsAscii (slice_range text.now from to) }
    ensures { IfOk result (λ t. t ≡ text_at text.now kind from to) }
{
    match kind {
        TokenKind::Name | TokenKind::Literal => slice_text(
            alloc,
            &text[from as usize..to as usize],
        ),
        TokenKind::Keyword(_) | TokenKind::Sign(_) => Ok(Text::of(String::new(alloc))),
    }
}

/// The tokens of a text with their places and texts.
pub fn lexemes(alloc: Global, tokens: &[Token], text: &[u8]) -> Result<Vec<Lexeme>, AllocError>
    requires cut { Cut text.now tokens.now }
    requires small { length text.now < 2 ^ 32 - 1 }
    ensures { IfOk result (λ v. v.items ≡ lexemes_of text.now tokens.now) }
{
    laws::spans(tokens, text);
    let mut found = Vec::new(alloc);
    let mut place = start(text);
    for token in tokens {
        place = advance(text, place, token.from);
        let text = text_of(alloc, text, token.kind, token.from, token.to)?;
        found.push(Lexeme {
            kind: token.kind,
            text,
            place,
        })?;
    }
    Ok(found)
}

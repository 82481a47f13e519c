ghost use Rattle.std.specs.Prelude.{◌≡◌, ◌<◌, ◌≤◌, ℕ, length, true, slice_index, MatchResult};
ghost use Rattle.std.specs.List.{prefix_len};
ghost use Rattle.hys_lex.specs.Bytes.{is_letter, is_name_byte, begins_literal};
ghost use Rattle.hys_lex.specs.Reading.{IsFound, Stands};

use crate::literal::literal_len;
use crate::token::TokenKind;
use crate::{byte, comment, sign, words};

const NAME_LIMIT: usize = 64;

const LITERAL_LIMIT: usize = 32;

/// A piece at the front of a text, by its length.
#[derive(Clone, Copy, Debug, PartialEq, Eq)]
pub enum Found {
    /// A blank or a comment.
    Gap(usize),
    Token(TokenKind, usize),
}

/// Why no lawful piece begins a text.
#[derive(Clone, Copy, Debug, PartialEq, Eq)]
pub enum Cause {
    Byte,
    Comment,
    Long,
}

// How many letters and digits the text begins with.
fn word_len(text: &[u8]) -> usize
    ensures value { result ≡ prefix_len is_name_byte text.now }
    ensures within { result ≤ length text.now }
{
    for (n, b) in text.iter().enumerate() {
        if !byte::is_name_byte(*b) {
            return n;
        }
    }
    text.len()
}

fn word(text: &[u8]) -> Result<Found, Cause>
    requires { is_letter (slice_index text.now 0) ≡ true }
    ensures { MatchResult result (IsFound text.now) (Stands text.now) }
{
    let len = word_len(text);
    match words::keyword(&text[..len]) {
        Some(k) => Ok(Found::Token(TokenKind::Keyword(k), len)),
        None if len > NAME_LIMIT => Err(Cause::Long),
        None => Ok(Found::Token(TokenKind::Name, len)),
    }
}

fn literal(text: &[u8]) -> Result<Found, Cause>
    requires { begins_literal (slice_index text.now 0) ≡ true }
    ensures { MatchResult result (IsFound text.now) (Stands text.now) }
{
    let len = literal_len(text);
    if len == 0 {
        return Err(Cause::Byte);
    }
    if len > LITERAL_LIMIT {
        return Err(Cause::Long);
    }
    Ok(Found::Token(TokenKind::Literal, len))
}

// A comment, or the sign `/`.
fn slash(text: &[u8]) -> Result<Found, Cause>
    requires { slice_index text.now 0 ≡ 47 }
    ensures { MatchResult result (IsFound text.now) (Stands text.now) }
{
    if text.len() > 1 && text[1] == b'*' {
        return match comment::block_len(text) {
            Some(len) => Ok(Found::Gap(len)),
            None => Err(Cause::Comment),
        };
    }
    if text.len() > 1 && text[1] == b'/' {
        return Ok(Found::Gap(comment::line_len(text)));
    }
    Ok(Found::Token(TokenKind::Sign(sign::DIVIDE), 1))
}

/// The piece at the front of a text that is not empty.
pub fn piece(text: &[u8]) -> Result<Found, Cause>
    requires { 0 < length text.now }
    ensures { MatchResult result (IsFound text.now) (Stands text.now) }
{
    let first = text[0];
    if byte::is_blank(first) {
        return Ok(Found::Gap(1));
    }
    if byte::is_letter(first) {
        return word(text);
    }
    if byte::is_digit(first) || first == b'.' {
        return literal(text);
    }
    if first == b'/' {
        return slash(text);
    }
    let (k, len) = words::sign(text);
    if len == 0 {
        return Err(Cause::Byte);
    }
    Ok(Found::Token(TokenKind::Sign(k), len))
}

ghost use Rattle.std.specs.Prelude.{◌≡◌, ℕ, ◌<◌, ◌-◌, ◌^◌, length, IfOk, IfErr, IsErrOf};
ghost use Rattle.hys_lex.specs.Cut.{Cut};
ghost use Rattle.hys_ast.specs.Tree.{Source as Tree};
ghost use Rattle.hys_ast.specs.Seen.{source_of};
ghost use Rattle.hys_ast.specs.Grammar.{IsTreeOf};
ghost use Rattle.hys_parse.specs.Reading.{Gives};
ghost use Rattle.hys_parse.specs.Sections.{whole_at};
ghost use Rattle.hys_parse.specs.Depth.{IsFirstDeep, IsShallow};
ghost use Rattle.hys_parse.specs.Cause.{IsCause};
ghost use Rattle.hys_parse.specs.declared.parser.ParseFault.TheVariants.{Memory};

use crate::deep::first_deep;
use crate::section::source;
use crate::stop::Stop;
use hys_ast::{Lexeme, Source, lexemes};
use hys_lex::{Token, laws};
use std::alloc::{AllocError, Global};

/// Why tokens have no tree. The number is the place of a token among the tokens, or their number
/// where it is the end that is wrong.
#[derive(Clone, Copy, Debug, PartialEq, Eq)]
pub enum ParseFault {
    /// The token is the first whose depth is over 64.
    Deep(u32),
    /// No tree goes on with the token, whatever stands behind it.
    Syntax(u32),
    /// Out of memory.
    Memory,
}

impl From<AllocError> for ParseFault {
    ghost from_gives = { λ _ e. e ≡ Memory };

    fn from(_: AllocError) -> ParseFault {
        ParseFault::Memory
    }
}

// A source with nothing behind it.
#[tactic(auto, unfolding(crate::specs::Sections::whole_at))]
fn whole(alloc: Global, lexemes: &[Lexeme]) -> Result<Source, Stop>
    ensures { Gives source_of result (whole_at lexemes.now) }
{
    let (source, rest) = source(alloc, lexemes.len(), lexemes)?;
    if rest.is_empty() {
        Ok(source)
    } else {
        Err(Stop::Left(rest.len()))
    }
}

// The place of the token that has so many left, itself among them.
fn place(tokens: &[Token], left: usize) -> u32
    requires { length tokens.now < 2 ^ 32 }
    ensures { result ≡ length tokens.now - left }
{
    tokens.len().saturating_sub(left) as u32
}

/// The tree of the tokens of a text, by the grammar.
///
/// # Errors
///
/// `Deep` where a token is deeper than 64, whatever else is wrong; else `Syntax` where no tree
/// derives the tokens, with the first token that no tree goes on with, or their number where it is
/// the end.
pub fn parse(alloc: Global, tokens: &[Token], text: &[u8]) -> Result<Source, ParseFault>
    requires cut { Cut text.now tokens.now }
    requires small { length text.now < 2 ^ 32 - 1 }
    ensures ok { IfOk result (λ s. IsTreeOf text.now tokens.now (source_of s)) }
    ensures only { IfOk result (λ s. (tree : Tree) → IsTreeOf text.now tokens.now tree → tree ≡ source_of s) }
    ensures shallow { IfOk result (λ _. IsShallow tokens.now) }
    ensures deep { (k : ℕ) → IsFirstDeep tokens.now k → IsErrOf result (ParseFault.Deep k) }
    ensures accepts { (t : Tree) → IsTreeOf text.now tokens.now t → IsShallow tokens.now → IfErr result (λ e. e ≡ Memory) }
    ensures err { IfErr result (λ e. IsCause text.now tokens.now e) }
{
    laws::spans(tokens, text);
    if let Some(at) = first_deep(tokens) {
        return Err(ParseFault::Deep(at));
    }
    let lexemes = lexemes(alloc, tokens, text)?;
    match whole(alloc, lexemes.as_slice()) {
        Ok(source) => Ok(source),
        Err(Stop::Left(left)) => Err(ParseFault::Syntax(place(tokens, left))),
        Err(Stop::Memory) => Err(ParseFault::Memory),
    }
}

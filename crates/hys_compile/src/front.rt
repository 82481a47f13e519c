//! The stages from a text to its measured tree, in their order.

ghost use Rattle.std.specs.Prelude.{◌≡◌, ◌<◌, ◌≤◌, ◌^◌, ◌-◌, length, IfOk, IfErr, OnOk};
ghost use Rattle.hys_ast.specs.Places.{place_at};
ghost use Rattle.hys_ast.specs.Seen.{source_of};
ghost use Rattle.hys_lex.specs.Cut.{Cut};
ghost use Rattle.hys_compile.specs.Faults.{fault_at};
ghost use Rattle.hys_compile.specs.Text.{most_bytes, most_tokens, most_nodes, most_nodes_of_one, byte_of, IsLexed, IsCounted, IsParsed, IsMeasured, IsEarlyRefusal};

use crate::fault::{LimitKind, SourceFault};
use crate::number;
use hys_ast::{Source, count_nodes, place_of};
use hys_lex::{LexFault, Token, laws, tokens};
use hys_parse::ParseFault;
use std::alloc::Global;

/// The most bytes of a source.
pub const MOST_BYTES: u64 = 1_048_576;

const MOST_TOKENS: usize = 16_384;

const MOST_NODES: u32 = 4_000;

const MOST_NODES_OF_ONE: u32 = 1_000;

// Refuses the text at a byte of it.
fn refuse_at(text: &[u8], number: u8, byte: u32) -> SourceFault
    requires within { byte ≤ length text.now }
    requires small { length text.now < 2 ^ 32 - 1 }
    ensures { result ≡ fault_at number (place_at text.now byte) }
{
    SourceFault::placed(number, place_of(text, byte))
}

// Refuses a text that has too many bytes.
#[tactic(auto, using(crate::proofs::Causes::by_bytes))]
pub fn size(text: &[u8]) -> Result<(), SourceFault>
    ensures ok { OnOk result (length text.now ≤ most_bytes) }
    ensures err { IfErr result (IsEarlyRefusal text.now) }
{
    if text.len() as u64 > MOST_BYTES {
        return Err(SourceFault::over(LimitKind::Bytes));
    }
    Ok(())
}

// Cuts the text into its tokens.
#[tactic(auto, using(crate::proofs::Causes::by_byte, crate::proofs::Causes::by_comment, crate::proofs::Causes::by_long, crate::proofs::Causes::by_memory))]
pub fn lex(alloc: Global, text: &[u8]) -> Result<Vec<Token>, SourceFault>
    requires { length text.now ≤ most_bytes }
    ensures ok { IfOk result (λ v. IsLexed text.now v.items) }
    ensures err { IfErr result (IsEarlyRefusal text.now) }
{
    match tokens(alloc, text) {
        Ok(found) => Ok(found),
        Err(LexFault::Byte(at)) => Err(refuse_at(text, number::BYTE, at)),
        Err(LexFault::Comment(at)) => Err(refuse_at(text, number::COMMENT, at)),
        Err(LexFault::Long(at)) => Err(refuse_at(text, number::LONG, at)),
        Err(LexFault::Memory) => Err(SourceFault::memory()),
    }
}

// Refuses a text that has too many tokens.
#[tactic(auto, using(crate::proofs::Causes::by_tokens))]
pub fn count(text: &[u8], tokens: &[Token]) -> Result<(), SourceFault>
    requires { IsLexed text.now tokens.now }
    ensures ok { OnOk result (IsCounted text.now tokens.now) }
    ensures err { IfErr result (IsEarlyRefusal text.now) }
{
    if tokens.len() > MOST_TOKENS {
        return Err(SourceFault::over(LimitKind::Tokens));
    }
    Ok(())
}

// Finds the byte at which a token begins, or the end of the text where there is no such token.
fn find_byte(text: &[u8], tokens: &[Token], place: u32) -> u32
    requires cut { Cut text.now tokens.now }
    requires small { length text.now < 2 ^ 32 - 1 }
    ensures place { result ≡ byte_of text.now tokens.now place }
    ensures within { result ≤ length text.now }
{
    laws::spans(tokens, text);
    match tokens.get(place as usize) {
        Some(token) => token.from,
        None => text.len() as u32,
    }
}

// Reads the tokens as a tree.
#[tactic(auto, using(crate::proofs::Causes::by_depth, crate::proofs::Causes::by_syntax, crate::proofs::Causes::by_memory))]
pub fn parse(alloc: Global, text: &[u8], tokens: &[Token]) -> Result<Source, SourceFault>
    requires { IsCounted text.now tokens.now }
    ensures ok { IfOk result (λ s. IsParsed text.now tokens.now (source_of s)) }
    ensures err { IfErr result (IsEarlyRefusal text.now) }
{
    match hys_parse::parse(alloc, tokens, text) {
        Ok(source) => Ok(source),
        Err(ParseFault::Deep(_)) => Err(SourceFault::over(LimitKind::Nesting)),
        Err(ParseFault::Syntax(place)) => Err(refuse_at(
            text,
            number::SYNTAX,
            find_byte(text, tokens, place),
        )),
        Err(ParseFault::Memory) => Err(SourceFault::memory()),
    }
}

// Refuses a tree whose expressions have too many nodes.
#[tactic(auto, using(crate::proofs::Causes::by_nodes, crate::proofs::Causes::by_expression))]
pub fn measure(text: &[u8], tokens: &[Token], source: &Source) -> Result<(), SourceFault>
    requires { IsParsed text.now tokens.now (source_of source.now) }
    ensures ok { OnOk result (IsMeasured text.now tokens.now (source_of source.now)) }
    ensures err { IfErr result (IsEarlyRefusal text.now) }
{
    let count = count_nodes(source);
    if count.total > MOST_NODES {
        return Err(SourceFault::over(LimitKind::Nodes));
    }
    if count.largest > MOST_NODES_OF_ONE {
        return Err(SourceFault::over(LimitKind::Expression));
    }
    Ok(())
}

//! Declared names and the lines that they stand in.

ghost use Rattle.std.specs.Prelude.{◌≡◌, length, map, IfOk, IfSome, IsTrue, ◌<◌, ◌≤◌};
ghost use Rattle.hys_ast.specs.Seen.{decl_of};
ghost use Rattle.hys_parse.specs.Reading.{Gives, Finds};
ghost use Rattle.hys_ast.specs.Grammar as grammar;
ghost use Rattle.hys_parse.specs.Sections as reading;
ghost use Rattle.hys_parse.specs.Views.{turned_decls, read_decls, declaring};

use crate::ahead::{after, expect, split};
use crate::descent::expression;
use crate::repeat::all_turns;
use crate::stop::Stop;
use hys_ast::{Decl, Expr, Kind, Lexeme, Section};
use hys_lex::{TokenKind, keyword, sign};
use std::alloc::{AllocError, Global};

fn has_bounds(section: Section, kind: Kind) -> bool
    ensures { result ≡ grammar.has_bounds section kind }
{
    matches!(
        (section, kind),
        (Section::State | Section::Input, Kind::Real)
    )
}

fn has_value(section: Section) -> bool
    ensures { result ≡ reading.has_value section }
{
    matches!(section, Section::Parameter)
}

fn declared(
    section: Section,
    kind: Kind,
    name: &Lexeme,
    low: Option<Expr>,
    high: Option<Expr>,
    value: Option<Expr>,
) -> Result<Decl, AllocError>
    ensures { IfOk result (λ d. decl_of d ≡ declaring section kind name.now low high value) }
{
    Ok(Decl {
        section,
        kind,
        name: name.text.clone()?,
        place: name.place,
        low,
        high,
        value,
    })
}

#[tactic(auto, unfolding(crate::specs::Sections::plain_at))]
fn plain<'a>(
    section: Section,
    kind: Kind,
    name: &Lexeme,
    tokens: &'a [Lexeme],
) -> Result<(Decl, &'a [Lexeme]), Stop>
    ensures gives { Gives (λ p. (decl_of p.0, p.1.now)) result (reading.plain_at section kind name.now tokens.now) }
    ensures shorter { IfOk result (λ p. length p.1.now ≤ length tokens.now) }
{
    Ok((declared(section, kind, name, None, None, None)?, tokens))
}

// Behind a name and `[`.
#[tactic(auto, unfolding(crate::specs::Sections::bounded_at))]
fn bounded<'a>(
    alloc: Global,
    room: usize,
    section: Section,
    kind: Kind,
    name: &Lexeme,
    tokens: &'a [Lexeme],
) -> Result<(Decl, &'a [Lexeme]), Stop>
    ensures gives { Gives (λ p. (decl_of p.0, p.1.now)) result
        (reading.bounded_at room section kind name.now tokens.now) }
    ensures shorter { IfOk result (λ p. length p.1.now ≤ length tokens.now) }
{
    let (low, rest) = expression(alloc, room, tokens)?;
    let (_, rest) = expect(TokenKind::Sign(sign::COMMA), rest)?;
    let (high, rest) = expression(alloc, room, rest)?;
    let (_, rest) = expect(TokenKind::Sign(sign::CLOSE_BRACKET), rest)?;
    Ok((
        declared(section, kind, name, Some(low), Some(high), None)?,
        rest,
    ))
}

// Behind a name and `=`.
#[tactic(auto, unfolding(crate::specs::Sections::valued_at))]
fn valued<'a>(
    alloc: Global,
    room: usize,
    section: Section,
    kind: Kind,
    name: &Lexeme,
    tokens: &'a [Lexeme],
) -> Result<(Decl, &'a [Lexeme]), Stop>
    ensures gives { Gives (λ p. (decl_of p.0, p.1.now)) result
        (reading.valued_at room section kind name.now tokens.now) }
    ensures shorter { IfOk result (λ p. length p.1.now ≤ length tokens.now) }
{
    let (value, rest) = expression(alloc, room, tokens)?;
    Ok((
        declared(section, kind, name, None, None, Some(value))?,
        rest,
    ))
}

#[tactic(auto, unfolding(crate::specs::Sections::decl_at))]
fn declaration(
    alloc: Global,
    room: usize,
    section: Section,
    kind: Kind,
    tokens: &[Lexeme],
) -> Result<(Decl, &[Lexeme]), Stop>
    ensures gives { Gives (λ p. (decl_of p.0, p.1.now)) result (reading.decl_at room section kind tokens.now) }
    ensures shorter { IfOk result (λ p. length p.1.now < length tokens.now) }
{
    let (name, rest) = expect(TokenKind::Name, tokens)?;
    if has_bounds(section, kind) {
        return match after(TokenKind::Sign(sign::OPEN_BRACKET), rest) {
            None => plain(section, kind, name, rest),
            Some(next) => bounded(alloc, room, section, kind, name, next),
        };
    }
    if has_value(section) {
        return match after(TokenKind::Sign(sign::EQUALS), rest) {
            None => plain(section, kind, name, rest),
            Some(next) => valued(alloc, room, section, kind, name, next),
        };
    }
    plain(section, kind, name, rest)
}

// One name more, and whether another follows.
#[tactic(auto, unfolding(crate::specs::Sections::name_turn))]
fn name_turn(
    alloc: Global,
    room: usize,
    section: Section,
    kind: Kind,
    mut decls: Vec<Decl>,
    tokens: &[Lexeme],
) -> Result<(Vec<Decl>, bool, &[Lexeme]), Stop>
    ensures gives { Gives turned_decls result (reading.name_turn room section kind (map decl_of decls.items) tokens.now) }
    ensures shorter { IfOk result (λ p. length p.2.now < length tokens.now) }
{
    let (found, rest) = declaration(alloc, room, section, kind, tokens)?;
    decls.push(found)?;
    match after(TokenKind::Sign(sign::COMMA), rest) {
        None => Ok((decls, false, rest)),
        Some(next) => Ok((decls, true, next)),
    }
}

fn names(
    alloc: Global,
    room: usize,
    section: Section,
    kind: Kind,
    decls: Vec<Decl>,
    tokens: &[Lexeme],
) -> Result<(Vec<Decl>, &[Lexeme]), Stop>
    ensures gives { Gives read_decls result (reading.names_at room section kind (map decl_of decls.items) tokens.now) }
    ensures shorter { IfOk result (λ p. length p.1.now < length tokens.now) }
{
    all_turns!(name_turn(alloc, room, section, kind), decls, tokens)
}

fn kind_of(kind: TokenKind) -> Option<Kind>
    ensures { result ≡ grammar.kind_of kind }
{
    match kind {
        TokenKind::Keyword(keyword::REAL) => Some(Kind::Real),
        TokenKind::Keyword(keyword::BOOL) => Some(Kind::Bool),
        _ => None,
    }
}

#[tactic(auto, unfolding(crate::specs::Sections::kind_at))]
fn kind_ahead(tokens: &[Lexeme]) -> Option<(Kind, &[Lexeme])>
    ensures finds { Finds (λ p. (p.0, p.1.now)) result (reading.kind_at tokens.now) }
    ensures shorter { IfSome result (λ p. length p.1.now < length tokens.now) }
{
    let (first, rest) = split(tokens)?;
    let kind = kind_of(first.kind)?;
    Some((kind, rest))
}

// The names of one kind, behind REAL or BOOL.
#[tactic(auto, unfolding(crate::specs::Sections::line_at))]
fn line(
    alloc: Global,
    room: usize,
    section: Section,
    kind: Kind,
    decls: Vec<Decl>,
    tokens: &[Lexeme],
) -> Result<(Vec<Decl>, bool, &[Lexeme]), Stop>
    ensures gives { Gives turned_decls result (reading.line_at room section kind (map decl_of decls.items) tokens.now) }
    ensures shorter { IfOk result (λ p. length p.2.now < length tokens.now) }
{
    let (found, rest) = names(alloc, room, section, kind, decls, tokens)?;
    let (_, rest) = expect(TokenKind::Sign(sign::SEMICOLON), rest)?;
    Ok((found, true, rest))
}

#[tactic(auto, unfolding(crate::specs::Sections::line_turn))]
fn line_turn(
    alloc: Global,
    room: usize,
    section: Section,
    decls: Vec<Decl>,
    tokens: &[Lexeme],
) -> Result<(Vec<Decl>, bool, &[Lexeme]), Stop>
    ensures gives { Gives turned_decls result (reading.line_turn room section (map decl_of decls.items) tokens.now) }
    ensures shorter { IfOk result (λ p. length p.2.now ≤ length tokens.now) }
    ensures takes { IfOk result (λ p. IsTrue p.1 → length p.2.now < length tokens.now) }
{
    match kind_ahead(tokens) {
        None => Ok((decls, false, tokens)),
        Some((kind, rest)) => line(alloc, room, section, kind, decls, rest),
    }
}

// The declarations of a section.
pub fn declarations(
    alloc: Global,
    room: usize,
    section: Section,
    decls: Vec<Decl>,
    tokens: &[Lexeme],
) -> Result<(Vec<Decl>, &[Lexeme]), Stop>
    ensures gives { Gives read_decls result (reading.lines_at room section (map decl_of decls.items) tokens.now) }
    ensures shorter { IfOk result (λ p. length p.1.now ≤ length tokens.now) }
{
    all_turns!(line_turn(alloc, room, section), decls, tokens)
}

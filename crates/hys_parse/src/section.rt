//! Sections, the two parts of a source, and the source.

ghost use Rattle.std.specs.Prelude.{◌≡◌, List, [], length, map, IfOk, IfErr, IfSome, MatchOption, IsTrue, ◌<◌, ◌≤◌, ◌++◌, ◌∷◌};
ghost use Rattle.hys_ast.specs.Seen.{decl_of, source_of};
ghost use Rattle.hys_ast.specs.Grammar as grammar;
ghost use Rattle.hys_parse.specs.Reading.{Gives, Finds};
ghost use Rattle.hys_parse.specs.declared.stop.Stop.TheVariants.{Memory};
ghost use Rattle.hys_parse.specs.Sections as reading;
ghost use Rattle.hys_parse.specs.Views.{read_draft, turned_draft};

use crate::ahead::{expect, split};
use crate::declaration::declarations;
use crate::draft::{Draft, Part};
use crate::item::items;
use crate::repeat::all_turns;
use crate::stop::Stop;
use hys_ast::{Decl, Lexeme, Section, Source};
use hys_base::List;
use hys_lex::{TokenKind, keyword, sign};
use std::alloc::Global;

fn interface_section(kind: TokenKind) -> Option<Section>
    ensures { result ≡ grammar.interface_section kind }
{
    match kind {
        TokenKind::Keyword(keyword::STATE) => Some(Section::State),
        TokenKind::Keyword(keyword::INPUT) => Some(Section::Input),
        TokenKind::Keyword(keyword::OUTPUT) => Some(Section::Output),
        TokenKind::Keyword(keyword::PARAMETER) => Some(Section::Parameter),
        _ => None,
    }
}

fn implementation_section(kind: TokenKind) -> Option<Section>
    ensures { result ≡ reading.implementation_section kind }
{
    match kind {
        TokenKind::Keyword(keyword::AUX) => Some(Section::Aux),
        TokenKind::Keyword(keyword::AD) => Some(Section::Ad),
        TokenKind::Keyword(keyword::DA) => Some(Section::Da),
        TokenKind::Keyword(keyword::LOGIC) => Some(Section::Logic),
        TokenKind::Keyword(keyword::LINEAR) => Some(Section::Linear),
        TokenKind::Keyword(keyword::AUTOMATA) => Some(Section::Automata),
        TokenKind::Keyword(keyword::CONTINUOUS) => Some(Section::Continuous),
        TokenKind::Keyword(keyword::OUTPUT) => Some(Section::OutputItem),
        TokenKind::Keyword(keyword::MUST) => Some(Section::Must),
        _ => None,
    }
}

fn section_in(part: Part, kind: TokenKind) -> Option<Section>
    ensures { result ≡ reading.section_in part kind }
{
    match part {
        Part::Interface => interface_section(kind),
        Part::Implementation => implementation_section(kind),
    }
}

#[tactic(auto, unfolding(crate::specs::Sections::section_at))]
fn section_ahead(part: Part, tokens: &[Lexeme]) -> Option<(Section, &[Lexeme])>
    ensures finds { Finds (λ p. (p.0, p.1.now)) result (reading.section_at part tokens.now) }
    ensures shorter { IfSome result (λ p. length p.1.now < length tokens.now) }
{
    let (first, rest) = split(tokens)?;
    let section = section_in(part, first.kind)?;
    Some((section, rest))
}

fn number_of(section: Section) -> u8
    ensures { result ≡ grammar.number_of section }
{
    section as u8
}

fn among(section: Section, seen: &[Section]) -> bool
    ensures { result ≡ grammar.among section seen.now }
{
    match first_of(seen) {
        None => false,
        Some((first, rest)) => number_of(first) == number_of(section) || among(section, rest),
    }
}

fn first_of(seen: &[Section]) -> Option<(Section, &[Section])>
    ensures { MatchOption result (seen.now ≡ []) (λ p. seen.now ≡ p.0 ∷ p.1.now) }
{
    let (first, rest) = seen.split_first()?;
    Some((*first, rest))
}

fn declares(section: Section) -> bool
    ensures { result ≡ reading.declares section }
{
    matches!(
        section,
        Section::State | Section::Input | Section::Output | Section::Parameter | Section::Aux
    )
}

// The section is put behind those that were seen before.
fn noted(mut seen: Vec<Section>, section: Section) -> Result<Vec<Section>, Stop>
    ensures ok { IfOk result (λ v. v.items ≡ seen.items ++ section ∷ []) }
    ensures err { IfErr result (λ e. e ≡ Memory) }
{
    seen.push(section)?;
    Ok(seen)
}

#[tactic(auto, unfolding(crate::specs::Sections::decls_at))]
fn decl_block(
    alloc: Global,
    room: usize,
    section: Section,
    draft: Draft,
    tokens: &[Lexeme],
) -> Result<(Draft, &[Lexeme]), Stop>
    ensures gives { Gives read_draft result (reading.decls_at room section (reading.draft_of draft) tokens.now) }
    ensures shorter { IfOk result (λ p. length p.1.now < length tokens.now) }
{
    let Draft { seen, decls, items } = draft;
    let (decls, rest) = declarations(alloc, room, section, decls, tokens)?;
    let (_, rest) = expect(TokenKind::Sign(sign::CLOSE_BRACE), rest)?;
    let seen = noted(seen, section)?;
    Ok((Draft { seen, decls, items }, rest))
}

#[tactic(auto, unfolding(crate::specs::Sections::items_at))]
fn item_block(
    alloc: Global,
    room: usize,
    section: Section,
    draft: Draft,
    tokens: &[Lexeme],
) -> Result<(Draft, &[Lexeme]), Stop>
    ensures gives { Gives read_draft result (reading.items_at room section (reading.draft_of draft) tokens.now) }
    ensures shorter { IfOk result (λ p. length p.1.now < length tokens.now) }
{
    let Draft {
        seen,
        decls,
        items: held,
    } = draft;
    let (items, rest) = items(alloc, room, section, held, tokens)?;
    let seen = noted(seen, section)?;
    Ok((Draft { seen, decls, items }, rest))
}

#[tactic(auto, unfolding(crate::specs::Sections::block_at))]
fn block(
    alloc: Global,
    room: usize,
    section: Section,
    draft: Draft,
    tokens: &[Lexeme],
) -> Result<(Draft, &[Lexeme]), Stop>
    ensures gives { Gives read_draft result (reading.block_at room section (reading.draft_of draft) tokens.now) }
    ensures shorter { IfOk result (λ p. length p.1.now < length tokens.now) }
{
    let (_, rest) = expect(TokenKind::Sign(sign::OPEN_BRACE), tokens)?;
    if declares(section) {
        decl_block(alloc, room, section, draft, rest)
    } else {
        item_block(alloc, room, section, draft, rest)
    }
}

// One section more, if one follows that was not there before.
#[tactic(auto, unfolding(crate::specs::Sections::section_turn))]
fn section_turn(
    alloc: Global,
    room: usize,
    part: Part,
    draft: Draft,
    tokens: &[Lexeme],
) -> Result<(Draft, bool, &[Lexeme]), Stop>
    ensures gives { Gives turned_draft result (reading.section_turn room part (reading.draft_of draft) tokens.now) }
    ensures shorter { IfOk result (λ p. length p.2.now ≤ length tokens.now) }
    ensures takes { IfOk result (λ p. IsTrue p.1 → length p.2.now < length tokens.now) }
{
    match section_ahead(part, tokens) {
        None => Ok((draft, false, tokens)),
        Some((section, rest)) => {
            if among(section, draft.seen.as_slice()) {
                return Err(Stop::Left(tokens.len()));
            }
            let (draft, rest) = block(alloc, room, section, draft, rest)?;
            Ok((draft, true, rest))
        }
    }
}

fn sections(
    alloc: Global,
    room: usize,
    part: Part,
    draft: Draft,
    tokens: &[Lexeme],
) -> Result<(Draft, &[Lexeme]), Stop>
    ensures gives { Gives read_draft result (reading.sections_at room part (reading.draft_of draft) tokens.now) }
    ensures shorter { IfOk result (λ p. length p.1.now ≤ length tokens.now) }
{
    all_turns!(section_turn(alloc, room, part), draft, tokens)
}

// A part with its braces, behind the declarations that stood before it.
#[tactic(auto, unfolding(crate::specs::Sections::part_at))]
fn part_of(
    alloc: Global,
    room: usize,
    part: Part,
    decls: Vec<Decl>,
    tokens: &[Lexeme],
) -> Result<(Draft, &[Lexeme]), Stop>
    ensures gives { Gives read_draft result (reading.part_at room part (map decl_of decls.items) tokens.now) }
    ensures shorter { IfOk result (λ p. length p.1.now < length tokens.now) }
{
    let (_, rest) = expect(TokenKind::Sign(sign::OPEN_BRACE), tokens)?;
    let draft = Draft {
        seen: Vec::new(alloc),
        decls,
        items: Vec::new(alloc),
    };
    let (draft, rest) = sections(alloc, room, part, draft, rest)?;
    let (_, rest) = expect(TokenKind::Sign(sign::CLOSE_BRACE), rest)?;
    Ok((draft, rest))
}

/// A source at the front of the lexemes, and what stands behind it.
#[tactic(auto, unfolding(crate::specs::Sections::source_at))]
pub fn source(alloc: Global, room: usize, tokens: &[Lexeme]) -> Result<(Source, &[Lexeme]), Stop>
    ensures gives { Gives (λ p. (source_of p.0, p.1.now)) result (reading.source_at room tokens.now) }
    ensures shorter { IfOk result (λ p. length p.1.now < length tokens.now) }
{
    let (_, rest) = expect(TokenKind::Keyword(keyword::SYSTEM), tokens)?;
    let (name, rest) = expect(TokenKind::Name, rest)?;
    let (_, rest) = expect(TokenKind::Sign(sign::OPEN_BRACE), rest)?;
    let (_, rest) = expect(TokenKind::Keyword(keyword::INTERFACE), rest)?;
    let (interface, rest) = part_of(alloc, room, Part::Interface, Vec::new(alloc), rest)?;
    let Draft { decls, .. } = interface;
    let (_, rest) = expect(TokenKind::Keyword(keyword::IMPLEMENTATION), rest)?;
    let (whole, rest) = part_of(alloc, room, Part::Implementation, decls, rest)?;
    let Draft { decls, items, .. } = whole;
    let (_, rest) = expect(TokenKind::Sign(sign::CLOSE_BRACE), rest)?;
    let source = Source {
        system: name.text.clone()?,
        decls: List::of(decls),
        items: List::of(items),
    };
    Ok((source, rest))
}

//! Items and choices.

ghost use Rattle.std.specs.Prelude.{length, map, IfOk, ◌<◌};
ghost use Rattle.hys_ast.specs.Seen.{tree_of, item_of};
ghost use Rattle.hys_parse.specs.Reading.{Gives};
ghost use Rattle.hys_parse.specs.Sections as reading;
ghost use Rattle.hys_parse.specs.Views.{read_shape, read_items, turned_items};

use crate::ahead::{after, expect, split};
use crate::descent::expression;
use crate::repeat::all_turns;
use crate::stop::Stop;
use hys_ast::{Expr, Item, Lexeme, Section, Shape};
use hys_lex::{TokenKind, keyword, sign};
use std::alloc::Global;

#[tactic(auto, unfolding(crate::specs::Sections::ite_at))]
fn ite(alloc: Global, room: usize, tokens: &[Lexeme]) -> Result<(Shape, &[Lexeme]), Stop>
    ensures gives { Gives read_shape result (reading.ite_at room tokens.now) }
    ensures shorter { IfOk result (λ p. length p.1.now < length tokens.now) }
{
    let (_, rest) = expect(TokenKind::Keyword(keyword::IF), tokens)?;
    let (when, rest) = expression(alloc, room, rest)?;
    let (_, rest) = expect(TokenKind::Keyword(keyword::THEN), rest)?;
    let (hit, rest) = expression(alloc, room, rest)?;
    match after(TokenKind::Keyword(keyword::ELSE), rest) {
        None => Ok((Shape::Choice(when, hit, None), rest)),
        Some(next) => {
            let (other, rest) = expression(alloc, room, next)?;
            Ok((Shape::Choice(when, hit, Some(other)), rest))
        }
    }
}

#[tactic(auto, unfolding(crate::specs::Sections::braced_at))]
fn braced(alloc: Global, room: usize, tokens: &[Lexeme]) -> Result<(Shape, &[Lexeme]), Stop>
    ensures gives { Gives read_shape result (reading.braced_at room tokens.now) }
    ensures shorter { IfOk result (λ p. length p.1.now < length tokens.now) }
{
    let (shape, rest) = ite(alloc, room, tokens)?;
    let (_, rest) = expect(TokenKind::Sign(sign::CLOSE_BRACE), rest)?;
    Ok((shape, rest))
}

#[tactic(auto, unfolding(crate::specs::Sections::choice_at))]
fn choice(alloc: Global, room: usize, tokens: &[Lexeme]) -> Result<(Shape, &[Lexeme]), Stop>
    ensures gives { Gives read_shape result (reading.choice_at room tokens.now) }
    ensures shorter { IfOk result (λ p. length p.1.now < length tokens.now) }
{
    match after(TokenKind::Sign(sign::OPEN_BRACE), tokens) {
        None => ite(alloc, room, tokens),
        Some(next) => braced(alloc, room, next),
    }
}

#[tactic(auto, unfolding(crate::specs::Sections::formula_at))]
fn formula(alloc: Global, room: usize, tokens: &[Lexeme]) -> Result<(Shape, &[Lexeme]), Stop>
    ensures gives { Gives read_shape result (reading.formula_at room tokens.now) }
    ensures shorter { IfOk result (λ p. length p.1.now < length tokens.now) }
{
    let (whole, rest) = expression(alloc, room, tokens)?;
    Ok((Shape::Plain(whole), rest))
}

// Behind a comparison and `[`.
#[tactic(auto, unfolding(crate::specs::Sections::tolerance_at))]
fn tolerance(
    alloc: Global,
    room: usize,
    comparison: Expr,
    tokens: &[Lexeme],
) -> Result<(Shape, &[Lexeme]), Stop>
    ensures gives { Gives read_shape result (reading.tolerance_at room (tree_of comparison) tokens.now) }
    ensures shorter { IfOk result (λ p. length p.1.now < length tokens.now) }
{
    let (whole, rest) = expression(alloc, room, tokens)?;
    let (_, rest) = expect(TokenKind::Sign(sign::CLOSE_BRACKET), rest)?;
    Ok((Shape::Wide(comparison, whole), rest))
}

#[tactic(auto, unfolding(crate::specs::Sections::guard_at))]
fn guard(alloc: Global, room: usize, tokens: &[Lexeme]) -> Result<(Shape, &[Lexeme]), Stop>
    ensures gives { Gives read_shape result (reading.guard_at room tokens.now) }
    ensures shorter { IfOk result (λ p. length p.1.now < length tokens.now) }
{
    let (comparison, rest) = expression(alloc, room, tokens)?;
    match after(TokenKind::Sign(sign::OPEN_BRACKET), rest) {
        None => Ok((Shape::Plain(comparison), rest)),
        Some(next) => tolerance(alloc, room, comparison, next),
    }
}

// The right side of a named item.
fn shape(
    alloc: Global,
    room: usize,
    section: Section,
    tokens: &[Lexeme],
) -> Result<(Shape, &[Lexeme]), Stop>
    ensures gives { Gives read_shape result (reading.shape_at room section tokens.now) }
    ensures shorter { IfOk result (λ p. length p.1.now < length tokens.now) }
{
    match section {
        Section::Ad => guard(alloc, room, tokens),
        Section::Da => choice(alloc, room, tokens),
        _ => formula(alloc, room, tokens),
    }
}

#[tactic(auto, unfolding(crate::specs::Sections::named_at))]
fn named(
    alloc: Global,
    room: usize,
    section: Section,
    tokens: &[Lexeme],
) -> Result<(Item, &[Lexeme]), Stop>
    ensures gives { Gives (λ p. (item_of p.0, p.1.now)) result (reading.named_at room section tokens.now) }
    ensures shorter { IfOk result (λ p. length p.1.now < length tokens.now) }
{
    let (name, rest) = expect(TokenKind::Name, tokens)?;
    let (_, rest) = expect(TokenKind::Sign(sign::EQUALS), rest)?;
    let (shape, rest) = shape(alloc, room, section, rest)?;
    let (_, rest) = expect(TokenKind::Sign(sign::SEMICOLON), rest)?;
    let item = Item {
        section,
        name: Some(name.text.clone()?),
        place: name.place,
        shape,
    };
    Ok((item, rest))
}

#[tactic(auto, unfolding(crate::specs::Sections::must_at))]
fn must(alloc: Global, room: usize, tokens: &[Lexeme]) -> Result<(Item, &[Lexeme]), Stop>
    ensures gives { Gives (λ p. (item_of p.0, p.1.now)) result (reading.must_at room tokens.now) }
    ensures shorter { IfOk result (λ p. length p.1.now < length tokens.now) }
{
    let Some((first, _)) = split(tokens) else {
        return Err(Stop::Left(0));
    };
    let (whole, rest) = expression(alloc, room, tokens)?;
    let (_, rest) = expect(TokenKind::Sign(sign::SEMICOLON), rest)?;
    let item = Item {
        section: Section::Must,
        name: None,
        place: first.place,
        shape: Shape::Plain(whole),
    };
    Ok((item, rest))
}

fn item(
    alloc: Global,
    room: usize,
    section: Section,
    tokens: &[Lexeme],
) -> Result<(Item, &[Lexeme]), Stop>
    ensures gives { Gives (λ p. (item_of p.0, p.1.now)) result (reading.item_at room section tokens.now) }
    ensures shorter { IfOk result (λ p. length p.1.now < length tokens.now) }
{
    match section {
        Section::Must => must(alloc, room, tokens),
        _ => named(alloc, room, section, tokens),
    }
}

// One item more, or the brace that ends the section.
#[tactic(auto, unfolding(crate::specs::Sections::item_turn))]
fn item_turn(
    alloc: Global,
    room: usize,
    section: Section,
    mut items: Vec<Item>,
    tokens: &[Lexeme],
) -> Result<(Vec<Item>, bool, &[Lexeme]), Stop>
    ensures gives { Gives turned_items result (reading.item_turn room section (map item_of items.items) tokens.now) }
    ensures shorter { IfOk result (λ p. length p.2.now < length tokens.now) }
{
    match after(TokenKind::Sign(sign::CLOSE_BRACE), tokens) {
        Some(rest) => Ok((items, false, rest)),
        None => {
            let (found, rest) = item(alloc, room, section, tokens)?;
            items.push(found)?;
            Ok((items, true, rest))
        }
    }
}

// The items of a section, up to its brace.
pub fn items(
    alloc: Global,
    room: usize,
    section: Section,
    items: Vec<Item>,
    tokens: &[Lexeme],
) -> Result<(Vec<Item>, &[Lexeme]), Stop>
    ensures gives { Gives read_items result (reading.item_turns room section (map item_of items.items) tokens.now) }
    ensures shorter { IfOk result (λ p. length p.1.now < length tokens.now) }
{
    all_turns!(item_turn(alloc, room, section), items, tokens)
}

ghost use Rattle.std.specs.Prelude.{◌≡◌, suc, length, IfOk, MatchResult, ◌<◌};
ghost use Rattle.hys_parse.specs.declared.stop.Stop.TheVariants.{Left};
ghost use Rattle.hys_parse.specs.Reading.{Gives, cast_at, group_at, atom_at, signed_at, negation_at, operand_at, binary_at, nested};
ghost use Rattle.hys_parse.specs.Sections.{expr_at};
ghost use Rattle.hys_parse.specs.Views.{read_tree};

use crate::ahead::{after, expect, joint, not_ahead, sign_ahead, split, truth};
use crate::stop::Stop;
use hys_ast::{Expr, Level, Lexeme, UnaryOp};
use hys_lex::{TokenKind, keyword, sign};
use std::alloc::Global;

// One parenthesis or sign less may stand inside.
fn deeper(room: usize, tokens: &[Lexeme]) -> Result<usize, Stop>
    ensures { MatchResult result (λ left. room ≡ suc left) (λ e. (room ≡ 0) × (e ≡ Left (length tokens.now))) }
{
    match room.checked_sub(1) {
        Some(left) => Ok(left),
        None => Err(Stop::Left(tokens.len())),
    }
}

#[tactic(auto, unfolding(crate::specs::Reading::cast_at))]
fn cast(tokens: &[Lexeme]) -> Result<(Expr, &[Lexeme]), Stop>
    ensures gives { Gives read_tree result (cast_at tokens.now) }
    ensures shorter { IfOk result (λ p. length p.1.now < length tokens.now) }
{
    let (name, rest) = expect(TokenKind::Name, tokens)?;
    let (_, rest) = expect(TokenKind::Sign(sign::CLOSE_PARENTHESIS), rest)?;
    Ok((Expr::Cast(name.text.clone()?, name.place), rest))
}

#[cycle(grammar)]
#[tactic(auto, unfolding(crate::specs::Reading::group_at, crate::specs::Reading::whole_at, crate::specs::Reading::nested, crate::specs::Reading::reader))]
fn group(alloc: Global, room: usize, tokens: &[Lexeme]) -> Result<(Expr, &[Lexeme]), Stop>
    ensures gives { Gives read_tree result (group_at (nested room) tokens.now) }
    ensures shorter { IfOk result (λ p. length p.1.now < length tokens.now) }
{
    if let Some(rest) = after(TokenKind::Keyword(keyword::REAL), tokens) {
        return cast(rest);
    }
    let room = deeper(room, tokens)?;
    let (inner, rest) = binary(alloc, room, Level::Arrow, tokens)?;
    let (_, rest) = expect(TokenKind::Sign(sign::CLOSE_PARENTHESIS), rest)?;
    Ok((inner, rest))
}

#[cycle(grammar)]
#[tactic(auto, unfolding(crate::specs::Reading::atom_at))]
fn atom(alloc: Global, room: usize, tokens: &[Lexeme]) -> Result<(Expr, &[Lexeme]), Stop>
    ensures gives { Gives read_tree result (atom_at (nested room) tokens.now) }
    ensures shorter { IfOk result (λ p. length p.1.now < length tokens.now) }
{
    let Some((first, rest)) = split(tokens) else {
        return Err(Stop::Left(0));
    };
    match first.kind {
        TokenKind::Literal => Ok((Expr::Number(first.text.clone()?, first.place), rest)),
        TokenKind::Name => Ok((Expr::Name(first.text.clone()?, first.place), rest)),
        TokenKind::Keyword(word) => match truth(word) {
            Some(value) => Ok((Expr::Truth(value, first.place), rest)),
            None => Err(Stop::Left(tokens.len())),
        },
        TokenKind::Sign(mark) => {
            if mark == sign::OPEN_PARENTHESIS {
                group(alloc, room, rest)
            } else {
                Err(Stop::Left(tokens.len()))
            }
        }
    }
}

#[cycle(grammar)]
#[tactic(auto, unfolding(crate::specs::Reading::signed_at, crate::specs::Reading::nested, crate::specs::Reading::reader))]
fn signed(alloc: Global, room: usize, tokens: &[Lexeme]) -> Result<(Expr, &[Lexeme]), Stop>
    ensures gives { Gives read_tree result (signed_at (nested room) tokens.now) }
    ensures shorter { IfOk result (λ p. length p.1.now < length tokens.now) }
{
    match sign_ahead(tokens) {
        None => atom(alloc, room, tokens),
        Some((op, place, rest)) => {
            let room = deeper(room, rest)?;
            let (inner, rest) = signed(alloc, room, rest)?;
            Ok((Expr::Unary(op, Box::new(alloc, inner)?, place), rest))
        }
    }
}

#[cycle(grammar)]
#[tactic(auto, unfolding(crate::specs::Reading::negation_at, crate::specs::Reading::compare_at, crate::specs::Reading::operand_at, crate::specs::Reading::nested, crate::specs::Reading::reader))]
fn negation(alloc: Global, room: usize, tokens: &[Lexeme]) -> Result<(Expr, &[Lexeme]), Stop>
    ensures gives { Gives read_tree result (negation_at (nested room) tokens.now) }
    ensures shorter { IfOk result (λ p. length p.1.now < length tokens.now) }
{
    match not_ahead(tokens) {
        None => binary(alloc, room, Level::Compare, tokens),
        Some((place, rest)) => {
            let room = deeper(room, rest)?;
            let (inner, rest) = negation(alloc, room, rest)?;
            Ok((
                Expr::Unary(UnaryOp::Not, Box::new(alloc, inner)?, place),
                rest,
            ))
        }
    }
}

#[cycle(grammar)]
#[tactic(auto, unfolding(crate::specs::Reading::operand_at))]
fn operand(
    alloc: Global,
    room: usize,
    level: Level,
    tokens: &[Lexeme],
) -> Result<(Expr, &[Lexeme]), Stop>
    ensures gives { Gives read_tree result (operand_at (nested room) level tokens.now) }
    ensures shorter { IfOk result (λ p. length p.1.now < length tokens.now) }
{
    match level {
        Level::Arrow => binary(alloc, room, Level::Or, tokens),
        Level::Or => binary(alloc, room, Level::And, tokens),
        Level::And => negation(alloc, room, tokens),
        Level::Compare => binary(alloc, room, Level::Sum, tokens),
        Level::Sum => binary(alloc, room, Level::Term, tokens),
        Level::Term => signed(alloc, room, tokens),
    }
}

#[cycle(grammar)]
fn binary(
    alloc: Global,
    room: usize,
    level: Level,
    tokens: &[Lexeme],
) -> Result<(Expr, &[Lexeme]), Stop>
    ensures gives { Gives read_tree result (binary_at level (operand_at (nested room) level) tokens.now) }
    ensures shorter { IfOk result (λ p. length p.1.now < length tokens.now) }
{
    let (mut left, mut rest) = match operand(alloc, room, level, tokens) {
        Ok(read) => read,
        Err(stop) => return Err(stop),
    };
    while let Some((op, place, next)) = joint(level, rest) {
        match operand(alloc, room, level, next) {
            Err(stop) => return Err(stop),
            Ok((right, more)) => {
                left = Expr::Binary(op, Box::new(alloc, left)?, Box::new(alloc, right)?, place);
                rest = more;
            }
        }
        if !level.groups() {
            return Ok((left, rest));
        }
    }
    Ok((left, rest))
}

// An expression at the front of the lexemes, and what stands behind it.
#[tactic(auto, unfolding(crate::specs::Sections::expr_at))]
pub fn expression(alloc: Global, room: usize, tokens: &[Lexeme]) -> Result<(Expr, &[Lexeme]), Stop>
    ensures gives { Gives read_tree result (expr_at room tokens.now) }
    ensures shorter { IfOk result (λ p. length p.1.now < length tokens.now) }
{
    binary(alloc, room, Level::Arrow, tokens)
}

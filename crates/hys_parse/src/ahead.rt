//! What stands at the front of lexemes.

ghost use Rattle.std.specs.Prelude.{◌≡◌, List, [], ◌∷◌, length, IfOk, IfSome, MatchOption, ◌<◌};
ghost use Rattle.hys_ast.specs.Operators.{binary_of, is_not, sign_of};
ghost use Rattle.hys_ast.specs.Grammar.{truth_of};
ghost use Rattle.hys_parse.specs.Reading.{Gives, Finds, same_kind, same_level, expect, after, joint, not_at, sign_at};

use crate::stop::Stop;
use hys_ast::{BinaryOp, Level, Lexeme, Place, UnaryOp};
use hys_lex::{TokenKind, keyword, sign};

fn is_kind(kind: TokenKind, wanted: TokenKind) -> bool
    ensures { result ≡ same_kind kind wanted }
{
    match (kind, wanted) {
        (TokenKind::Name, TokenKind::Name) | (TokenKind::Literal, TokenKind::Literal) => true,
        (TokenKind::Keyword(a), TokenKind::Keyword(b)) | (TokenKind::Sign(a), TokenKind::Sign(b)) =>
            a == b,
        _ => false,
    }
}

fn is_level(level: Level, wanted: Level) -> bool
    ensures { result ≡ same_level level wanted }
{
    matches!(
        (level, wanted),
        (Level::Arrow, Level::Arrow)
            | (Level::Or, Level::Or)
            | (Level::And, Level::And)
            | (Level::Compare, Level::Compare)
            | (Level::Sum, Level::Sum)
            | (Level::Term, Level::Term)
    )
}

// The first lexeme, and what stands behind it.
pub fn split(tokens: &[Lexeme]) -> Option<(&Lexeme, &[Lexeme])>
    ensures { MatchOption result (tokens.now ≡ []) (λ p. tokens.now ≡ p.0.now ∷ p.1.now) }
{
    tokens.split_first()
}

// The first lexeme, which must be of this kind.
#[tactic(auto, unfolding(crate::specs::Reading::expect))]
pub fn expect(kind: TokenKind, tokens: &[Lexeme]) -> Result<(&Lexeme, &[Lexeme]), Stop>
    ensures gives { Gives (λ p. (p.0.now, p.1.now)) result (expect kind tokens.now) }
    ensures shorter { IfOk result (λ p. length p.1.now < length tokens.now) }
{
    match split(tokens) {
        None => Err(Stop::Left(0)),
        Some((first, rest)) => {
            if is_kind(first.kind, kind) {
                Ok((first, rest))
            } else {
                Err(Stop::Left(tokens.len()))
            }
        }
    }
}

// What stands behind the first lexeme, where it is of this kind.
#[tactic(auto, unfolding(crate::specs::Reading::after))]
pub fn after(kind: TokenKind, tokens: &[Lexeme]) -> Option<&[Lexeme]>
    ensures finds { Finds (λ rest. rest.now) result (after kind tokens.now) }
    ensures shorter { IfSome result (λ rest. length rest.now < length tokens.now) }
{
    let (first, rest) = split(tokens)?;
    if is_kind(first.kind, kind) {
        Some(rest)
    } else {
        None
    }
}

fn binary(kind: TokenKind) -> Option<BinaryOp>
    ensures { result ≡ binary_of kind }
{
    match kind {
        TokenKind::Sign(sign::AT_MOST) => Some(BinaryOp::Most),
        TokenKind::Sign(sign::AT_LEAST) => Some(BinaryOp::Least),
        TokenKind::Sign(sign::EQUAL_TO) => Some(BinaryOp::Equal),
        TokenKind::Sign(sign::PLUS) => Some(BinaryOp::Add),
        TokenKind::Sign(sign::MINUS) => Some(BinaryOp::Sub),
        TokenKind::Sign(sign::TIMES) => Some(BinaryOp::Mul),
        TokenKind::Sign(sign::DIVIDE) => Some(BinaryOp::Div),
        TokenKind::Sign(sign::AND) => Some(BinaryOp::And),
        TokenKind::Sign(sign::AND_AND) => Some(BinaryOp::And),
        TokenKind::Sign(sign::OR) => Some(BinaryOp::Or),
        TokenKind::Sign(sign::OR_OR) => Some(BinaryOp::Or),
        TokenKind::Sign(sign::THEN) => Some(BinaryOp::Then),
        TokenKind::Sign(sign::FROM) => Some(BinaryOp::From),
        TokenKind::Sign(sign::IFF) => Some(BinaryOp::Iff),
        _ => None,
    }
}

fn says_not(kind: TokenKind) -> bool
    ensures { result ≡ is_not kind }
{
    matches!(kind, TokenKind::Sign(sign::TILDE | sign::BANG))
}

fn unary(kind: TokenKind) -> Option<UnaryOp>
    ensures { result ≡ sign_of kind }
{
    match kind {
        TokenKind::Sign(sign::MINUS) => Some(UnaryOp::Neg),
        TokenKind::Sign(sign::PLUS) => Some(UnaryOp::Plus),
        _ => None,
    }
}

pub fn truth(word: u8) -> Option<bool>
    ensures { result ≡ truth_of word }
{
    match word {
        keyword::TRUE | keyword::TRUE_SMALL => Some(true),
        keyword::FALSE | keyword::FALSE_SMALL => Some(false),
        _ => None,
    }
}

// The operator of this level at the front, its place, and what stands behind it.
#[tactic(auto, unfolding(crate::specs::Reading::joint))]
pub fn joint(level: Level, tokens: &[Lexeme]) -> Option<(BinaryOp, Place, &[Lexeme])>
    ensures finds { Finds (λ p. (p.0, p.1, p.2.now)) result (joint level tokens.now) }
    ensures shorter { IfSome result (λ p. length p.2.now < length tokens.now) }
{
    let (first, rest) = split(tokens)?;
    let op = binary(first.kind)?;
    if is_level(op.level(), level) {
        Some((op, first.place, rest))
    } else {
        None
    }
}

// The place of a `~` or `!` at the front, and what stands behind it.
#[tactic(auto, unfolding(crate::specs::Reading::not_at))]
pub fn not_ahead(tokens: &[Lexeme]) -> Option<(Place, &[Lexeme])>
    ensures finds { Finds (λ p. (p.0, p.1.now)) result (not_at tokens.now) }
    ensures shorter { IfSome result (λ p. length p.1.now < length tokens.now) }
{
    let (first, rest) = split(tokens)?;
    if says_not(first.kind) {
        Some((first.place, rest))
    } else {
        None
    }
}

// The sign of a number at the front, its place, and what stands behind it.
#[tactic(auto, unfolding(crate::specs::Reading::sign_at))]
pub fn sign_ahead(tokens: &[Lexeme]) -> Option<(UnaryOp, Place, &[Lexeme])>
    ensures finds { Finds (λ p. (p.0, p.1, p.2.now)) result (sign_at tokens.now) }
    ensures shorter { IfSome result (λ p. length p.2.now < length tokens.now) }
{
    let (first, rest) = split(tokens)?;
    let op = unary(first.kind)?;
    Some((op, first.place, rest))
}

ghost use Rattle.std.specs.Prelude.{◌≡◌, ◌≤◌, true, IfOk};
ghost use Rattle.hys_ast.specs.Seen.{tree_of, trees_of};
ghost use Rattle.hys_ast.specs.Nodes.{nodes};
ghost use Rattle.hys_ast.specs.Printed.{Writes, truth_word, unary_mark, binary_mark, strength_at, unary_strength, strength, left_strength, right_strength, open_words, close_words, cast_words, expr_words, operand_words, is_loose};
ghost use Rattle.hys_ast.specs.Spines.{behind_left, is_single, Within, WritesSpine};

use crate::level::Level;
use crate::tree::{BinaryOp, Expr, UnaryOp};
use crate::write::{put, put_text};
use hys_base::Text;
use std::alloc::{AllocError, Global};

// Strengths: how tightly an expression holds together.
fn level_strength(level: Level) -> u8
    ensures { result ≡ strength_at level }
{
    match level {
        Level::Arrow => 0,
        Level::Or => 1,
        Level::And => 2,
        Level::Compare => 4,
        Level::Sum => 5,
        Level::Term => 6,
    }
}

fn prefix_strength(op: UnaryOp) -> u8
    ensures { result ≡ unary_strength op }
{
    match op {
        UnaryOp::Not => 3,
        UnaryOp::Neg | UnaryOp::Plus => 7,
    }
}

fn strength(expr: &Expr) -> u8
    ensures { result ≡ strength (tree_of expr.now) }
{
    match expr {
        Expr::Number(_, _) | Expr::Name(_, _) | Expr::Truth(_, _) | Expr::Cast(_, _) => 8,
        Expr::Unary(op, _, _) => prefix_strength(*op),
        Expr::Binary(op, _, _, _) => level_strength(op.level()),
    }
}

fn left_strength(level: Level) -> u8
    ensures { result ≡ left_strength level }
{
    if level.groups() {
        level_strength(level)
    } else {
        right_strength(level)
    }
}

fn right_strength(level: Level) -> u8
    ensures { result ≡ right_strength level }
{
    match level {
        Level::Arrow => 1,
        Level::Or => 2,
        Level::And => 3,
        Level::Compare => 5,
        Level::Sum => 6,
        Level::Term => 7,
    }
}

fn prefix(op: UnaryOp) -> &'static [u8]
    ensures { result.now ≡ (unary_mark op).bytes }
{
    match op {
        UnaryOp::Not => b"~",
        UnaryOp::Neg => b"-",
        UnaryOp::Plus => b"+",
    }
}

fn infix(op: BinaryOp) -> &'static [u8]
    ensures { result.now ≡ (binary_mark op).bytes }
{
    match op {
        BinaryOp::Add => b"+",
        BinaryOp::Sub => b"-",
        BinaryOp::Mul => b"*",
        BinaryOp::Div => b"/",
        BinaryOp::And => b"&",
        BinaryOp::Or => b"|",
        BinaryOp::Iff => b"<->",
        BinaryOp::Then => b"->",
        BinaryOp::From => b"<-",
        BinaryOp::Most => b"<=",
        BinaryOp::Least => b">=",
        BinaryOp::Equal => b"==",
    }
}

fn truth(value: bool) -> &'static [u8]
    ensures { result.now ≡ (truth_word value).bytes }
{
    if value { b"TRUE" } else { b"FALSE" }
}

fn cast(out: &mut Vec<u8>, name: &Text) -> Result<(), AllocError>
    ensures { IfOk result (λ _. Writes out.old.items out.new.items (cast_words name.now)) }
{
    put(out, b"(")?;
    put(out, b"REAL")?;
    put_text(out, name)?;
    put(out, b")")
}

// Whether an operand that has to hold together so tightly needs parentheses.
fn is_loose(least: u8, expr: &Expr) -> bool
    ensures { result ≡ is_loose least (tree_of expr.now) }
{
    strength(expr) < least
}

fn begin_group(out: &mut Vec<u8>, needed: bool) -> Result<(), AllocError>
    ensures { IfOk result (λ _. Writes out.old.items out.new.items (open_words needed)) }
{
    if needed { put(out, b"(") } else { Ok(()) }
}

fn end_group(out: &mut Vec<u8>, needed: bool) -> Result<(), AllocError>
    ensures { IfOk result (λ _. Writes out.old.items out.new.items (close_words needed)) }
{
    if needed { put(out, b")") } else { Ok(()) }
}

// Left operands down to the first that has no operator, with the operators that they stand in: a
// chain may be long, and a walk along it takes no stack.
fn left_spine<'a>(
    alloc: Global,
    out: &mut Vec<u8>,
    expr: &'a Expr,
) -> Result<(Vec<&'a Expr>, &'a Expr), AllocError>
    ensures written { IfOk result (λ p. WritesSpine out.old.items out.new.items expr.now p.1.now p.0.items) }
    ensures single { IfOk result (λ p. is_single (tree_of p.1.now) ≡ true) }
    ensures smaller { IfOk result (λ p. nodes (tree_of p.1.now) ≤ nodes (tree_of expr.now)) }
    ensures within { IfOk result (λ p. Within (nodes (tree_of expr.now)) (trees_of p.0.items)) }
{
    let mut spine = Vec::new(alloc);
    let mut first = expr;
    while let Expr::Binary(op, left, _, _) = first {
        begin_group(out, is_loose(left_strength(op.level()), left))?;
        spine.push(first)?;
        first = left;
    }
    Ok((spine, first))
}

// An operand that has to hold together so tightly.
#[cycle(expressions)]
fn operand(alloc: Global, out: &mut Vec<u8>, least: u8, expr: &Expr) -> Result<(), AllocError>
    ensures { IfOk result (λ _. Writes out.old.items out.new.items (operand_words least (tree_of expr.now))) }
{
    let needed = is_loose(least, expr);
    begin_group(out, needed)?;
    expression(alloc, out, expr)?;
    end_group(out, needed)
}

// An expression that is no operator between two operands.
#[cycle(expressions)]
fn single(alloc: Global, out: &mut Vec<u8>, expr: &Expr) -> Result<(), AllocError>
    requires { is_single (tree_of expr.now) ≡ true }
    ensures { IfOk result (λ _. Writes out.old.items out.new.items (expr_words (tree_of expr.now))) }
{
    match expr {
        Expr::Number(text, _) => put_text(out, text),
        Expr::Name(name, _) => put_text(out, name),
        Expr::Truth(value, _) => put(out, truth(*value)),
        Expr::Cast(name, _) => cast(out, name),
        Expr::Unary(op, inner, _) => {
            put(out, prefix(*op))?;
            operand(alloc, out, prefix_strength(*op), inner)
        }
        Expr::Binary(_, _, _, _) => unreachable!(),
    }
}

// What follows the left operand.
#[cycle(expressions)]
fn right_side(alloc: Global, out: &mut Vec<u8>, expr: &Expr) -> Result<(), AllocError>
    ensures { IfOk result (λ _. Writes out.old.items out.new.items (behind_left (tree_of expr.now))) }
{
    match expr {
        Expr::Binary(op, left, right, _) => {
            end_group(out, is_loose(left_strength(op.level()), left))?;
            put(out, infix(*op))?;
            operand(alloc, out, right_strength(op.level()), right)
        }
        _ => Ok(()),
    }
}

/// Appends an expression.
#[cycle(expressions)]
pub fn expression(alloc: Global, out: &mut Vec<u8>, expr: &Expr) -> Result<(), AllocError>
    ensures { IfOk result (λ _. Writes out.old.items out.new.items (expr_words (tree_of expr.now))) }
{
    let (mut spine, first) = left_spine(alloc, out, expr)?;
    single(alloc, out, first)?;
    while let Some(outer) = spine.pop() {
        right_side(alloc, out, outer)?;
    }
    Ok(())
}

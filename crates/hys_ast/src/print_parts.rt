ghost use Rattle.std.specs.Prelude.{◌≡◌, Some, IfOk};
ghost use Rattle.hys_ast.specs.Seen.{tree_of, maybe_tree_of, decl_of, shape_of, item_of};
ghost use Rattle.hys_ast.specs.Tree.{Wide};
ghost use Rattle.hys_ast.specs.Printed.{Writes, kind_word, value_words, decl_words, else_words, shape_words, target_words, item_words, bracket_words, written_bounds, tolerant_words};

use crate::print_expr::expression;
use crate::source::{Decl, Item, Kind, Shape};
use crate::tree::Expr;
use crate::write::{put, put_text};
use hys_base::Text;
use std::alloc::{AllocError, Global};

fn kind(kind: Kind) -> &'static [u8]
    ensures { result.now ≡ (kind_word kind).bytes }
{
    match kind {
        Kind::Real => b"REAL",
        Kind::Bool => b"BOOL",
    }
}

fn bracketed(alloc: Global, out: &mut Vec<u8>, low: &Expr, high: &Expr) -> Result<(), AllocError>
    ensures { IfOk result (λ _. Writes out.old.items out.new.items (bracket_words (tree_of low.now) (tree_of high.now))) }
{
    put(out, b"[")?;
    expression(alloc, out, low)?;
    put(out, b",")?;
    expression(alloc, out, high)?;
    put(out, b"]")
}

fn bounds(
    alloc: Global,
    out: &mut Vec<u8>,
    low: &Option<Expr>,
    high: &Option<Expr>,
) -> Result<(), AllocError>
    ensures { IfOk result (λ _. Writes out.old.items out.new.items (written_bounds low.now high.now)) }
{
    match (low, high) {
        (Some(low), Some(high)) => bracketed(alloc, out, low, high),
        _ => Ok(()),
    }
}

fn value(alloc: Global, out: &mut Vec<u8>, value: &Option<Expr>) -> Result<(), AllocError>
    ensures { IfOk result (λ _. Writes out.old.items out.new.items (value_words (maybe_tree_of value.now))) }
{
    match value {
        None => Ok(()),
        Some(value) => {
            put(out, b"=")?;
            expression(alloc, out, value)
        }
    }
}

/// Appends a declaration as a line of its own.
pub fn declaration(alloc: Global, out: &mut Vec<u8>, decl: &Decl) -> Result<(), AllocError>
    ensures { IfOk result (λ _. Writes out.old.items out.new.items (decl_words (decl_of decl.now))) }
{
    put(out, kind(decl.kind))?;
    put_text(out, &decl.name)?;
    bounds(alloc, out, &decl.low, &decl.high)?;
    value(alloc, out, &decl.value)?;
    put(out, b";")
}

fn other(alloc: Global, out: &mut Vec<u8>, other: &Option<Expr>) -> Result<(), AllocError>
    ensures { IfOk result (λ _. Writes out.old.items out.new.items (else_words (maybe_tree_of other.now))) }
{
    match other {
        None => Ok(()),
        Some(other) => {
            put(out, b"ELSE")?;
            expression(alloc, out, other)
        }
    }
}

fn wide(
    alloc: Global,
    out: &mut Vec<u8>,
    comparison: &Expr,
    tolerance: &Expr,
) -> Result<(), AllocError>
    ensures { IfOk result (λ _. Writes out.old.items out.new.items (tolerant_words comparison.now tolerance.now)) }
{
    expression(alloc, out, comparison)?;
    put(out, b"[")?;
    expression(alloc, out, tolerance)?;
    put(out, b"]")
}

fn shape(alloc: Global, out: &mut Vec<u8>, shape: &Shape) -> Result<(), AllocError>
    ensures { IfOk result (λ _. Writes out.old.items out.new.items (shape_words (shape_of shape.now))) }
{
    match shape {
        Shape::Plain(right) => expression(alloc, out, right),
        Shape::Wide(comparison, tolerance) => wide(alloc, out, comparison, tolerance),
        Shape::Choice(when, hit, miss) => {
            put(out, b"IF")?;
            expression(alloc, out, when)?;
            put(out, b"THEN")?;
            expression(alloc, out, hit)?;
            other(alloc, out, miss)
        }
    }
}

fn target(out: &mut Vec<u8>, name: &Option<Text>) -> Result<(), AllocError>
    ensures { IfOk result (λ _. Writes out.old.items out.new.items (target_words name.now)) }
{
    match name {
        None => Ok(()),
        Some(name) => {
            put_text(out, name)?;
            put(out, b"=")
        }
    }
}

/// Appends an item.
pub fn item(alloc: Global, out: &mut Vec<u8>, item: &Item) -> Result<(), AllocError>
    ensures { IfOk result (λ _. Writes out.old.items out.new.items (item_words (item_of item.now))) }
{
    target(out, &item.name)?;
    shape(alloc, out, &item.shape)?;
    put(out, b";")
}

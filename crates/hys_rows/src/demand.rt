ghost use Rattle.std.specs.Prelude.{◌≡◌, IfOk};
ghost use Rattle.hys_guard.specs.Set.{negated as negated_terms};
ghost use Rattle.hys_rows.specs.Adding.{IsPlaced, AddsMost, AddsZero, AddsLeast, HasNothing};

use crate::added::{Added, nothing};
use crate::moved::moved;
use hys_frac::List;
use hys_lin::{Affine, Row, Term};
use std::alloc::{AllocError, Global};

/// Adds the row that demands that a number be at most 0.
pub fn add_most(
    alloc: Global,
    form: &Affine,
    columns: &[u32],
    rows: &mut Vec<Row>,
) -> Result<Added, AllocError>
    requires { IsPlaced columns.now form.now }
    ensures added { IfOk result (λ _. AddsMost columns.now form.now rows.old.items rows.new.items) }
    ensures nothing { IfOk result (λ a. HasNothing a) }
{
    let number = moved(alloc, form, columns)?;
    rows.push(Row {
        terms: number.terms,
        bound: number.constant.neg(),
        eq: false,
    })?;
    Ok(nothing(alloc))
}

/// Adds the two rows that demand that a number be 0.
pub fn add_zero(
    alloc: Global,
    form: &Affine,
    columns: &[u32],
    rows: &mut Vec<Row>,
) -> Result<Added, AllocError>
    requires { IsPlaced columns.now form.now }
    ensures added { IfOk result (λ _. AddsZero columns.now form.now rows.old.items rows.new.items) }
    ensures nothing { IfOk result (λ a. HasNothing a) }
{
    add_most(alloc, form, columns, rows)?;
    add_least(alloc, form, columns, rows)?;
    Ok(nothing(alloc))
}

// Adds the row that demands that a number be at least 0.
fn add_least(
    alloc: Global,
    form: &Affine,
    columns: &[u32],
    rows: &mut Vec<Row>,
) -> Result<(), AllocError>
    requires { IsPlaced columns.now form.now }
    ensures { IfOk result (λ _. AddsLeast columns.now form.now rows.old.items rows.new.items) }
{
    let number = moved(alloc, form, columns)?;
    let terms = negated(alloc, number.terms.items())?;
    rows.push(Row {
        terms: List::of(terms),
        bound: number.constant,
        eq: false,
    })?;
    Ok(())
}

fn negated(alloc: Global, terms: &[Term]) -> Result<Vec<Term>, AllocError>
    ensures { IfOk result (λ new. new.items ≡ negated_terms terms.now) }
{
    let mut negated = Vec::with_capacity(alloc, terms.len())?;
    for term in terms {
        negated.push(Term {
            column: term.column,
            factor: term.factor.neg(),
        })?;
    }
    Ok(negated)
}

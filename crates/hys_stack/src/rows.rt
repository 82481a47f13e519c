//! The rows and the branch columns of a stacked problem.

ghost use Rattle.std.specs.Prelude.{◌≡◌, ◌+◌, ◌*◌, ◌<◌, ◌^◌, ◌++◌, ◌&&◌, length, All, map, IfOk};
ghost use Rattle.hys_lin.specs.Over.{AreTermsOver};
ghost use Rattle.hys_lin.specs.Sums.{EachColumn};
ghost use Rattle.hys_stack.specs.Stacking.{moved, opposite, moved_row, equation, equations, step_rows, stacked_rows, branch_columns, stacked_branch, is_bool, is_branch_role};
ghost use Rattle.hys_sys.specs.System.{IsSystem};

use hys_base::List;
use hys_frac::Frac;
use hys_lin::{Affine, Row, Term};
use hys_sys::{Column, ColumnRole, Kind2, System};
use std::alloc::{AllocError, Global};

// The terms with their columns moved on.
fn moved_terms(alloc: Global, offset: u32, terms: &[Term]) -> Result<Vec<Term>, AllocError>
    requires { EachColumn (λ c. offset + c < 2 ^ 32) terms.now }
    ensures { IfOk result (λ ts. ts.items ≡ moved offset terms.now) }
{
    let mut out = Vec::new(alloc);
    for term in terms {
        out.push(Term {
            column: offset + term.column,
            factor: term.factor,
        })?;
    }
    Ok(out)
}

// The terms with their columns moved on and their factors negated.
fn opposite_terms(alloc: Global, offset: u32, terms: &[Term]) -> Result<Vec<Term>, AllocError>
    requires { EachColumn (λ c. offset + c < 2 ^ 32) terms.now }
    ensures { IfOk result (λ ts. ts.items ≡ moved offset (opposite terms.now)) }
{
    let mut out = Vec::new(alloc);
    for term in terms {
        out.push(Term {
            column: offset + term.column,
            factor: term.factor.neg(),
        })?;
    }
    Ok(out)
}

// Appends the rows with their columns moved on.
fn push_rows(
    alloc: Global,
    out: &mut Vec<Row>,
    columns: u32,
    offset: u32,
    rows: &[Row],
) -> Result<(), AllocError>
    requires rows { All (λ r. AreTermsOver columns r.terms) rows.now }
    requires room { offset + columns < 2 ^ 32 }
    ensures { IfOk result (λ _. out.new.items ≡ out.old.items ++ map (moved_row offset) rows.now) }
{
    for row in rows {
        let terms = moved_terms(alloc, offset, row.terms.items())?;
        out.push(Row {
            terms: List::of(terms),
            bound: row.bound,
            eq: row.eq,
        })?;
    }
    Ok(())
}

// The next state without the terms of its form equals the form's constant.
fn equation(alloc: Global, offset: u32, next: u32, form: &Affine) -> Result<Row, AllocError>
    requires { EachColumn (λ c. offset + c < 2 ^ 32) form.now.terms }
    ensures { IfOk result (λ r. r ≡ equation offset next form.now) }
{
    let mut terms = opposite_terms(alloc, offset, form.terms.items())?;
    terms.push(Term {
        column: next,
        factor: Frac::whole(1),
    })?;
    Ok(Row {
        terms: List::of(terms),
        bound: form.constant,
        eq: true,
    })
}

// Appends the equations of the next states, which have the columns from `next` on.
fn push_equations(
    alloc: Global,
    out: &mut Vec<Row>,
    columns: u32,
    offset: u32,
    next: u32,
    forms: &[Affine],
) -> Result<(), AllocError>
    requires forms { All (λ f. AreTermsOver columns f.terms) forms.now }
    requires room { offset + columns < 2 ^ 32 }
    requires room_behind { next + length forms.now < 2 ^ 32 }
    ensures { IfOk result (λ _. out.new.items ≡ out.old.items ++ equations offset next forms.now) }
{
    let mut column = next;
    for form in forms {
        out.push(equation(alloc, offset, column, form)?)?;
        column += 1;
    }
    Ok(())
}

// Appends the rows of a step, and behind them its equations.
fn push_step(
    alloc: Global,
    out: &mut Vec<Row>,
    system: &System,
    columns: u32,
    step: u32,
) -> Result<(), AllocError>
    requires system { IsSystem system.now }
    requires columns { columns ≡ length system.now.columns }
    requires room { (step + 2) * columns < 2 ^ 32 }
    ensures { IfOk result (λ _. out.new.items ≡ out.old.items ++ step_rows system.now step) }
{
    let offset = step * columns;
    let next = offset + columns;
    push_rows(alloc, out, columns, offset, system.rows.items())?;
    push_equations(alloc, out, columns, offset, next, system.next.items())
}

/// The rows of all steps, and behind those of each step its equations.
#[tactic(auto, using(crate::proofs::Steps::each_on))]
pub fn stack_rows(alloc: Global, system: &System, horizon: u32) -> Result<List<Row>, AllocError>
    requires system { IsSystem system.now }
    requires room { (horizon + 2) * length system.now.columns < 2 ^ 32 }
    ensures { IfOk result (λ rows. rows ≡ stacked_rows system.now horizon) }
{
    let columns = system.columns.items().len() as u32;
    let mut rows = Vec::new(alloc);
    for step in 0..horizon {
        push_step(alloc, &mut rows, system, columns, step)?;
    }
    Ok(List::of(rows))
}

// Whether the column has to be 0 or 1 in a solution.
fn is_branch(column: &Column) -> bool
    ensures { result ≡ is_bool column.now.kind && is_branch_role column.now.role }
{
    matches!(column.kind, Kind2::Bool) && matches!(column.role, ColumnRole::Input | ColumnRole::D)
}

// Appends the branch columns of a step whose first column is `offset`.
fn push_branch(out: &mut Vec<u32>, offset: u32, columns: &[Column]) -> Result<(), AllocError>
    requires { offset + length columns.now < 2 ^ 32 }
    ensures { IfOk result (λ _. out.new.items ≡ out.old.items ++ branch_columns offset columns.now) }
{
    let mut number = offset;
    for column in columns {
        if is_branch(column) {
            out.push(number)?;
        }
        number += 1;
    }
    Ok(())
}

/// The branch columns of all steps.
#[tactic(auto, using(crate::proofs::Steps::each_on))]
pub fn stack_branch(alloc: Global, system: &System, horizon: u32) -> Result<List<u32>, AllocError>
    requires system { IsSystem system.now }
    requires room { (horizon + 2) * length system.now.columns < 2 ^ 32 }
    ensures { IfOk result (λ branch. branch ≡ stacked_branch system.now horizon) }
{
    let columns = system.columns.items();
    let mut branch = Vec::new(alloc);
    for step in 0..horizon {
        push_branch(&mut branch, step * columns.len() as u32, columns)?;
    }
    Ok(List::of(branch))
}

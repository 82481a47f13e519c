ghost use Rattle.std.specs.Prelude.{◌≡◌, ◌≤◌, ◌<◌, ◌+◌, ◌^◌, IfOk};
ghost use Rattle.hys_formula.specs.Formulas.{tree_of, connectives};
ghost use Rattle.hys_prog.specs.Programs.{body_connectives};
ghost use Rattle.hys_prog.specs.declared.program.Body.TheVariants.{Logic, MustHold};
ghost use Rattle.hys_logic.specs.declared.usage.Use.TheVariants.{Define, Require};
ghost use Rattle.hys_logic.specs.Uses.{IsFree};
ghost use Rattle.hys_rows.specs.Items.{fresh_in};
ghost use Rattle.hys_rows.specs.Moved.{moved as moved_form};
ghost use Rattle.hys_rows.specs.Numbers.{Judged, numbers_of};
ghost use Rattle.hys_rows.specs.Parts.{form_in, no_form};
ghost use Rattle.hys_rows.specs.Adding.{IsPlacedBody, IsPlacedFormula, IsPlaced, AddsBody, AddsDefined, AddsFormula};

use crate::added::{Added, only_fresh};
use crate::choice::add_choice;
use crate::demand::{add_most, add_zero};
use crate::fault::RowFault;
use crate::formula::{add_defined, add_read, add_required};
use crate::guard::{add_copy, add_guard};
use crate::moved::moved;
use hys_formula::Formula;
use hys_lin::{Affine, Interval, Row};
use hys_prog::Body;
use std::alloc::{AllocError, Global};

/// Adds the rows of a body whose name has the column `own`.
pub fn add_body(
    alloc: Global,
    body: &Body,
    own: u32,
    columns: &[u32],
    boxes: &[Interval],
    first_free: u32,
    rows: &mut Vec<Row>,
) -> Result<Added, RowFault>
    requires placed { IsPlacedBody boxes.now columns.now first_free own body.now }
    requires room { first_free + body_connectives body.now ≤ 2 ^ 32 }
    requires count { body_connectives body.now < 2 ^ 32 }
    ensures added { IfOk result (λ _. AddsBody boxes.now columns.now first_free own body.now rows.old rows.new) }
    ensures fresh { IfOk result (λ a. a.fresh ≡ fresh_in columns.now body.now) }
    ensures form { IfOk result (λ a. a.form ≡ form_in columns.now first_free body.now) }
    ensures judged { Judged (numbers_of boxes.now columns.now first_free body.now) result }
{
    match body {
        Body::Guard { number, eps } => add_guard(alloc, number, *eps, own, columns, boxes, rows),
        Body::Choice { when, hit, other } => {
            add_choice(
                alloc, when, hit, other, own, columns, boxes, first_free, rows,
            )
        }
        Body::Logic(formula) => Ok(add_logic(alloc, formula, own, columns, first_free, rows)?),
        Body::Linear(form) => add_copy(alloc, form, own, columns, rows),
        Body::NextBool(formula) => Ok(add_read(alloc, formula, columns, first_free, rows)?),
        Body::NextReal(form) => Ok(form_alone(alloc, form, columns)?),
        Body::OutBool(formula) => Ok(add_read(alloc, formula, columns, first_free, rows)?),
        Body::OutReal(form) => Ok(form_alone(alloc, form, columns)?),
        Body::MustHold(formula) => Ok(add_must(alloc, formula, columns, first_free, rows)?),
        Body::MustMost(form) => Ok(add_most(alloc, form, columns, rows)?),
        Body::MustZero(form) => Ok(add_zero(alloc, form, columns, rows)?),
    }
}

// Adds the rows of a formula that defines the column.
fn add_logic(
    alloc: Global,
    formula: &Formula,
    own: u32,
    columns: &[u32],
    first_free: u32,
    rows: &mut Vec<Row>,
) -> Result<Added, AllocError>
    requires names { IsPlacedFormula columns.now first_free formula.now }
    requires free { IsFree (Define own) columns.now first_free (tree_of formula.now) }
    requires room { first_free + connectives (tree_of formula.now) ≤ 2 ^ 32 }
    requires count { connectives (tree_of formula.now) < 2 ^ 32 }
    ensures added { IfOk result (λ _. AddsDefined columns.now first_free own formula.now rows.old rows.new) }
    ensures fresh { IfOk result (λ a. a.fresh ≡ fresh_in columns.now (Logic formula.now)) }
    ensures form { IfOk result (λ a. a.form ≡ no_form) }
{
    let fresh = add_defined(alloc, formula, columns, own, first_free, rows)?;
    Ok(only_fresh(alloc, fresh))
}

// Adds the rows of a formula that is required.
fn add_must(
    alloc: Global,
    formula: &Formula,
    columns: &[u32],
    first_free: u32,
    rows: &mut Vec<Row>,
) -> Result<Added, AllocError>
    requires names { IsPlacedFormula columns.now first_free formula.now }
    requires room { first_free + connectives (tree_of formula.now) ≤ 2 ^ 32 }
    requires count { connectives (tree_of formula.now) < 2 ^ 32 }
    ensures added { IfOk result (λ _. AddsFormula Require columns.now first_free formula.now rows.old rows.new) }
    ensures fresh { IfOk result (λ a. a.fresh ≡ fresh_in columns.now (MustHold formula.now)) }
    ensures form { IfOk result (λ a. a.form ≡ no_form) }
{
    let fresh = add_required(alloc, formula, columns, first_free, rows)?;
    Ok(only_fresh(alloc, fresh))
}

// The form of a next value or an output, which has no rows.
fn form_alone(alloc: Global, form: &Affine, columns: &[u32]) -> Result<Added, AllocError>
    requires { IsPlaced columns.now form.now }
    ensures fresh { IfOk result (λ a. a.fresh ≡ 0) }
    ensures form { IfOk result (λ a. a.form ≡ moved_form columns.now form.now) }
{
    let form = moved(alloc, form, columns)?;
    Ok(Added { fresh: 0, form })
}

ghost use Rattle.std.specs.Prelude.{IfOk, []};
ghost use Rattle.hys_number.specs.Ops.{whole, ◌<ₙ◌};
ghost use Rattle.hys_prog.specs.declared.program.Body.TheVariants.{Guard};
ghost use Rattle.hys_guard.specs.Numbers.{guard_numbers};
ghost use Rattle.hys_rows.specs.Moved.{moved as moved_form};
ghost use Rattle.hys_rows.specs.Numbers.{Judged, numbers_of};
ghost use Rattle.hys_rows.specs.Adding.{IsPlaced, IsBoxed, IsApart, AddsGuard, AddsGuardOver, AddsCopy, HasNothing};

use crate::added::{Added, nothing};
use crate::fault::RowFault;
use crate::moved::moved;
use crate::range::range_in;
use hys_frac::Frac;
use hys_guard::{GuardFault, copy_rows, guard_rows};
use hys_lin::{Affine, Interval, Row};
use std::alloc::Global;

/// Adds the rows of a guard.
pub fn add_guard(
    alloc: Global,
    number: &Affine,
    eps: Frac,
    own: u32,
    columns: &[u32],
    boxes: &[Interval],
    rows: &mut Vec<Row>,
) -> Result<Added, RowFault>
    requires tolerance { whole 0 <ₙ eps }
    requires placed { IsPlaced columns.now number.now }
    requires boxed { IsBoxed boxes.now number.now }
    requires apart { IsApart own (moved_form columns.now number.now) }
    ensures added { IfOk result (λ _. AddsGuardOver boxes.now columns.now number.now eps own rows.old rows.new) }
    ensures nothing { IfOk result (λ a. HasNothing a) }
    ensures judged { Judged (numbers_of boxes.now columns.now 0 (Guard number.now eps)) result }
{
    let range = range_in(number, boxes)?;
    add_guarded(alloc, number, range, eps, own, columns, rows)?;
    Ok(nothing(alloc))
}

// Adds the two rows of a guard whose number has this range.
fn add_guarded(
    alloc: Global,
    number: &Affine,
    range: Interval,
    eps: Frac,
    own: u32,
    columns: &[u32],
    rows: &mut Vec<Row>,
) -> Result<(), RowFault>
    requires tolerance { whole 0 <ₙ eps }
    requires placed { IsPlaced columns.now number.now }
    requires apart { IsApart own (moved_form columns.now number.now) }
    ensures added { IfOk result (λ _. AddsGuard columns.now number.now range eps own rows.old.items rows.new.items) }
    ensures judged { Judged (guard_numbers (moved_form columns.now number.now) range eps) result }
{
    let form = moved(alloc, number, columns)?;
    match guard_rows(alloc, &form, range, eps, own) {
        Ok(mut made) => Ok(rows.append(&mut made)?),
        Err(GuardFault::Lost(lost)) => Err(RowFault::Lost(lost)),
        Err(GuardFault::Memory) => Err(RowFault::Memory),
    }
}

/// Adds the two rows that hold the column to the form.
pub fn add_copy(
    alloc: Global,
    form: &Affine,
    own: u32,
    columns: &[u32],
    rows: &mut Vec<Row>,
) -> Result<Added, RowFault>
    requires placed { IsPlaced columns.now form.now }
    requires apart { IsApart own (moved_form columns.now form.now) }
    ensures added { IfOk result (λ _. AddsCopy columns.now form.now own rows.old.items rows.new.items) }
    ensures nothing { IfOk result (λ a. HasNothing a) }
    ensures judged { Judged [] result }
{
    let moved_form = moved(alloc, form, columns)?;
    match copy_rows(alloc, &moved_form, own) {
        Ok(mut made) => {
            rows.append(&mut made)?;
            Ok(nothing(alloc))
        }
        Err(GuardFault::Lost(lost)) => Err(RowFault::Lost(lost)),
        Err(GuardFault::Memory) => Err(RowFault::Memory),
    }
}

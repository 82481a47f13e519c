ghost use Rattle.std.specs.Prelude.{◌≡◌, ◌≤◌, ◌<◌, ◌+◌, ◌^◌, IfOk, length};
ghost use Rattle.hys_formula.specs.Formulas.{tree_of, connectives};
ghost use Rattle.hys_prog.specs.declared.program.Body.TheVariants.{Choice};
ghost use Rattle.hys_rows.specs.Items.{fresh_in};
ghost use Rattle.hys_rows.specs.Moved.{moved as moved_form};
ghost use Rattle.hys_rows.specs.Numbers.{Judged, moved_numbers, numbers_of};
ghost use Rattle.hys_rows.specs.Parts.{literal_form, no_form};
ghost use Rattle.hys_rows.specs.Adding.{IsPlacedFormula, IsPlaced, IsBoxed, IsApart, AddsChoice, AddsCases};

use crate::added::{Added, only_fresh};
use crate::fault::RowFault;
use crate::formula::add_read;
use crate::moved::moved;
use crate::range::range_in;
use hys_formula::Formula;
use hys_guard::{GuardFault, choice_rows};
use hys_lin::{Affine, Interval, Row};
use std::alloc::Global;

/// Adds the rows of a choice, those of its condition first.
pub fn add_choice(
    alloc: Global,
    when: &Formula,
    hit: &Affine,
    other: &Affine,
    own: u32,
    columns: &[u32],
    boxes: &[Interval],
    first_free: u32,
    rows: &mut Vec<Row>,
) -> Result<Added, RowFault>
    requires names { IsPlacedFormula columns.now first_free when.now }
    requires room { first_free + connectives (tree_of when.now) ≤ 2 ^ 32 }
    requires count { connectives (tree_of when.now) < 2 ^ 32 }
    requires literal_apart { IsApart own (literal_form columns.now first_free when.now) }
    requires hit_placed { IsPlaced columns.now hit.now }
    requires hit_boxed { IsBoxed boxes.now hit.now }
    requires hit_apart { IsApart own (moved_form columns.now hit.now) }
    requires other_placed { IsPlaced columns.now other.now }
    requires other_boxed { IsBoxed boxes.now other.now }
    requires other_apart { IsApart own (moved_form columns.now other.now) }
    ensures added { AddsChoice boxes.now columns.now first_free own when.now hit.now other.now rows.old rows.new result }
    ensures fresh { IfOk result (λ a. a.fresh ≡ fresh_in columns.now (Choice when.now hit.now other.now)) }
    ensures form { IfOk result (λ a. a.form ≡ no_form) }
    ensures judged { Judged (numbers_of boxes.now columns.now first_free (Choice when.now hit.now other.now)) result }
{
    let first = range_in(hit, boxes)?;
    let second = range_in(other, boxes)?;
    let read = add_read(alloc, when, columns, first_free, rows)?;
    add_chosen(
        alloc, &read.form, hit, first, other, second, own, columns, rows,
    )?;
    Ok(only_fresh(alloc, read.fresh))
}

// Adds the four rows of a choice by a literal between forms with these ranges.
fn add_chosen(
    alloc: Global,
    literal: &Affine,
    hit: &Affine,
    hit_range: Interval,
    other: &Affine,
    other_range: Interval,
    own: u32,
    columns: &[u32],
    rows: &mut Vec<Row>,
) -> Result<(), RowFault>
    requires one_term { length literal.now.terms ≤ 1 }
    requires literal_apart { IsApart own literal.now }
    requires hit_placed { IsPlaced columns.now hit.now }
    requires hit_apart { IsApart own (moved_form columns.now hit.now) }
    requires other_placed { IsPlaced columns.now other.now }
    requires other_apart { IsApart own (moved_form columns.now other.now) }
    ensures added { AddsCases columns.now literal.now hit.now hit_range other.now other_range own rows.old rows.new result }
    ensures judged { Judged (moved_numbers columns.now literal.now hit.now hit_range other.now other_range) result }
{
    let first = moved(alloc, hit, columns)?;
    let second = moved(alloc, other, columns)?;
    match choice_rows(alloc, literal, &first, hit_range, &second, other_range, own) {
        Ok(mut made) => Ok(rows.append(&mut made)?),
        Err(GuardFault::Lost(lost)) => Err(RowFault::Lost(lost)),
        Err(GuardFault::Memory) => Err(RowFault::Memory),
    }
}

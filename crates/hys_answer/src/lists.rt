//! Points, and paths of pivots.

ghost use Rattle.std.specs.Prelude.{◌≡◌};
ghost use Rattle.serde_json.specs.View.{view};
ghost use Rattle.hys_json.specs.Checks.{Judged};
ghost use Rattle.hys_json.specs.Values.{fraction_in};
ghost use Rattle.hys_file.specs.Reading.{pair_checks, ArePair};
ghost use Rattle.hys_answer.specs.Reading.{number_asked, after_number, point_in, point_checks, cell_in, cell_checks, cell_asked, after_cell, path_in, path_checks};

use hys_base::List;
use hys_frac::Frac;
use hys_json::{
    Reader, ValueFault, here, read_fraction, read_items, read_list, read_whole, within,
};
use hys_lin::Point;
use serde_json::Value;
use std::alloc::Global;

/// The two items of a list of two.
#[tactic(auto, unfolding(hys_file::specs::Reading::pair_checks))]
pub fn read_pair<'v>(alloc: Global, value: &'v Value) -> Result<(&'v Value, &'v Value), ValueFault>
    ensures { Judged (pair_checks (view value.now)) (ArePair (view value.now)) result }
{
    let items = read_items(alloc, value)?;
    if items.len() == 2 {
        Ok((&items[0], &items[1]))
    } else {
        Err(here(alloc))
    }
}

/// Reads the numbers of a point.
#[derive(Drop)]
pub struct EachNumber;

impl Reader for EachNumber {
    type Item = Frac;

    ghost asked = { number_asked };

    ghost meant = { fraction_in };

    ghost after = { after_number };

    fn read(&mut self, alloc: Global, value: &Value) -> Result<Frac, ValueFault> {
        read_fraction(alloc, value)
    }
}

/// A number for each column.
pub fn read_point(alloc: Global, value: &Value) -> Result<Point, ValueFault>
    ensures { Judged (point_checks (view value.now)) (λ p. p ≡ point_in (view value.now)) result }
{
    let numbers = read_list(alloc, &mut EachNumber, value)?;
    Ok(Point {
        values: List::of(numbers),
    })
}

/// A row and a column.
#[tactic(auto, using(hys_json::proofs::Judging::fails_first, hys_json::proofs::Judging::fails_second, hys_json::proofs::Judging::none_after_none, hys_json::proofs::Judging::fails_third, hys_json::proofs::Judging::fails_fourth, hys_json::proofs::Judging::fails_fifth, hys_json::proofs::Judging::none_of_five, hys_json::proofs::Judging::fails_under, hys_json::proofs::Judging::passes_under, hys_json::proofs::Judging::read_as, hys_json::proofs::Readings::closed_has))]
pub fn read_cell(alloc: Global, value: &Value) -> Result<(u32, u32), ValueFault>
    ensures { Judged (cell_checks (view value.now)) (λ c. c ≡ cell_in (view value.now)) result }
{
    let (first, second) = read_pair(alloc, value)?;
    let row = within(alloc, "0", read_whole(alloc, first))?;
    let column = within(alloc, "1", read_whole(alloc, second))?;
    Ok((row, column))
}

/// Reads the pivots of a path.
#[derive(Drop)]
pub struct EachCell;

impl Reader for EachCell {
    type Item = (u32, u32);

    ghost asked = { cell_asked };

    ghost meant = { cell_in };

    ghost after = { after_cell };

    fn read(&mut self, alloc: Global, value: &Value) -> Result<(u32, u32), ValueFault> {
        read_cell(alloc, value)
    }
}

/// A path of pivots, each with its row and its column.
pub fn read_path(alloc: Global, value: &Value) -> Result<List<(u32, u32)>, ValueFault>
    ensures { Judged (path_checks (view value.now)) (λ p. p ≡ path_in (view value.now)) result }
{
    let pivots = read_list(alloc, &mut EachCell, value)?;
    Ok(List::of(pivots))
}

//! Why a search ended before its end.

ghost use Rattle.std.specs.Prelude.{◌≡◌, IsTrue, codes};
ghost use Rattle.serde_json.specs.View.{view};
ghost use Rattle.hys_json.specs.Checks.{Judged};
ghost use Rattle.hys_json.specs.Values.{word_checks};
ghost use Rattle.hys_relax.specs.declared.range.TablePlace.TheVariants.{Sum};
ghost use Rattle.hys_answer.specs.Reading.{at_in, at_checks, spent_in, spent_checks, range_in, range_checks, why_in, why_parts, why_checks, table_cell_in, table_value_in, table_cell_checks, table_value_checks, cell_keys, value_keys, has_form};

use crate::forms::{check_kind, has_form, is_kind};
use crate::lists::{read_cell, read_path};
use hys_json::{ValueFault, check_keys, check_word, member, read_whole, within};
use hys_relax::{RangeAt, TablePlace};
use hys_tree::Why;
use serde_json::Value;
use std::alloc::Global;

#[tactic(auto, using(hys_json::proofs::Judging::fails_first, hys_json::proofs::Judging::fails_second, hys_json::proofs::Judging::none_after_none, hys_json::proofs::Judging::fails_third, hys_json::proofs::Judging::fails_fourth, hys_json::proofs::Judging::fails_fifth, hys_json::proofs::Judging::none_of_five, hys_json::proofs::Judging::fails_under, hys_json::proofs::Judging::passes_under, hys_json::proofs::Judging::read_as, hys_json::proofs::Readings::closed_has, crate::proofs::Shapes::form_has), unfolding(crate::specs::Reading::table_cell_checks))]
fn read_table_cell(alloc: Global, value: &Value) -> Result<TablePlace, ValueFault>
    requires { IsTrue (has_form cell_keys (view value.now)) }
    ensures { Judged (table_cell_checks (view value.now)) (λ p. p ≡ table_cell_in (view value.now)) result }
{
    let (row, col) = within(alloc, "cell", read_cell(alloc, member(value, "cell")))?;
    Ok(TablePlace::Cell { row, col })
}

#[tactic(auto, using(hys_json::proofs::Judging::fails_first, hys_json::proofs::Judging::fails_second, hys_json::proofs::Judging::none_after_none, hys_json::proofs::Judging::fails_third, hys_json::proofs::Judging::fails_fourth, hys_json::proofs::Judging::fails_fifth, hys_json::proofs::Judging::none_of_five, hys_json::proofs::Judging::fails_under, hys_json::proofs::Judging::passes_under, hys_json::proofs::Judging::read_as, hys_json::proofs::Readings::closed_has, crate::proofs::Shapes::form_has), unfolding(crate::specs::Reading::table_value_checks))]
fn read_table_value(alloc: Global, value: &Value) -> Result<TablePlace, ValueFault>
    requires { IsTrue (has_form value_keys (view value.now)) }
    ensures { Judged (table_value_checks (view value.now)) (λ p. p ≡ table_value_in (view value.now)) result }
{
    let row = within(alloc, "value", read_whole(alloc, member(value, "value")))?;
    Ok(TablePlace::Value { row })
}

fn read_sum(alloc: Global, value: &Value) -> Result<TablePlace, ValueFault>
    ensures { Judged (word_checks (codes "sum") (view value.now)) (λ p. p ≡ Sum) result }
{
    check_word(alloc, value, "sum")?;
    Ok(TablePlace::Sum)
}

// The place of a number in a table: an object whose keys say what it is, or a word.
#[tactic(auto, unfolding(crate::specs::Reading::at_checks))]
fn read_at(alloc: Global, value: &Value) -> Result<TablePlace, ValueFault>
    ensures { Judged (at_checks (view value.now)) (λ p. p ≡ at_in (view value.now)) result }
{
    if has_form(value, &["cell"]) {
        return read_table_cell(alloc, value);
    }
    if has_form(value, &["value"]) {
        return read_table_value(alloc, value);
    }
    read_sum(alloc, value)
}

#[tactic(auto, using(hys_json::proofs::Judging::fails_first, hys_json::proofs::Judging::fails_second, hys_json::proofs::Judging::none_after_none, hys_json::proofs::Judging::fails_third, hys_json::proofs::Judging::fails_fourth, hys_json::proofs::Judging::fails_fifth, hys_json::proofs::Judging::none_of_five, hys_json::proofs::Judging::fails_under, hys_json::proofs::Judging::passes_under, hys_json::proofs::Judging::read_as, hys_json::proofs::Readings::closed_has), unfolding(crate::specs::Reading::spent_checks))]
fn read_spent(alloc: Global, value: &Value) -> Result<Why, ValueFault>
    ensures { Judged (spent_checks (view value.now)) (λ w. w ≡ spent_in (view value.now)) result }
{
    check_keys(alloc, value, &["kind", "nodes"])?;
    let nodes = within(alloc, "nodes", read_whole(alloc, member(value, "nodes")))?;
    Ok(Why::Spent(nodes))
}

#[tactic(auto, using(hys_json::proofs::Judging::fails_first, hys_json::proofs::Judging::fails_second, hys_json::proofs::Judging::none_after_none, hys_json::proofs::Judging::fails_third, hys_json::proofs::Judging::fails_fourth, hys_json::proofs::Judging::fails_fifth, hys_json::proofs::Judging::none_of_five, hys_json::proofs::Judging::fails_under, hys_json::proofs::Judging::passes_under, hys_json::proofs::Judging::read_as, hys_json::proofs::Readings::closed_has), unfolding(crate::specs::Reading::range_checks))]
fn read_range(alloc: Global, value: &Value) -> Result<Why, ValueFault>
    ensures { Judged (range_checks (view value.now)) (λ w. w ≡ range_in (view value.now)) result }
{
    check_keys(alloc, value, &["at", "kind", "node", "path"])?;
    let at = within(alloc, "at", read_at(alloc, member(value, "at")))?;
    let node = within(alloc, "node", read_whole(alloc, member(value, "node")))?;
    let path = within(alloc, "path", read_path(alloc, member(value, "path")))?;
    Ok(Why::Range {
        node,
        at: RangeAt { path, at },
    })
}

// What the kind says, which is known.
#[tactic(auto, unfolding(crate::specs::Reading::why_parts))]
fn read_kind(alloc: Global, value: &Value) -> Result<Why, ValueFault>
    ensures { Judged (why_parts (view value.now)) (λ w. w ≡ why_in (view value.now)) result }
{
    if is_kind(value, "spent") {
        read_spent(alloc, value)
    } else {
        read_range(alloc, value)
    }
}

/// Why a search ended, in the form that its kind chooses.
#[tactic(auto, using(hys_json::proofs::Judging::fails_first, hys_json::proofs::Judging::then_second), unfolding(crate::specs::Reading::why_checks))]
pub fn read_why(alloc: Global, value: &Value) -> Result<Why, ValueFault>
    ensures { Judged (why_checks (view value.now)) (λ w. w ≡ why_in (view value.now)) result }
{
    check_kind(
        alloc,
        value,
        is_kind(value, "spent") || is_kind(value, "range"),
    )?;
    read_kind(alloc, value)
}

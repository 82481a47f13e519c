//! The places of a tree.

ghost use Rattle.std.specs.Prelude.{◌≡◌, IsTrue};
ghost use Rattle.serde_json.specs.View.{view};
ghost use Rattle.hys_json.specs.Checks.{Judged};
ghost use Rattle.hys_answer.specs.Reading.{pair_in, pair_asked, after_pair, is_counted, multipliers_in, multipliers_checks, has_form, inner_keys, cost_keys, never_keys, inner_in, cost_in, never_in, inner_checks, cost_checks, never_checks, place_checks, place_in, place_asked, after_place, tree_in, tree_checks};

use crate::forms::has_form;
use crate::lists::read_pair;
use hys_base::List;
use hys_frac::Frac;
use hys_json::{
    Reader, ValueFault, check, here, member, read_fraction, read_list, read_whole, within,
};
use hys_relax::Multipliers;
use hys_tree::{Tree, TreePlace};
use serde_json::Value;
use std::alloc::Global;
use std::cmp::Ordering;

/// Before a row with its multiplier: the least row that it may name.
#[derive(Drop)]
pub struct PairsBefore {
    pub least: u64,
}

impl Reader for PairsBefore {
    type Item = (u32, Frac);

    ghost asked = { pair_asked };

    ghost meant = { pair_in };

    ghost after = { after_pair };

    #[tactic(auto, using(hys_json::proofs::Judging::fails_first, hys_json::proofs::Judging::fails_second, hys_json::proofs::Judging::none_after_none, hys_json::proofs::Judging::fails_third, hys_json::proofs::Judging::fails_fourth, hys_json::proofs::Judging::fails_fifth, hys_json::proofs::Judging::none_of_five, hys_json::proofs::Judging::fails_under, hys_json::proofs::Judging::passes_under, hys_json::proofs::Judging::read_as, hys_json::proofs::Readings::closed_has))]
    fn read(&mut self, alloc: Global, value: &Value) -> Result<(u32, Frac), ValueFault> {
        let (first, second) = read_pair(alloc, value)?;
        let row = within(alloc, "0", read_whole(alloc, first))?;
        let factor = within(alloc, "1", read_fraction(alloc, second))?;
        check(alloc, self.least <= row as u64)?;
        self.least = row as u64 + 1;
        Ok((row, factor))
    }
}

/// Whether the multiplier of the row isn't 0.
pub fn is_counted(pair: &(u32, Frac)) -> bool
    ensures { result ≡ is_counted pair.now }
{
    !matches!(Ord::cmp(&pair.1, &Frac::whole(0)), Ordering::Equal)
}

/// Multipliers of rows, which rise. Those that are 0 are left out.
pub fn read_multipliers(alloc: Global, value: &Value) -> Result<Multipliers, ValueFault>
    ensures { Judged (multipliers_checks (view value.now)) (λ m. m ≡ multipliers_in (view value.now)) result }
{
    let mut pairs = read_list(alloc, &mut PairsBefore { least: 0 }, value)?;
    pairs.retain(|pair| is_counted(pair));
    Ok(Multipliers {
        pairs: List::of(pairs),
    })
}

#[tactic(auto, using(hys_json::proofs::Judging::fails_first, hys_json::proofs::Judging::fails_second, hys_json::proofs::Judging::none_after_none, hys_json::proofs::Judging::fails_third, hys_json::proofs::Judging::fails_fourth, hys_json::proofs::Judging::fails_fifth, hys_json::proofs::Judging::none_of_five, hys_json::proofs::Judging::fails_under, hys_json::proofs::Judging::passes_under, hys_json::proofs::Judging::read_as, hys_json::proofs::Readings::closed_has, crate::proofs::Shapes::form_has), unfolding(crate::specs::Reading::inner_checks))]
fn read_inner(alloc: Global, value: &Value) -> Result<TreePlace, ValueFault>
    requires { IsTrue (has_form inner_keys (view value.now)) }
    ensures { Judged (inner_checks (view value.now)) (λ p. p ≡ inner_in (view value.now)) result }
{
    let column = within(alloc, "column", read_whole(alloc, member(value, "column")))?;
    Ok(TreePlace::Inner(column))
}

#[tactic(auto, using(hys_json::proofs::Judging::fails_first, hys_json::proofs::Judging::fails_second, hys_json::proofs::Judging::none_after_none, hys_json::proofs::Judging::fails_third, hys_json::proofs::Judging::fails_fourth, hys_json::proofs::Judging::fails_fifth, hys_json::proofs::Judging::none_of_five, hys_json::proofs::Judging::fails_under, hys_json::proofs::Judging::passes_under, hys_json::proofs::Judging::read_as, hys_json::proofs::Readings::closed_has, crate::proofs::Shapes::form_has), unfolding(crate::specs::Reading::cost_checks))]
fn read_cost(alloc: Global, value: &Value) -> Result<TreePlace, ValueFault>
    requires { IsTrue (has_form cost_keys (view value.now)) }
    ensures { Judged (cost_checks (view value.now)) (λ p. p ≡ cost_in (view value.now)) result }
{
    let multipliers = within(
        alloc,
        "cost",
        read_multipliers(alloc, member(value, "cost")),
    )?;
    let depth = within(alloc, "depth", read_whole(alloc, member(value, "depth")))?;
    Ok(TreePlace::Cost(multipliers, depth))
}

#[tactic(auto, using(hys_json::proofs::Judging::fails_first, hys_json::proofs::Judging::fails_second, hys_json::proofs::Judging::none_after_none, hys_json::proofs::Judging::fails_third, hys_json::proofs::Judging::fails_fourth, hys_json::proofs::Judging::fails_fifth, hys_json::proofs::Judging::none_of_five, hys_json::proofs::Judging::fails_under, hys_json::proofs::Judging::passes_under, hys_json::proofs::Judging::read_as, hys_json::proofs::Readings::closed_has, crate::proofs::Shapes::form_has), unfolding(crate::specs::Reading::never_checks))]
fn read_never(alloc: Global, value: &Value) -> Result<TreePlace, ValueFault>
    requires { IsTrue (has_form never_keys (view value.now)) }
    ensures { Judged (never_checks (view value.now)) (λ p. p ≡ never_in (view value.now)) result }
{
    let depth = within(alloc, "depth", read_whole(alloc, member(value, "depth")))?;
    let multipliers = within(
        alloc,
        "never",
        read_multipliers(alloc, member(value, "never")),
    )?;
    Ok(TreePlace::Never(multipliers, depth))
}

// A place, whose keys say what it is.
#[tactic(auto, unfolding(crate::specs::Reading::place_checks))]
fn read_place(alloc: Global, value: &Value) -> Result<TreePlace, ValueFault>
    ensures { Judged (place_checks (view value.now)) (λ p. p ≡ place_in (view value.now)) result }
{
    if has_form(value, &["column"]) {
        return read_inner(alloc, value);
    }
    if has_form(value, &["cost", "depth"]) {
        return read_cost(alloc, value);
    }
    if has_form(value, &["depth", "never"]) {
        return read_never(alloc, value);
    }
    Err(here(alloc))
}

/// Reads the places of a tree.
#[derive(Drop)]
pub struct EachPlace;

impl Reader for EachPlace {
    type Item = TreePlace;

    ghost asked = { place_asked };

    ghost meant = { place_in };

    ghost after = { after_place };

    fn read(&mut self, alloc: Global, value: &Value) -> Result<TreePlace, ValueFault> {
        read_place(alloc, value)
    }
}

/// The places of a tree in preorder.
pub fn read_tree(alloc: Global, value: &Value) -> Result<Tree, ValueFault>
    ensures { Judged (tree_checks (view value.now)) (λ t. t ≡ tree_in (view value.now)) result }
{
    let places = read_list(alloc, &mut EachPlace, value)?;
    Ok(Tree {
        places: List::of(places),
    })
}

//! Claims.

ghost use Rattle.std.specs.Prelude.{◌≡◌};
ghost use Rattle.serde_json.specs.View.{view};
ghost use Rattle.hys_json.specs.Checks.{Judged};
ghost use Rattle.hys_json.specs.Values.{closed_checks};
ghost use Rattle.hys_tree.specs.declared.answer.Claim.TheVariants.{Least, NoneExists};
ghost use Rattle.hys_answer.specs.Reading.{best_keys, least_keys, none_keys, solution_in, solution_checks, best_in, best_checks, bound_in, bound_checks, claim_in, claim_parts, claim_checks};

use crate::forms::{check_kind, is_kind};
use crate::lists::read_point;
use crate::why::read_why;
use hys_json::{ValueFault, check_keys, member, read_fraction, within};
use hys_tree::{Best, Claim};
use serde_json::Value;
use std::alloc::Global;

// A best that is there.
#[tactic(auto, using(hys_json::proofs::Judging::fails_first, hys_json::proofs::Judging::fails_second, hys_json::proofs::Judging::none_after_none, hys_json::proofs::Judging::fails_third, hys_json::proofs::Judging::fails_fourth, hys_json::proofs::Judging::fails_fifth, hys_json::proofs::Judging::none_of_five, hys_json::proofs::Judging::fails_under, hys_json::proofs::Judging::passes_under, hys_json::proofs::Judging::read_as, hys_json::proofs::Readings::closed_has), unfolding(crate::specs::Reading::solution_checks))]
fn read_solution(alloc: Global, value: &Value) -> Result<Best, ValueFault>
    ensures { Judged (solution_checks best_keys (view value.now)) (λ b. b ≡ solution_in (view value.now)) result }
{
    check_keys(alloc, value, &["cost", "point"])?;
    let cost = within(alloc, "cost", read_fraction(alloc, member(value, "cost")))?;
    let point = within(alloc, "point", read_point(alloc, member(value, "point")))?;
    Ok(Best { point, cost })
}

// A best, or null where there is none.
#[tactic(auto, unfolding(crate::specs::Reading::best_checks))]
fn read_best(alloc: Global, value: &Value) -> Result<Option<Best>, ValueFault>
    ensures { Judged (best_checks (view value.now)) (λ b. b ≡ best_in (view value.now)) result }
{
    if value.is_null() {
        return Ok(None);
    }
    let best = read_solution(alloc, value)?;
    Ok(Some(best))
}

#[tactic(auto, using(hys_json::proofs::Judging::fails_first, hys_json::proofs::Judging::fails_second, hys_json::proofs::Judging::none_after_none, hys_json::proofs::Judging::fails_third, hys_json::proofs::Judging::fails_fourth, hys_json::proofs::Judging::fails_fifth, hys_json::proofs::Judging::none_of_five, hys_json::proofs::Judging::fails_under, hys_json::proofs::Judging::passes_under, hys_json::proofs::Judging::read_as, hys_json::proofs::Readings::closed_has), unfolding(crate::specs::Reading::solution_checks))]
fn read_least(alloc: Global, value: &Value) -> Result<Claim, ValueFault>
    ensures { Judged (solution_checks least_keys (view value.now)) (λ c.
        c ≡ Least (solution_in (view value.now))) result }
{
    check_keys(alloc, value, &["cost", "kind", "point"])?;
    let cost = within(alloc, "cost", read_fraction(alloc, member(value, "cost")))?;
    let point = within(alloc, "point", read_point(alloc, member(value, "point")))?;
    Ok(Claim::Least(Best { point, cost }))
}

fn read_none(alloc: Global, value: &Value) -> Result<Claim, ValueFault>
    ensures { Judged (closed_checks none_keys (view value.now)) (λ c. c ≡ NoneExists) result }
{
    check_keys(alloc, value, &["kind"])?;
    Ok(Claim::NoneExists)
}

#[tactic(auto, using(hys_json::proofs::Judging::fails_first, hys_json::proofs::Judging::fails_second, hys_json::proofs::Judging::none_after_none, hys_json::proofs::Judging::fails_third, hys_json::proofs::Judging::fails_fourth, hys_json::proofs::Judging::fails_fifth, hys_json::proofs::Judging::none_of_five, hys_json::proofs::Judging::fails_under, hys_json::proofs::Judging::passes_under, hys_json::proofs::Judging::read_as, hys_json::proofs::Readings::closed_has), unfolding(crate::specs::Reading::bound_checks))]
fn read_bound(alloc: Global, value: &Value) -> Result<Claim, ValueFault>
    ensures { Judged (bound_checks (view value.now)) (λ c. c ≡ bound_in (view value.now)) result }
{
    check_keys(alloc, value, &["best", "bound", "kind", "why"])?;
    let best = within(alloc, "best", read_best(alloc, member(value, "best")))?;
    let bound = within(alloc, "bound", read_fraction(alloc, member(value, "bound")))?;
    let why = within(alloc, "why", read_why(alloc, member(value, "why")))?;
    Ok(Claim::AtLeast { bound, best, why })
}

// What the kind says, which is known.
#[tactic(auto, unfolding(crate::specs::Reading::claim_parts))]
fn read_kind(alloc: Global, value: &Value) -> Result<Claim, ValueFault>
    ensures { Judged (claim_parts (view value.now)) (λ c. c ≡ claim_in (view value.now)) result }
{
    if is_kind(value, "least") {
        return read_least(alloc, value);
    }
    if is_kind(value, "none") {
        return read_none(alloc, value);
    }
    read_bound(alloc, value)
}

/// A claim, in the form that its kind chooses.
#[tactic(auto, using(hys_json::proofs::Judging::fails_first, hys_json::proofs::Judging::then_second), unfolding(crate::specs::Reading::claim_checks))]
pub fn read_claim(alloc: Global, value: &Value) -> Result<Claim, ValueFault>
    ensures { Judged (claim_checks (view value.now)) (λ c. c ≡ claim_in (view value.now)) result }
{
    let known = is_kind(value, "least") || is_kind(value, "none") || is_kind(value, "at_least");
    check_kind(alloc, value, known)?;
    read_kind(alloc, value)
}

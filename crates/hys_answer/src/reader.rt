//! An answer's text read as the answer.

ghost use Rattle.std.specs.Prelude.{◌≡◌, ◌<◌, ◌≤◌, ◌↔◌, length, codes, IfOk, IfSome, IsTrue};
ghost use Rattle.serde_json.specs.View.{view};
ghost use Rattle.hys_json.specs.Checks.{Judged};
ghost use Rattle.hys_json.specs.Values.{member_in, closed_checks};
ghost use Rattle.hys_tree.specs.Multiplied.{AreMultiplied};
ghost use Rattle.hys_answer.specs.Reading.{answer_keys, front_checks, back_checks, HasAnswerKeys, tree_in, answer_checks, answer_in, version_checks, most_places, claim_of};
ghost use Rattle.hys_answer.specs.Texts.{most_bytes, IsAnswerText, IsAnswerRead};

use crate::claim::read_claim;
use crate::guess::guess;
use crate::places::read_tree;
use crate::rising::are_multiplied;
use crate::writer::write_answer;
use hys_file::{FileFault, of_text, of_value, over_limit};
use hys_json::{ValueFault, check, check_keys, check_word, member, within};
use hys_tree::{Answer, Claim, Tree};
use serde_json::Value;
use std::alloc::Global;

/// The most bytes of an answer's text.
pub const MOST_BYTES: usize = 134217728;

/// The most places of a tree that is read: those of a search that expands half a million nodes.
pub const MOST_PLACES: usize = 1000001;

fn check_answer_keys(alloc: Global, value: &Value) -> Result<(), ValueFault>
    ensures { Judged (closed_checks answer_keys (view value.now)) (λ _. Unit {0}) result }
{
    check_keys(alloc, value, &["claim", "format", "tree", "version"])
}

// Whether the version is 1.
fn check_version(alloc: Global, value: &Value) -> Result<(), ValueFault>
    ensures { Judged (version_checks (view value.now)) (λ _. Unit {0}) result }
{
    let is_first = match value.as_u64() {
        Some(version) => version == 1,
        None => false,
    };
    check(alloc, is_first)
}

#[tactic(auto, using(hys_json::proofs::Judging::fails_first, hys_json::proofs::Judging::fails_second, hys_json::proofs::Judging::none_after_none, hys_json::proofs::Judging::fails_third, hys_json::proofs::Judging::fails_fourth, hys_json::proofs::Judging::fails_fifth, hys_json::proofs::Judging::none_of_five, hys_json::proofs::Judging::fails_under, hys_json::proofs::Judging::passes_under, hys_json::proofs::Judging::read_as, hys_json::proofs::Readings::closed_has), unfolding(crate::specs::Reading::front_checks))]
fn read_front(alloc: Global, value: &Value) -> Result<Claim, ValueFault>
    ensures { Judged (front_checks (view value.now)) (λ c. c ≡ claim_of (view value.now)) result }
{
    check_answer_keys(alloc, value)?;
    let claim = within(alloc, "claim", read_claim(alloc, member(value, "claim")))?;
    within(
        alloc,
        "format",
        check_word(alloc, member(value, "format"), "hysdel-answer"),
    )?;
    Ok(claim)
}

#[tactic(auto, using(hys_json::proofs::Judging::fails_first, hys_json::proofs::Judging::fails_second, hys_json::proofs::Judging::none_after_none, hys_json::proofs::Judging::fails_third, hys_json::proofs::Judging::fails_fourth, hys_json::proofs::Judging::fails_fifth, hys_json::proofs::Judging::none_of_five, hys_json::proofs::Judging::fails_under, hys_json::proofs::Judging::passes_under, hys_json::proofs::Judging::read_as, hys_json::proofs::Readings::closed_has), unfolding(crate::specs::Reading::back_checks))]
fn read_back(alloc: Global, value: &Value) -> Result<Tree, ValueFault>
    requires { HasAnswerKeys (view value.now) }
    ensures { Judged (back_checks (view value.now)) (λ t.
        t ≡ tree_in (member_in (codes "tree") (view value.now))) result }
{
    let tree = within(alloc, "tree", read_tree(alloc, member(value, "tree")))?;
    within(
        alloc,
        "version",
        check_version(alloc, member(value, "version")),
    )?;
    Ok(tree)
}

// The answer that a JSON value stands for.
#[tactic(auto, using(hys_json::proofs::Judging::fails_first, hys_json::proofs::Judging::fails_second, hys_json::proofs::Judging::none_after_none, crate::proofs::Shapes::has_keys), unfolding(crate::specs::Reading::answer_checks))]
fn read_value(alloc: Global, value: &Value) -> Result<Answer, ValueFault>
    ensures { Judged (answer_checks (view value.now)) (λ a. a ≡ answer_in (view value.now)) result }
{
    let claim = read_front(alloc, value)?;
    let tree = read_back(alloc, value)?;
    Ok(Answer {
        claim,
        tree,
        expanded: 0,
    })
}

/// The answer that a JSON value stands for, its tree of any size. The value doesn't say how many nodes were expanded:
/// `expanded` is 0. Multipliers that are 0 are left out.
///
/// # Errors
///
/// The first thing that is wrong in the value, the members of an object in byte order of their keys and those of a
/// list by position: `Shape` or `Number` with the path from the value on. The `kind` of a claim or a `why` is judged
/// before the other keys, which it chooses; the keys of a place of the tree and of an `at` choose its form. `Memory`
/// where memory is wanting.
pub fn read_one(alloc: Global, value: &Value) -> Result<Answer, ValueFault>
    ensures read { Judged (answer_checks (view value.now)) (λ a. a ≡ answer_in (view value.now)) result }
    ensures multiplied { IfOk result (λ a. AreMultiplied a.tree.places) }
{
    read_value(alloc, value)
}

/// Whether the tree has more places than are read.
pub fn is_too_large(tree: &Tree) -> bool
    ensures { IsTrue result ↔ (most_places < length tree.now.places) }
{
    tree.places.items().len() > MOST_PLACES
}

/// The answer of a text that is written as answers are: it is guessed piece by piece, and the guess is right where the
/// same text is written for it. None for any other text.
pub fn read_written(alloc: Global, text: &[u8]) -> Option<Answer>
    requires { length text.now ≤ most_bytes }
    ensures read { IfSome result (λ a. IsAnswerText text.now a) }
    ensures multiplied { IfSome result (λ a. AreMultiplied a.tree.places) }
{
    let (claim, tree) = guess(alloc, std::str::from_utf8(text).ok()?)?;
    let answer = Answer {
        claim,
        tree,
        expanded: 0,
    };
    if is_too_large(&answer.tree) || !are_multiplied(answer.tree.places.items()) {
        return None;
    }
    let written = write_answer(alloc, &answer).ok()?;
    if written.as_slice() == text {
        Some(answer)
    } else {
        None
    }
}

/// The answer that a text stands for. The text doesn't say how many nodes were expanded: `expanded` is 0. In the tree
/// rows of multipliers rise and no multiplier is 0.
///
/// # Errors
///
/// In this order: `Limit` of `bytes` for more than 128 MiB; `Json` where the text is no JSON value; then what
/// [`read_one`] finds wrong in the value, with its path; then `Limit` of a `tree` with more places than a search has
/// that expands half a million nodes. `Memory` where memory is wanting.
pub fn read_answer(alloc: Global, text: &[u8]) -> Result<Answer, FileFault>
    ensures read { IsAnswerRead text.now result }
    ensures multiplied { IfOk result (λ a. AreMultiplied a.tree.places) }
{
    if text.len() > MOST_BYTES {
        return Err(over_limit(alloc, "bytes"));
    }
    if let Some(answer) = read_written(alloc, text) {
        return Ok(answer);
    }
    let value = match Value::from_slice(alloc, text) {
        Ok(value) => value,
        Err(error) => return Err(of_text(&error)),
    };
    let answer = match read_one(alloc, &value) {
        Ok(answer) => answer,
        Err(fault) => return Err(of_value(alloc, fault)),
    };
    if is_too_large(&answer.tree) {
        return Err(over_limit(alloc, "tree"));
    }
    Ok(answer)
}

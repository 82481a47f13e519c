//! The keys and the kinds that choose the form of an object.

ghost use Rattle.std.specs.Prelude.{◌≡◌, map};
ghost use Rattle.serde_json.specs.View.{view};
ghost use Rattle.hys_json.specs.Checks.{Judged};
ghost use Rattle.hys_json.specs.Values.{has};
ghost use Rattle.hys_file.specs.Reading.{has_word};
ghost use Rattle.hys_answer.specs.Reading.{has_all, has_form, is_kind, kind_checks};

use hys_json::{ValueFault, check, within};
use serde_json::Value;
use std::alloc::Global;

fn has_key(value: &Value, key: &str) -> bool
    ensures { result ≡ has key.now (view value.now) }
{
    value.get(key).is_some()
}

fn has_all(value: &Value, keys: &[&str]) -> bool
    ensures { result ≡ has_all (map (λ k. k.now) keys.now) (view value.now) }
{
    for key in keys {
        if !has_key(value, key) {
            return false;
        }
    }
    true
}

/// Whether the value is an object with these keys and no other.
#[tactic(auto, using(crate::proofs::Shapes::has_as_many), unfolding(crate::specs::Reading::has_form))]
pub fn has_form(value: &Value, keys: &[&str]) -> bool
    ensures { result ≡ has_form (map (λ k. k.now) keys.now) (view value.now) }
{
    match value.as_object() {
        Some(members) => members.len() == keys.len() && has_all(value, keys),
        None => false,
    }
}

/// Whether the value is the string of this word.
pub fn has_word(value: &Value, word: &str) -> bool
    ensures { result ≡ has_word word.now (view value.now) }
{
    match value.as_str() {
        Some(text) => text == word,
        None => false,
    }
}

/// Whether this word stands under `kind`.
pub fn is_kind(value: &Value, word: &str) -> bool
    ensures { result ≡ is_kind word.now (view value.now) }
{
    match value.get("kind") {
        Some(kind) => has_word(kind, word),
        None => false,
    }
}

/// Whether the value is an object whose kind is known.
#[tactic(auto, using(hys_json::proofs::Judging::fails_first, hys_json::proofs::Judging::fails_second, hys_json::proofs::Judging::none_after_none, hys_json::proofs::Judging::fails_third, hys_json::proofs::Judging::fails_fourth, hys_json::proofs::Judging::fails_fifth, hys_json::proofs::Judging::none_of_five, hys_json::proofs::Judging::fails_under, hys_json::proofs::Judging::passes_under, hys_json::proofs::Judging::read_as, hys_json::proofs::Readings::closed_has), unfolding(crate::specs::Reading::kind_checks))]
pub fn check_kind(alloc: Global, value: &Value, known: bool) -> Result<(), ValueFault>
    ensures { Judged (kind_checks known (view value.now)) (λ _. Unit {0}) result }
{
    check(alloc, value.is_object())?;
    within(alloc, "kind", check(alloc, known))
}

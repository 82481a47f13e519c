ghost use Rattle.std.specs.Prelude.{◌≡◌, [], ◌∷◌, map};
ghost use Rattle.serde_json.specs.View.{view};
ghost use Rattle.hys_json.specs.declared.fault.ValueFault.TheVariants.{Shape};
ghost use Rattle.hys_json.specs.Checks.{Judged, shape};
ghost use Rattle.hys_json.specs.Values.{text_in, text_checks, word_checks, fraction_in, fraction_checks, whole_in, whole_checks, items_in, is_list};

use crate::fault::ValueFault;
use hys_base::{List, Text};
use hys_frac::Frac;
use serde_json::Value;
use std::alloc::{AllocError, Global};

/// The fault of the value itself.
pub fn here(alloc: Global) -> ValueFault
    ensures { result ≡ Shape [] }
{
    ValueFault::Shape(List::of(Vec::new(alloc)))
}

/// Whether a rule on the value itself holds.
pub fn check(alloc: Global, passes: bool) -> Result<(), ValueFault>
    ensures { Judged (shape passes ∷ []) (λ _. Unit {0}) result }
{
    if passes { Ok(()) } else { Err(here(alloc)) }
}

/// The text of a string.
pub fn read_text(alloc: Global, value: &Value) -> Result<Text, ValueFault>
    ensures { Judged (text_checks (view value.now)) (λ t. t ≡ text_in (view value.now)) result }
{
    match value.as_str() {
        Some(text) => Ok(Text::of(String::from_str(alloc, text)?)),
        None => Err(here(alloc)),
    }
}

/// Whether the string is this word.
pub fn check_word(alloc: Global, value: &Value, word: &str) -> Result<(), ValueFault>
    ensures { Judged (word_checks word.now (view value.now)) (λ _. Unit {0}) result }
{
    match value.as_str() {
        Some(text) => {
            if text == word {
                Ok(())
            } else {
                Err(here(alloc))
            }
        }
        None => Err(here(alloc)),
    }
}

/// The fraction whose number text the string is.
pub fn read_fraction(alloc: Global, value: &Value) -> Result<Frac, ValueFault>
    ensures { Judged (fraction_checks (view value.now)) (λ a. a ≡ fraction_in (view value.now)) result }
{
    match value.as_str() {
        Some(text) => match Frac::read(text.as_bytes()) {
            Ok(number) => Ok(number),
            Err(_) => Err(ValueFault::Number(List::of(Vec::new(alloc)))),
        },
        None => Err(here(alloc)),
    }
}

/// The whole number, below 2^32, that is written in digits alone.
pub fn read_whole(alloc: Global, value: &Value) -> Result<u32, ValueFault>
    ensures { Judged (whole_checks (view value.now)) (λ n. n ≡ whole_in (view value.now)) result }
{
    match value.as_u64() {
        Some(number) => {
            if number < 4294967296 {
                Ok(number as u32)
            } else {
                Err(here(alloc))
            }
        }
        None => Err(here(alloc)),
    }
}

/// The items of a list.
#[tactic(auto, using(crate::proofs::Readings::is_listed))]
pub fn read_items<'v>(alloc: Global, value: &'v Value) -> Result<&'v [Value], ValueFault>
    ensures { Judged (shape (is_list (view value.now)) ∷ []) (λ vs. map view vs.now ≡ items_in (view value.now)) result }
{
    match value.as_array() {
        Some(items) => Ok(items.as_slice()),
        None => Err(here(alloc)),
    }
}

//! The readers of whole numbers and words.

ghost use Rattle.std.specs.Prelude.{◌≡◌};
ghost use Rattle.serde_json.specs.View.{view};
ghost use Rattle.hys_json.specs.Values.{whole_in};
ghost use Rattle.hys_stack.specs.Reading.{Answers, whole_fault, pick_fault, pick_in, has_word};

use crate::fault::RequestFault;
use crate::paths::shape_here;
use crate::request::Pick;
use serde_json::Value;
use std::alloc::Global;

/// A whole number below 2^32 that is written in digits alone. Else `Shape` with the path of the
/// value, which is that of the root where it is empty.
#[tactic(auto, unfolding(crate::specs::Reading::whole_fault))]
pub fn read_whole(alloc: Global, value: &Value, path: &str) -> Result<u32, RequestFault>
    ensures { Answers (whole_fault path.now (view value.now)) (λ n. n ≡ whole_in (view value.now)) result }
{
    match value.as_u64() {
        Some(number) => {
            if number < 4294967296 {
                Ok(number as u32)
            } else {
                Err(shape_here(alloc, path))
            }
        }
        None => Err(shape_here(alloc, path)),
    }
}

fn has_word(value: &Value, word: &str) -> bool
    ensures { result ≡ has_word word.now (view value.now) }
{
    match value.as_str() {
        Some(text) => text == word,
        None => false,
    }
}

/// The word `bound` or `depth`. Else `Shape` with the path of the value.
#[tactic(auto, unfolding(crate::specs::Reading::pick_fault))]
pub fn read_pick(alloc: Global, value: &Value, path: &str) -> Result<Pick, RequestFault>
    ensures { Answers (pick_fault path.now (view value.now)) (λ p. p ≡ pick_in (view value.now)) result }
{
    if has_word(value, "bound") {
        return Ok(Pick::Bound);
    }
    if has_word(value, "depth") {
        return Ok(Pick::Depth);
    }
    Err(shape_here(alloc, path))
}

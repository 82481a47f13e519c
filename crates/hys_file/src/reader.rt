//! A matrix text read as its system.

ghost use Rattle.std.specs.Prelude.{◌≡◌, ◌≤◌, length, IfOk, IfSome};
ghost use Rattle.serde_json.specs.View.{view};
ghost use Rattle.hys_json.specs.Checks.{Judged};
ghost use Rattle.hys_sys.specs.System.{IsSystem};
ghost use Rattle.hys_file.specs.Reading.{matrix_checks, system_in};
ghost use Rattle.hys_file.specs.Texts.{IsRead, IsTextOf, most_bytes};

use crate::fault::{FileFault, of_text, of_value, over_limit};
use crate::guess::guess;
use crate::rules::{keeps_rules, limit_of};
use crate::system::{read_back, read_front, whole};
use crate::writer::write_system;
use hys_json::ValueFault;
use hys_sys::System;
use serde_json::Value;
use std::alloc::Global;

/// The most bytes of a matrix text.
pub const MOST_BYTES: usize = 67108864;

// The system that a JSON value stands for.
#[tactic(auto, using(hys_json::proofs::Judging::fails_first, hys_json::proofs::Judging::fails_second, hys_json::proofs::Judging::none_after_none, crate::proofs::Fronts::has_keys, crate::proofs::Fronts::same_parts))]
fn read_value(alloc: Global, value: &Value) -> Result<System, ValueFault>
    ensures { Judged (matrix_checks (view value.now)) (λ s. s ≡ system_in (view value.now)) result }
{
    let front = read_front(alloc, value)?;
    let back = read_back(alloc, front.columns.items().len() as u64, value)?;
    Ok(whole(front, back))
}

// The system of a text as `write_system` writes it, which is read item by item. The system is guessed, and then judged:
// it keeps all rules, and its own text is this one. None for each other text, and where memory is wanting.
#[tactic(auto, using(crate::proofs::Guessed::stands_for))]
fn read_written(alloc: Global, text: &[u8]) -> Option<System>
    requires { length text.now ≤ most_bytes }
    ensures { IfSome result (IsTextOf text.now) }
{
    let system = guess(alloc, std::str::from_utf8(text).ok()?)?;
    if !keeps_rules(alloc, &system).ok()? {
        return None;
    }
    let written = write_system(alloc, &system).ok()?;
    if written.as_slice() != text {
        return None;
    }
    Some(system)
}

// The system of any text, which is read as one value.
fn read_as_value(alloc: Global, text: &[u8]) -> Result<System, FileFault>
    requires { length text.now ≤ most_bytes }
    ensures read { IsRead text.now result }
    ensures lawful { IfOk result IsSystem }
{
    let value = match Value::from_slice(alloc, text) {
        Ok(value) => value,
        Err(error) => return Err(of_text(&error)),
    };
    let system = match read_value(alloc, &value) {
        Ok(system) => system,
        Err(fault) => return Err(of_value(alloc, fault)),
    };
    match limit_of(&system) {
        Some(what) => Err(over_limit(alloc, what)),
        None => Ok(system),
    }
}

/// The system that a matrix text of version 1 or 2 stands for. The rows of version 1 have empty labels.
///
/// # Errors
///
/// In this order: `Limit` of `bytes` for more than 64 MiB; `Json` where the text is no JSON value;
/// then the first thing that is wrong in the value, the members of an object in byte order of their
/// keys and those of a list by position, and the rules on a value after its members: `Shape` or
/// `Number` with its path; then `Limit` of a `weight` over 5,000, of more `columns` than the weight, and
/// of more `rows` than five times the weight. `Memory` where memory is wanting.
#[tactic(auto, using(crate::proofs::Lawful::lawful, crate::proofs::Outcomes::bytes_refused))]
pub fn read_system(alloc: Global, text: &[u8]) -> Result<System, FileFault>
    ensures read { IsRead text.now result }
    ensures lawful { IfOk result IsSystem }
{
    if text.len() > MOST_BYTES {
        return Err(over_limit(alloc, "bytes"));
    }
    // A text that was written needs no value of the whole, which takes many times its memory.
    match read_written(alloc, text) {
        Some(system) => Ok(system),
        None => read_as_value(alloc, text),
    }
}

//! The words of kinds and roles.

ghost use Rattle.std.specs.Prelude.{◌≡◌};
ghost use Rattle.serde_json.specs.View.{view};
ghost use Rattle.hys_json.specs.Checks.{Judged};
ghost use Rattle.hys_file.specs.Reading.{has_word, kind_in, kind_checks, role_in, role_checks};

use hys_json::{ValueFault, here};
use hys_sys::{ColumnRole, Kind2};
use serde_json::Value;
use std::alloc::Global;

fn has_word(value: &Value, word: &str) -> bool
    ensures { result ≡ has_word word.now (view value.now) }
{
    match value.as_str() {
        Some(text) => text == word,
        None => false,
    }
}

/// The kind of a column or an output.
pub fn read_kind(alloc: Global, value: &Value) -> Result<Kind2, ValueFault>
    ensures { Judged (kind_checks (view value.now)) (λ k. k ≡ kind_in (view value.now)) result }
{
    if has_word(value, "bool") {
        return Ok(Kind2::Bool);
    }
    if has_word(value, "real") {
        return Ok(Kind2::Real);
    }
    Err(here(alloc))
}

/// The role of a column.
pub fn read_role(alloc: Global, value: &Value) -> Result<ColumnRole, ValueFault>
    ensures { Judged (role_checks (view value.now)) (λ r. r ≡ role_in (view value.now)) result }
{
    if has_word(value, "state") {
        return Ok(ColumnRole::State);
    }
    if has_word(value, "input") {
        return Ok(ColumnRole::Input);
    }
    if has_word(value, "d") {
        return Ok(ColumnRole::D);
    }
    if has_word(value, "z") {
        return Ok(ColumnRole::Z);
    }
    Err(here(alloc))
}

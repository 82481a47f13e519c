ghost use Rattle.std.specs.Prelude.{◌≡◌, ◌⊎◌, [], ◌∷◌, IfOk, IsTrue};
ghost use Rattle.serde_json.specs.View.{view};
ghost use Rattle.hys_json.specs.declared.fault.ValueFault.TheVariants.{Shape, Memory};
ghost use Rattle.hys_json.specs.Checks.{Judged};
ghost use Rattle.hys_json.specs.Values.{closed_checks, missing_checks, unknown_checks, is_one_of, has, member_in, lent_keys, entry_keys};

use crate::fault::ValueFault;
use crate::value::here;
use hys_base::{List, Text};
use serde_json::{Map, Value};
use std::alloc::{AllocError, Global};

// The fault of the member under the key.
fn at_key(alloc: Global, key: &str) -> ValueFault
    ensures { (result ≡ Shape (key.now ∷ [])) ⊎ (result ≡ Memory) }
{
    match path_of(alloc, key) {
        Ok(path) => ValueFault::Shape(path),
        Err(_) => ValueFault::Memory,
    }
}

fn path_of(alloc: Global, key: &str) -> Result<List<Text>, AllocError>
    ensures { IfOk result (λ path. path ≡ key.now ∷ []) }
{
    let mut steps = Vec::new(alloc);
    steps.push(Text::of(String::from_str(alloc, key)?))?;
    Ok(List::of(steps))
}

fn has_key(value: &Value, key: &str) -> bool
    ensures { result ≡ has key.now (view value.now) }
{
    value.get(key).is_some()
}

fn check_missing(alloc: Global, value: &Value, keys: &[&str]) -> Result<(), ValueFault>
    ensures { Judged (missing_checks (lent_keys keys.now) (view value.now)) (λ _. Unit {0}) result }
{
    for key in keys {
        if !has_key(value, key) {
            return Err(at_key(alloc, key));
        }
    }
    Ok(())
}

fn is_one_of(keys: &[&str], key: &str) -> bool
    ensures { result ≡ is_one_of (lent_keys keys.now) key.now }
{
    for known in keys {
        if *known == key {
            return true;
        }
    }
    false
}

#[tactic(auto, using(crate::proofs::Readings::members_keys))]
fn check_unknown(
    alloc: Global,
    members: &Map<String, Value>,
    keys: &[&str],
) -> Result<(), ValueFault>
    ensures { Judged (unknown_checks (lent_keys keys.now) (entry_keys members.now.entries)) (λ _. Unit {0}) result }
{
    for key in members.keys() {
        if !is_one_of(keys, key.as_str()) {
            return Err(at_key(alloc, key.as_str()));
        }
    }
    Ok(())
}

/// Whether the value is an object with each of these keys, which are given in byte order, and no
/// other.
pub fn check_keys(alloc: Global, value: &Value, keys: &[&str]) -> Result<(), ValueFault>
    ensures { Judged (closed_checks (lent_keys keys.now) (view value.now)) (λ _. Unit {0}) result }
{
    match value.as_object() {
        Some(members) => {
            match check_missing(alloc, value, keys) {
                Ok(()) => check_unknown(alloc, members, keys),
                Err(fault) => Err(fault),
            }
        }
        None => Err(here(alloc)),
    }
}

/// What stands under a key that the object has.
pub fn member<'v>(value: &'v Value, key: &str) -> &'v Value
    requires { IsTrue (has key.now (view value.now)) }
    ensures { view result.now ≡ member_in key.now (view value.now) }
{
    &value[key]
}

//! Objects from names to fractions.

ghost use Rattle.std.specs.Prelude.{◌≡◌};
ghost use Rattle.serde_json.specs.View.{view, members_view};
ghost use Rattle.hys_json.specs.Values.{fraction_in, is_one_of, keys_of, fits_by, text_in};
ghost use Rattle.hys_frac.specs.Read.{reading};
ghost use Rattle.hys_stack.specs.Reading.{AnswersFault, names_in, pairs_of, shape_fault, number_fault, name_fault, members_fault, named_fault, weight_in};

use crate::fault::RequestFault;
use crate::paths::{number_under, shape_here, shape_under, wrong_name};
use hys_frac::Frac;
use serde_json::{Map, Value};
use std::alloc::Global;

// Whether each value is a string.
fn check_shapes(alloc: Global, members: &Map<String, Value>, path: &str) -> Result<(), RequestFault>
    ensures { AnswersFault (shape_fault path.now (pairs_of (members_view members.now.entries))) result }
{
    for (key, value) in members.iter() {
        if value.as_str().is_none() {
            return Err(shape_under(alloc, path, key.as_str()));
        }
    }
    Ok(())
}

// The text of a string, and else the empty text.
fn text_or_empty(value: &Value) -> &str
    ensures { result.now ≡ text_in (view value.now) }
{
    match value.as_str() {
        Some(text) => text,
        None => "",
    }
}

fn is_fraction(value: &Value) -> bool
    ensures { result ≡ fits_by (reading (text_in (view value.now))) }
{
    match Frac::read(text_or_empty(value).as_bytes()) {
        Ok(_) => true,
        Err(_) => false,
    }
}

fn fraction(value: &Value) -> Frac
    ensures { result ≡ fraction_in (view value.now) }
{
    match Frac::read(text_or_empty(value).as_bytes()) {
        Ok(number) => number,
        Err(_) => Frac::whole(0),
    }
}

// Whether each value is the text of a number that fits.
fn check_numbers(
    alloc: Global,
    members: &Map<String, Value>,
    path: &str,
) -> Result<(), RequestFault>
    ensures { AnswersFault (number_fault path.now (pairs_of (members_view members.now.entries))) result }
{
    for (key, value) in members.iter() {
        if !is_fraction(value) {
            return Err(number_under(alloc, path, key.as_str()));
        }
    }
    Ok(())
}

/// Whether the key is one of the names.
pub fn is_one_of(names: &[&str], key: &str) -> bool
    ensures { result ≡ is_one_of (names_in names.now) key.now }
{
    for name in names {
        if *name == key {
            return true;
        }
    }
    false
}

// Whether each key is one of the names.
#[tactic(auto, using(hys_json::proofs::Readings::members_keys))]
fn check_names(
    alloc: Global,
    members: &Map<String, Value>,
    names: &[&str],
) -> Result<(), RequestFault>
    ensures { AnswersFault (name_fault (names_in names.now) (keys_of (members_view members.now.entries))) result }
{
    for key in members.keys() {
        if !is_one_of(names, key.as_str()) {
            return Err(wrong_name(alloc, key.as_str()));
        }
    }
    Ok(())
}

// Whether the members go from some of the names to fractions.
#[tactic(auto, using(crate::proofs::Judging::or_first, crate::proofs::Judging::or_second, crate::proofs::Judging::some_first, crate::proofs::Judging::some_second, crate::proofs::Judging::answers_third), unfolding(crate::specs::Reading::members_fault))]
fn check_members(
    alloc: Global,
    members: &Map<String, Value>,
    names: &[&str],
    path: &str,
) -> Result<(), RequestFault>
    ensures { AnswersFault (members_fault path.now (names_in names.now) (members_view members.now.entries)) result }
{
    check_shapes(alloc, members, path)?;
    check_numbers(alloc, members, path)?;
    check_names(alloc, members, names)
}

/// Whether the value is an object from some of the names to fractions: first each shape, then each
/// number, then the names.
#[tactic(auto, unfolding(crate::specs::Reading::named_fault))]
pub fn check_named(
    alloc: Global,
    value: &Value,
    names: &[&str],
    path: &str,
) -> Result<(), RequestFault>
    ensures { AnswersFault (named_fault path.now (names_in names.now) (view value.now)) result }
{
    match value.as_object() {
        Some(members) => check_members(alloc, members, names, path),
        None => Err(shape_here(alloc, path)),
    }
}

/// The number under a name, 0 where there is none.
pub fn weight(value: &Value, name: &str) -> Frac
    ensures { result ≡ weight_in (view value.now) name.now }
{
    match value.get(name) {
        Some(number) => fraction(number),
        None => Frac::whole(0),
    }
}

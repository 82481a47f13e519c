//! The readers of starts and weights.

ghost use Rattle.std.specs.Prelude.{◌≡◌, ◌++◌, map, IfOk};
ghost use Rattle.serde_json.specs.View.{view};
ghost use Rattle.hys_frac.specs.Compare.{number_cmp};
ghost use Rattle.hys_number.specs.Ops.{whole};
ghost use Rattle.hys_stack.specs.Requests.{state_columns, is_fresh};
ghost use Rattle.hys_stack.specs.Reading.{Answers, AnswersFault, isnt_greater, is_equal, is_of_kind, is_start, names_in, state_names, own_names, step_names, output_name, unnamed_fault, outside_fault, start_fault, IsStartIn, final_fault, IsFinalIn, step_fault, step_in, IsStepIn, column_weight, output_weight, weight_in};

use crate::boxes::is_state;
use crate::fault::RequestFault;
use crate::named::{check_named, weight};
use crate::paths::{wrong_name, wrong_start};
use hys_frac::{Frac, List};
use hys_sys::{Column, Kind2, Output, System};
use serde_json::Value;
use std::alloc::{AllocError, Global};
use std::cmp::Ordering;

// The names of the states.
fn state_names<'s>(alloc: Global, system: &'s System) -> Result<Vec<&'s str>, AllocError>
    ensures { IfOk result (λ names. names_in names.items ≡ state_names system.now) }
{
    let mut names = Vec::new(alloc);
    for column in system.columns.items() {
        if is_state(column) {
            names.push(column.name.text())?;
        }
    }
    Ok(names)
}

// Whether the text begins with `#`.
fn is_fresh(name: &str) -> bool
    ensures { result ≡ is_fresh name.now }
{
    let bytes = name.as_bytes();
    bytes.len() > 0 && bytes[0] == 35
}

fn push_columns<'s>(names: &mut Vec<&'s str>, columns: &'s [Column]) -> Result<(), AllocError>
    ensures { IfOk result (λ _. names_in names.new.items ≡ names_in names.old.items ++ own_names columns.now) }
{
    for column in columns {
        if !is_fresh(column.name.text()) {
            names.push(column.name.text())?;
        }
    }
    Ok(())
}

fn push_outputs<'s>(names: &mut Vec<&'s str>, outputs: &'s [Output]) -> Result<(), AllocError>
    ensures { IfOk result (λ _. names_in names.new.items ≡
        names_in names.old.items ++ map output_name outputs.now) }
{
    for output in outputs {
        names.push(output.name.text())?;
    }
    Ok(())
}

// The names that weights of a step may have.
fn step_names<'s>(alloc: Global, system: &'s System) -> Result<Vec<&'s str>, AllocError>
    ensures { IfOk result (λ names. names_in names.items ≡ step_names system.now) }
{
    let mut names = Vec::new(alloc);
    push_columns(&mut names, system.columns.items())?;
    push_outputs(&mut names, system.outputs.items())?;
    Ok(names)
}

/// The numbers under the names of the states.
pub fn state_numbers(
    alloc: Global,
    system: &System,
    value: &Value,
) -> Result<List<Frac>, AllocError>
    ensures { IfOk result (λ numbers. numbers ≡ map (weight_in (view value.now)) (state_names system.now)) }
{
    let mut numbers = Vec::new(alloc);
    for column in system.columns.items() {
        if is_state(column) {
            numbers.push(weight(value, column.name.text()))?;
        }
    }
    Ok(List::of(numbers))
}

/// The weights of the states after the last step, 0 for those that aren't given: an object from names
/// of states to fractions. Else, with the path of the value, the first `Shape`, then the first
/// `Number`, then `Name` with the first name in byte order that is none of a state.
#[tactic(auto, unfolding(crate::specs::Reading::final_fault))]
pub fn read_final(
    alloc: Global,
    system: &System,
    value: &Value,
    path: &str,
) -> Result<List<Frac>, RequestFault>
    ensures { Answers (final_fault path.now system.now (view value.now))
        (IsFinalIn system.now (view value.now)) result }
{
    let names = state_names(alloc, system)?;
    check_named(alloc, value, &names, path)?;
    Ok(state_numbers(alloc, system, value)?)
}

// The weights of the columns; those whose names begin with `#` have none.
fn column_weights(
    alloc: Global,
    columns: &[Column],
    value: &Value,
) -> Result<List<Frac>, AllocError>
    ensures { IfOk result (λ ws. ws ≡ map (column_weight (view value.now)) columns.now) }
{
    let mut weights = Vec::new(alloc);
    for column in columns {
        weights.push(column_weight(column, value))?;
    }
    Ok(List::of(weights))
}

fn column_weight(column: &Column, value: &Value) -> Frac
    ensures { result ≡ column_weight (view value.now) column.now }
{
    if is_fresh(column.name.text()) {
        return Frac::whole(0);
    }
    weight(value, column.name.text())
}

fn output_weights(
    alloc: Global,
    outputs: &[Output],
    value: &Value,
) -> Result<List<Frac>, AllocError>
    ensures { IfOk result (λ ws. ws ≡ map (output_weight (view value.now)) outputs.now) }
{
    let mut weights = Vec::new(alloc);
    for output in outputs {
        weights.push(weight(value, output.name.text()))?;
    }
    Ok(List::of(weights))
}

/// The weights of the columns, and those of the outputs.
pub fn step_weights(
    alloc: Global,
    system: &System,
    value: &Value,
) -> Result<(List<Frac>, List<Frac>), AllocError>
    ensures { IfOk result (λ ws. ws ≡ step_in system.now (view value.now)) }
{
    let columns = column_weights(alloc, system.columns.items(), value)?;
    let outputs = output_weights(alloc, system.outputs.items(), value)?;
    Ok((columns, outputs))
}

/// The weights of the columns and of the outputs at each step, 0 for those that aren't given: an
/// object from names of columns, but for those that begin with `#`, and of outputs to fractions. Else
/// the faults of `read_final`.
#[tactic(auto, unfolding(crate::specs::Reading::step_fault))]
pub fn read_step(
    alloc: Global,
    system: &System,
    value: &Value,
    path: &str,
) -> Result<(List<Frac>, List<Frac>), RequestFault>
    ensures { Answers (step_fault path.now system.now (view value.now))
        (IsStepIn system.now (view value.now)) result }
{
    let names = step_names(alloc, system)?;
    check_named(alloc, value, &names, path)?;
    Ok(step_weights(alloc, system, value)?)
}

// Whether the object has each of the names.
fn check_all_named(alloc: Global, value: &Value, names: &[&str]) -> Result<(), RequestFault>
    ensures { AnswersFault (unnamed_fault (names_in names.now) (view value.now)) result }
{
    for name in names {
        if value.get(*name).is_none() {
            return Err(wrong_name(alloc, *name));
        }
    }
    Ok(())
}

fn is_at_most(low: Frac, high: Frac) -> bool
    ensures { result ≡ isnt_greater (number_cmp low high) }
{
    match Ord::cmp(&low, &high) {
        Ordering::Less | Ordering::Equal => true,
        Ordering::Greater => false,
    }
}

fn is_whole(number: Frac, other: u32) -> bool
    ensures { result ≡ is_equal (number_cmp number (whole other)) }
{
    matches!(Ord::cmp(&number, &Frac::whole(other)), Ordering::Equal)
}

fn is_of_kind(kind: Kind2, number: Frac) -> bool
    ensures { result ≡ is_of_kind kind number }
{
    match kind {
        Kind2::Real => true,
        Kind2::Bool => is_whole(number, 0) || is_whole(number, 1),
    }
}

// Whether the state may start from the number.
fn is_start(column: &Column, number: Frac) -> bool
    ensures { result ≡ is_start column.now number }
{
    is_at_most(column.bounds.low, number)
        && (is_at_most(number, column.bounds.high) && is_of_kind(column.kind, number))
}

// Whether each state may start from the number under its name.
fn check_inside(alloc: Global, columns: &[Column], value: &Value) -> Result<(), RequestFault>
    ensures { AnswersFault (outside_fault (state_columns columns.now) (view value.now)) result }
{
    for column in columns {
        if is_state(column) && !is_start(column, weight(value, column.name.text())) {
            return Err(wrong_start(alloc, column.name.text()));
        }
    }
    Ok(())
}

/// The number that each state starts from: an object from the names of all states to fractions. Else
/// the faults of `read_final`; then `Name` with the first state, in their order, that isn't given; then
/// `Start` with the first that is outside its box, or is Boolean and isn't 0 or 1.
#[tactic(auto, using(crate::proofs::Judging::or_first, crate::proofs::Judging::or_second, crate::proofs::Judging::or_third, crate::proofs::Judging::some_first, crate::proofs::Judging::some_second, crate::proofs::Judging::some_third, crate::proofs::Judging::none_of_three), unfolding(crate::specs::Reading::start_fault))]
pub fn read_start(
    alloc: Global,
    system: &System,
    value: &Value,
    path: &str,
) -> Result<List<Frac>, RequestFault>
    ensures { Answers (start_fault path.now system.now (view value.now))
        (IsStartIn system.now (view value.now)) result }
{
    let names = state_names(alloc, system)?;
    check_named(alloc, value, &names, path)?;
    check_all_named(alloc, value, &names)?;
    check_inside(alloc, system.columns.items(), value)?;
    Ok(state_numbers(alloc, system, value)?)
}

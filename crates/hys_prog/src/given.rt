ghost use Rattle.std.specs.Prelude.{◌≡◌, ◌<◌, ◌^◌, suc, map, IfOk};
ghost use Rattle.hys_lin.specs.Sums.{at};
ghost use Rattle.hys_prog.specs.Steps.{places_from};
ghost use Rattle.hys_prog.specs.Stops.{Judged, box_checks, boxes_from};
ghost use Rattle.hys_prog.specs.Walk.{is_role as is_role_of, advanced, first_value as first_value_of, given_checks, started};

use crate::number::{in_box, number_at};
use crate::program::{Name, Role};
use crate::stop::{StepFault, Stop};
use hys_frac::Frac;
use std::alloc::{AllocError, Global};

// The values of the names at first, where the states and the inputs lie in their bounds.
pub fn given(
    alloc: Global,
    names: &[Name],
    state: &[Frac],
    input: &[Frac],
) -> Result<Vec<Frac>, StepFault>
    ensures value { IfOk result (λ vs. vs.items ≡ started names.now state.now input.now) }
    ensures judged { Judged (given_checks names.now (started names.now state.now input.now)) result }
{
    let values = start(alloc, names, state, input)?;
    match judge_given(names, &values) {
        Ok(_) => Ok(values),
        Err(fault) => Err(fault),
    }
}

// The values of the names at first: the given ones of states and inputs, in their order, and those
// of parameters.
fn start(
    alloc: Global,
    names: &[Name],
    state: &[Frac],
    input: &[Frac],
) -> Result<Vec<Frac>, AllocError>
    ensures { IfOk result (λ vs. vs.items ≡ started names.now state.now input.now) }
{
    let mut values = Vec::new(alloc);
    let mut states = 0usize;
    let mut inputs = 0usize;
    for name in names {
        values.push(first_value(name, number_at(state, states), number_at(input, inputs)))?;
        states = advance(states, name.role, Role::State);
        inputs = advance(inputs, name.role, Role::Input);
    }
    Ok(values)
}

// The value of the name at first, where `state` and `input` are the next given ones.
fn first_value(name: &Name, state: Frac, input: Frac) -> Frac
    ensures { result ≡ first_value_of name.now.role name.now state input }
{
    match name.role {
        Role::State => state,
        Role::Input => input,
        Role::Output => Frac::whole(0),
        Role::Parameter => name.value,
        Role::Aux => Frac::whole(0),
    }
}

// One more where the role is that of the part.
fn advance(count: usize, role: Role, part: Role) -> usize
    requires { suc count < 2 ^ 64 }
    ensures { result ≡ advanced count (is_role_of part role) }
{
    if is_role(role, part) {
        return count + 1;
    }
    count
}

fn is_role(role: Role, part: Role) -> bool
    ensures { result ≡ is_role_of part role }
{
    role == part
}

/// The places of the names of the role, in order of declaration.
pub fn places_of(alloc: Global, names: &[Name], part: Role) -> Result<Vec<usize>, AllocError>
    ensures { IfOk result (λ ns. ns.items ≡ places_from 0 (is_role_of part) names.now) }
{
    let mut places = Vec::new(alloc);
    for (n, name) in names.iter().enumerate() {
        if is_role(name.role, part) {
            places.push(n)?;
        }
    }
    Ok(places)
}

// The values of the names at the places.
pub fn values_at(alloc: Global, places: &[usize], values: &[Frac]) -> Result<Vec<Frac>, AllocError>
    ensures { IfOk result (λ r. r.items ≡ map (at values.now) places.now) }
{
    let mut numbers = Vec::new(alloc);
    for place in places {
        numbers.push(number_at(values, *place))?;
    }
    Ok(numbers)
}

// Each state, and then each input, is in its bounds.
fn judge_given(names: &[Name], values: &[Frac]) -> Result<(), StepFault>
    ensures { Judged (given_checks names.now values.now) result }
{
    match judge_boxes(names, Role::State, values) {
        Ok(_) => judge_boxes(names, Role::Input, values),
        Err(fault) => Err(fault),
    }
}

// Each name of the role is in its bounds.
fn judge_boxes(names: &[Name], part: Role, values: &[Frac]) -> Result<(), StepFault>
    ensures { Judged (boxes_from 0 (is_role_of part) (at values.now) names.now) result }
{
    for (n, name) in names.iter().enumerate() {
        match judge_box(n, name, part, values) {
            Ok(_) => {}
            Err(fault) => return Err(fault),
        }
    }
    Ok(())
}

// The name is in its bounds, where it has the role.
fn judge_box(n: usize, name: &Name, part: Role, values: &[Frac]) -> Result<(), StepFault>
    ensures { Judged (box_checks (is_role_of part) n name.now (at values.now n)) result }
{
    if !is_role(name.role, part) {
        return Ok(());
    }
    if in_box(name, number_at(values, n)) {
        return Ok(());
    }
    match u32::try_from(n) {
        Ok(id) => Err(StepFault::Stop(Stop::Bounds(id))),
        Err(_) => Err(StepFault::Memory),
    }
}

ghost use Rattle.std.specs.Prelude.{◌≡◌, length, map, IfOk};
ghost use Rattle.hys_lin.specs.Sums.{at};
ghost use Rattle.hys_prog.specs.Programs.{IsProgram};
ghost use Rattle.hys_prog.specs.Orders.{IsOrder};
ghost use Rattle.hys_prog.specs.Steps.{places, is_auxiliary, is_input, is_output, is_state};
ghost use Rattle.hys_prog.specs.Stops.{GivenWhere, IsStepped, Judged, JudgedByStops, part_checks, part_numbers};
ghost use Rattle.hys_prog.specs.Fitting.{FittingStep};
ghost use Rattle.hys_prog.specs.Walk.{ArePlaced, Gives, after_checks, exact, is_role, walk_checks};

use crate::along::{defined, found, judge_demands};
use crate::definition::definitions;
use crate::given::{given, places_of, values_at};
use crate::program::{Order, Program, Role};
use crate::stop::{StepFault, Stepped};
use hys_frac::{Frac, List};
use std::alloc::{AllocError, Global};

/// One step of the program from the values of its states and inputs, which stand in declaration
/// order. Over the assignment that has these values and those of the definitions, in exact numbers,
/// the answer is a legal step with the next values and the outputs, and there is one exactly where there
/// is a legal step all of whose partial values fit.
///
/// # Errors
/// `Stop` with the first of these, and with none where none stands: a state and then an input
/// outside its bounds; for each auxiliary in the order of definition a number that doesn't fit, and
/// then a gap; for each demand in source order a number that doesn't fit, and then that it doesn't
/// hold; a number of the next values, and then of the outputs, that doesn't fit. `Memory` where
/// memory is wanting, as it is for more names or items than a `u32` can number.
pub fn step(
    alloc: Global,
    program: &Program,
    order: &Order,
    state: &[Frac],
    input: &[Frac],
) -> Result<Stepped, StepFault>
    requires program { IsProgram program.now }
    requires order { IsOrder program.now order.now }
    requires states { length state.now ≡ length (places is_state program.now) }
    requires inputs { length input.now ≡ length (places is_input program.now) }
    ensures stop { JudgedByStops program.now order.now state.now input.now result }
    ensures legal { GivenWhere (FittingStep program.now state.now input.now) result }
    ensures done { IfOk result (λ r. IsStepped program.now state.now input.now r) }
{
    walk(alloc, program, order, state, input)
}

// The step, by the values of the names along the order.
fn walk(
    alloc: Global,
    program: &Program,
    order: &Order,
    state: &[Frac],
    input: &[Frac],
) -> Result<Stepped, StepFault>
    requires program { IsProgram program.now }
    requires order { IsOrder program.now order.now }
    ensures gives { IfOk result (λ r. Gives program.now (at (exact program.now order.now state.now input.now)) r) }
    ensures judged { Judged (walk_checks program.now order.now state.now input.now) result }
{
    let places = definitions(alloc, program)?;
    let items = program.items.items();
    let start = match given(alloc, program.names.items(), state, input) {
        Ok(start) => start,
        Err(fault) => return Err(fault),
    };
    let values = match found(items, &places, order.names.items(), start) {
        Ok(values) => values,
        Err(fault) => return Err(fault),
    };
    after(alloc, program, &places, &values)
}

// What the values give, where the demands hold.
fn after(
    alloc: Global,
    program: &Program,
    places: &[usize],
    values: &[Frac],
) -> Result<Stepped, StepFault>
    requires states { ArePlaced is_state program.now places.now }
    requires outputs { ArePlaced is_output program.now places.now }
    ensures gives { IfOk result (λ r. Gives program.now (at values.now) r) }
    ensures judged { Judged (after_checks program.now values.now) result }
{
    match judge_demands(program.items.items(), values) {
        Ok(_) => {}
        Err(fault) => return Err(fault),
    }
    let next = match numbers(alloc, program, places, Role::State, values) {
        Ok(next) => next,
        Err(fault) => return Err(fault),
    };
    let outputs = match numbers(alloc, program, places, Role::Output, values) {
        Ok(outputs) => outputs,
        Err(fault) => return Err(fault),
    };
    Ok(Stepped {
        aux: List::of(auxiliaries(alloc, program, values)?),
        outputs: List::of(outputs),
        next: List::of(next),
    })
}

// The numbers that their definitions give to the names of the role.
fn numbers(
    alloc: Global,
    program: &Program,
    places: &[usize],
    part: Role,
    values: &[Frac],
) -> Result<Vec<Frac>, StepFault>
    requires { ArePlaced (is_role part) program.now places.now }
    ensures value { IfOk result (λ r. r.items ≡ part_numbers (is_role part) program.now (at values.now)) }
    ensures judged { Judged (part_checks (is_role part) program.now (at values.now)) result }
{
    let names = places_of(alloc, program.names.items(), part)?;
    defined(alloc, program.items.items(), places, &names, values)
}

// The values of the auxiliaries.
fn auxiliaries(alloc: Global, program: &Program, values: &[Frac]) -> Result<Vec<Frac>, AllocError>
    ensures { IfOk result (λ r. r.items ≡ map (at values.now) (places is_auxiliary program.now)) }
{
    let names = places_of(alloc, program.names.items(), Role::Aux)?;
    values_at(alloc, &names, values)
}

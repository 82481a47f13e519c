ghost use Rattle.std.specs.Prelude.{◌≡◌, Option, length, IfOk};
ghost use Rattle.hys_prog.specs.Programs.{IsProgram};
ghost use Rattle.hys_prog.specs.Orders.{IsOrder};
ghost use Rattle.hys_prog.specs.Steps.{places as places_with, is_input, is_state};
ghost use Rattle.hys_sim.specs.Simulations.{IsRunOf};
ghost use Rattle.hys_sim.specs.Written.{last_text};
ghost use Rattle.std.specs.Prelude.{◌++◌};
ghost use Rattle.hys_sim.specs.Tables.{data_at};

use crate::fault::Simulated;
use crate::header::number_after;
use crate::records::{data_reader, next};
use crate::values::values_at;
use crate::writing::{header, write_last, write_transition};
use csv::ByteRecord;
use hys_base::List;
use hys_frac::Frac;
use hys_prog::{Order, Program, StepFault, Stop, step};
use std::alloc::{AllocError, Global};

/// The run of the program from the state through the inputs that the records after the header have
/// at the places.
#[tactic(auto, using(crate::proofs::Running::so_far_none))]
pub fn run(
    alloc: Global,
    program: &Program,
    order: &Order,
    start: Vec<Frac>,
    places: &[usize],
    text: &[u8],
) -> Result<Simulated, AllocError>
    requires program { IsProgram program.now }
    requires order { IsOrder program.now order.now }
    requires states { length start.items ≡ length (places_with is_state program.now) }
    requires inputs { length places.now ≡ length (places_with is_input program.now) }
    ensures { IfOk result (λ r. IsRunOf program.now order.now start.items (data_at places.now text.now) r) }
{
    let mut reader = data_reader(alloc, text)?;
    let mut row = ByteRecord::new(alloc);
    let mut table = header(alloc, program)?;
    let mut steps = 0u32;
    let mut state = start;
    'records: while next(&mut reader, &mut row)? {
        let input = values_at(alloc, places, &row)?;
        let stepped = match step(alloc, program, order, &state, &input) {
            Ok(stepped) => stepped,
            Err(StepFault::Stop(stop)) => {
                return ended(alloc, program, table, steps, &state, Some(stop));
            }
            Err(StepFault::Memory) => return Err(AllocError),
        };
        write_transition(alloc, &mut table, steps, &state, &input, &stepped)?;
        steps = number_after(steps)?;
        state = stepped.next.into_vec();
    }
    ended(alloc, program, table, steps, &state, None)
}

// The run that ends at the state.
fn ended(
    alloc: Global,
    program: &Program,
    table: Vec<u8>,
    steps: u32,
    state: &[Frac],
    stop: Option<Stop>,
) -> Result<Simulated, AllocError>
    ensures table { IfOk result (λ r. r.table ≡ table.items ++ last_text program.now steps state.now) }
    ensures steps { IfOk result (λ r. r.steps ≡ steps) }
    ensures stop { IfOk result (λ r. r.stop ≡ stop) }
{
    let mut table = table;
    write_last(alloc, &mut table, program, steps, state)?;
    Ok(Simulated {
        table: List::of(table),
        steps,
        stop,
    })
}

ghost use Rattle.std.specs.Prelude.{IfOk};
ghost use Rattle.hys_prog.specs.Programs.{IsProgram};
ghost use Rattle.hys_prog.specs.Orders.{IsOrder};
ghost use Rattle.hys_sim.specs.Checks.{Judged};
ghost use Rattle.hys_sim.specs.Simulations.{IsSimulated};
ghost use Rattle.hys_sim.specs.Tables.{table_checks};

use crate::fault::{SimFault, Simulated};
use crate::runs::run;
use crate::table::{input_places, start_state};
use hys_prog::{Order, Program};
use std::alloc::Global;

/// The run of the program from the state of a CSV table through the inputs of another, as a third.
///
/// The first record of a table is its header: `step`, and then the names of the states or of the
/// inputs, in any order. The start has one record, of step 0, and the inputs have one for each step,
/// from 0 on. Spaces and tabs round a field aren't part of it. The run goes on up to the first step
/// that isn't legal or has a partial value that doesn't fit, or to the end of the inputs. Its table
/// has the columns `step`, states, inputs, auxiliaries and outputs in declaration order, a record
/// for each legal step, and a last one with the number of steps and the state that is reached.
///
/// # Errors
/// The first fault of the table of the start, and then of that of the inputs, each in this order:
/// `Csv`, `Column`, `Rows` or `Limit`, `Value`. `Memory` where memory is wanting, as it is for more
/// records or steps than a `u32` can number.
#[tactic(auto, using(crate::proofs::Judging::fails_first, crate::proofs::Judging::fails_second, crate::proofs::Judging::none_after_none))]
pub fn simulate(
    alloc: Global,
    program: &Program,
    order: &Order,
    start: &[u8],
    inputs: &[u8],
) -> Result<Simulated, SimFault>
    requires program { IsProgram program.now }
    requires order { IsOrder program.now order.now }
    ensures judged { Judged (table_checks program.now start.now inputs.now) result }
    ensures simulated { IfOk result (λ r. IsSimulated program.now order.now start.now inputs.now r) }
{
    let state = match start_state(alloc, program, start) {
        Ok(state) => state,
        Err(fault) => return Err(fault),
    };
    let places = match input_places(alloc, program, inputs) {
        Ok(places) => places,
        Err(fault) => return Err(fault),
    };
    match run(alloc, program, order, state, &places, inputs) {
        Ok(simulated) => Ok(simulated),
        Err(_) => Err(SimFault::Memory),
    }
}

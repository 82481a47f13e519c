ghost use Rattle.std.specs.Prelude.{◌≡◌, ◌∷◌, [], length, IfOk};
ghost use Rattle.hys_prog.specs.Steps.{is_input, is_state, places as places_with};
ghost use Rattle.hys_sim.specs.Checks.{Judged};
ghost use Rattle.hys_sim.specs.Tables.{inputs_checks, inputs_counts, start_checks, start_counts, data_at, role_places, role_values, table_data};

use crate::fault::{SimFault, Which};
use crate::header::head_of;
use crate::names::{names_of, variables};
use crate::records::{data_reader, next};
use crate::values::{judge_records, values_at};
use csv::ByteRecord;
use hys_frac::Frac;
use hys_prog::{Program, Role};
use std::alloc::{AllocError, Global};

const MOST_VALUES: u128 = 1_000_000;

/// The state that the table of the start stands for.
#[tactic(auto, using(crate::proofs::Judging::fails_first, crate::proofs::Judging::fails_second, crate::proofs::Judging::fails_third, crate::proofs::Judging::none_after_none, crate::proofs::Judging::none_of_three, crate::proofs::Starting::one_start, crate::proofs::Starting::place_count))]
pub fn start_state(alloc: Global, program: &Program, text: &[u8]) -> Result<Vec<Frac>, SimFault>
    ensures judged { Judged (start_checks program.now text.now) result }
    ensures value { IfOk result (λ x. role_values is_state program.now text.now ≡ x.items ∷ []) }
    ensures count { IfOk result (λ x. length x.items ≡ length (places_with is_state program.now)) }
{
    let names = names_of(alloc, program, Role::State)?;
    let head = match head_of(alloc, Which::Start, &names, text) {
        Ok(head) => head,
        Err(fault) => return Err(fault),
    };
    judge_start_count(head.count)?;
    match judge_records(alloc, Which::Start, &head.layout.kinds, text) {
        Ok(_) => {}
        Err(fault) => return Err(fault),
    }
    Ok(first_values(alloc, &head.layout.places, text)?)
}

// The numbers at the places of the first record after the header.
#[tactic(auto, using(crate::proofs::Starting::only_values, crate::proofs::Starting::value_count))]
fn first_values(alloc: Global, places: &[usize], text: &[u8]) -> Result<Vec<Frac>, AllocError>
    ensures value { IfOk result (λ x. length (table_data text.now) ≡ 1 → data_at places.now text.now ≡ x.items ∷ []) }
    ensures count { IfOk result (λ x. length x.items ≡ length places.now) }
{
    let mut reader = data_reader(alloc, text)?;
    let mut row = ByteRecord::new(alloc);
    let _found = next(&mut reader, &mut row)?;
    values_at(alloc, places, &row)
}

/// The places of the inputs' columns in a table, where it is one of inputs.
#[tactic(auto, using(crate::proofs::Judging::fails_first, crate::proofs::Judging::fails_second, crate::proofs::Judging::fails_third, crate::proofs::Judging::none_after_none, crate::proofs::Judging::none_of_three, crate::proofs::Starting::place_count))]
pub fn input_places(alloc: Global, program: &Program, text: &[u8]) -> Result<Vec<usize>, SimFault>
    ensures judged { Judged (inputs_checks program.now text.now) result }
    ensures places { IfOk result (λ ns. ns.items ≡ role_places is_input program.now text.now) }
    ensures count { IfOk result (λ ns. length ns.items ≡ length (places_with is_input program.now)) }
{
    let names = names_of(alloc, program, Role::Input)?;
    let head = match head_of(alloc, Which::Inputs, &names, text) {
        Ok(head) => head,
        Err(fault) => return Err(fault),
    };
    judge_input_count(program, head.count)?;
    match judge_records(alloc, Which::Inputs, &head.layout.kinds, text) {
        Ok(_) => {}
        Err(fault) => return Err(fault),
    }
    Ok(head.layout.places)
}

// A start has one record.
fn judge_start_count(count: u32) -> Result<(), SimFault>
    ensures { Judged (start_counts count) result }
{
    if count < 1 {
        return Err(SimFault::Rows(Which::Start, 1));
    }
    if count > 1 {
        return Err(SimFault::Rows(Which::Start, 2));
    }
    Ok(())
}

// The records times the names that aren't parameters are at most a million.
fn judge_input_count(program: &Program, count: u32) -> Result<(), SimFault>
    ensures { Judged (inputs_counts program.now count) result }
{
    if count as u128 * variables(program) as u128 <= MOST_VALUES {
        return Ok(());
    }
    Err(SimFault::Limit)
}

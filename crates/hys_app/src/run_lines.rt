//! The lines of `sim`: why a table is refused, and how a run went.

ghost use Rattle.std.specs.Prelude.{◌≡◌, [], map, slice_index_or, None, IfOk, string_bytes};
ghost use Rattle.hys_app.specs.Lines as lines;

use crate::lines::describe_lost;
use hys_ast::Place;
use hys_lin::Lost;
use hys_prog::{Name, ProgItem, Program, Stop};
use hys_sim::{SimFault, Which};
use std::alloc::{AllocError, Global};

// The record of a table that isn't as long as its header.
fn describe_csv(alloc: Global, number: u32) -> Result<String, AllocError>
    ensures { IfOk result (λ s. string_bytes s ≡ lines.csv_words number) }
{
    format!(in alloc; "csv {number}")
}

fn describe_rows(alloc: Global, number: u32) -> Result<String, AllocError>
    ensures { IfOk result (λ s. string_bytes s ≡ lines.rows_words number) }
{
    format!(in alloc; "rows {number}")
}

fn describe_column(alloc: Global, name: &str) -> Result<String, AllocError>
    ensures { IfOk result (λ s. string_bytes s ≡ lines.column_words name.now) }
{
    format!(in alloc; "column {name}")
}

fn describe_value(alloc: Global, number: u32, field: u32) -> Result<String, AllocError>
    ensures { IfOk result (λ s. string_bytes s ≡ lines.value_words number field) }
{
    format!(in alloc; "value {number} {field}")
}

/// Why a table is refused.
#[tactic(auto, unfolding(crate::specs::Lines::table_words))]
pub fn describe_table(alloc: Global, fault: &SimFault) -> Result<String, AllocError>
    ensures { IfOk result (λ s. string_bytes s ≡ lines.table_words fault.now) }
{
    match fault {
        SimFault::Csv(_, number) => describe_csv(alloc, *number),
        SimFault::Rows(_, number) => describe_rows(alloc, *number),
        SimFault::Column(_, name) => describe_column(alloc, name.text()),
        SimFault::Value(_, number, field) => describe_value(alloc, *number, *field),
        SimFault::Limit => String::from_str(alloc, "limit"),
        SimFault::Memory => Ok(String::new(alloc)),
    }
}

fn pick_table<'a>(which: Which, start: &'a str, inputs: &'a str) -> &'a str
    ensures { result.now ≡ lines.pick_table which start.now inputs.now }
{
    match which {
        Which::Start => start,
        Which::Inputs => inputs,
    }
}

/// The name of the table that is refused.
pub fn name_table<'a>(fault: &SimFault, start: &'a str, inputs: &'a str) -> &'a str
    ensures { result.now ≡ lines.faulty_table fault.now start.now inputs.now }
{
    match fault {
        SimFault::Csv(which, _) => pick_table(*which, start, inputs),
        SimFault::Rows(which, _) => pick_table(*which, start, inputs),
        SimFault::Column(which, _) => pick_table(*which, start, inputs),
        SimFault::Value(which, _, _) => pick_table(*which, start, inputs),
        SimFault::Limit => inputs,
        SimFault::Memory => inputs,
    }
}

// The text of the name at the place.
fn name_at(names: &[Name], place: usize) -> &str
    ensures { result.now ≡ lines.name_at names.now place }
{
    match names.get(place) {
        Some(name) => name.text.text(),
        None => "",
    }
}

// The name that an item defines.
fn defined(items: &[ProgItem], place: usize) -> Option<u32>
    ensures { result ≡ slice_index_or (map (λ t. t.name) items.now) place None }
{
    match items.get(place) {
        Some(item) => item.name,
        None => None,
    }
}

fn item_name(program: &Program, place: usize) -> &str
    ensures { result.now ≡ lines.item_name program.now place }
{
    match defined(program.items.items(), place) {
        Some(name) => name_at(program.names.items(), name as usize),
        None => "",
    }
}

fn place_of(items: &[ProgItem], place: usize) -> Place
    ensures { result ≡ slice_index_or (map (λ t. t.place) items.now) place lines.start_of_text }
{
    match items.get(place) {
        Some(item) => item.place,
        None => Place {
            byte: 0,
            line: 1,
            col: 1,
        },
    }
}

#[tactic(auto, unfolding(crate::specs::Lines::stopped_line))]
fn describe_bounds(alloc: Global, steps: u32, name: &str) -> Result<String, AllocError>
    ensures { IfOk result (λ s. string_bytes s ≡ lines.stopped_line steps (lines.bounds_words name.now)) }
{
    format!(in alloc; "stopped at step {steps}: bounds {name}\n")
}

#[tactic(auto, unfolding(crate::specs::Lines::stopped_line))]
fn describe_gap(alloc: Global, steps: u32, name: &str) -> Result<String, AllocError>
    ensures { IfOk result (λ s. string_bytes s ≡ lines.stopped_line steps (lines.gap_words name.now)) }
{
    format!(in alloc; "stopped at step {steps}: gap {name}\n")
}

fn describe_demand(alloc: Global, place: Place) -> Result<String, AllocError>
    ensures { IfOk result (λ s. string_bytes s ≡ lines.must_words place) }
{
    let line = place.line;
    let col = place.col;
    format!(in alloc; "must {line}:{col}")
}

#[tactic(auto, unfolding(crate::specs::Lines::stopped_line))]
fn describe_must(alloc: Global, steps: u32, place: Place) -> Result<String, AllocError>
    ensures { IfOk result (λ s. string_bytes s ≡ lines.stopped_line steps (lines.must_words place)) }
{
    let demand = describe_demand(alloc, place)?;
    format!(in alloc; "stopped at step {steps}: {demand}\n")
}

#[tactic(auto, unfolding(crate::specs::Lines::overflow_line))]
fn describe_overflow(alloc: Global, steps: u32, lost: Lost) -> Result<String, AllocError>
    ensures { IfOk result (λ s. string_bytes s ≡ lines.overflow_line steps lost) }
{
    let operands = describe_lost(alloc, lost)?;
    format!(in alloc; "range at step {steps}: {operands}\n")
}

#[tactic(auto, unfolding(crate::specs::Lines::simulated_line))]
fn describe_steps(alloc: Global, steps: u32) -> Result<String, AllocError>
    ensures { IfOk result (λ s. string_bytes s ≡ lines.simulated_line steps) }
{
    format!(in alloc; "simulated: {steps} steps\n")
}

// What stopped the step after so many.
#[tactic(auto, unfolding(crate::specs::Lines::stop_line))]
fn describe_stop(
    alloc: Global,
    program: &Program,
    steps: u32,
    stop: Stop,
) -> Result<String, AllocError>
    ensures { IfOk result (λ s. string_bytes s ≡ lines.stop_line program.now steps stop) }
{
    match stop {
        Stop::Bounds(name) => {
            describe_bounds(alloc, steps, name_at(program.names.items(), name as usize))
        }
        Stop::Gap(item) => describe_gap(alloc, steps, item_name(program, item as usize)),
        Stop::Must(item) => {
            describe_must(alloc, steps, place_of(program.items.items(), item as usize))
        }
        Stop::Range(_, lost) => describe_overflow(alloc, steps, lost),
    }
}

/// How a run of so many steps went.
#[tactic(auto, unfolding(crate::specs::Lines::run_line))]
pub fn describe_run(
    alloc: Global,
    program: &Program,
    steps: u32,
    stop: Option<Stop>,
) -> Result<String, AllocError>
    ensures { IfOk result (λ s. string_bytes s ≡ lines.run_line program.now steps stop) }
{
    match stop {
        None => describe_steps(alloc, steps),
        Some(stop) => describe_stop(alloc, program, steps, stop),
    }
}

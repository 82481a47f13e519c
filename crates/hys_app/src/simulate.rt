ghost use Rattle.std.specs.Prelude.{◌≡◌, ◌≢◌, ◌≤◌, IfOk};
ghost use Rattle.hys_number.specs.Ops.{◌<ₙ◌, whole};
ghost use Rattle.hys_prog.specs.Programs.{IsProgram};
ghost use Rattle.hys_prog.specs.Orders.{IsOrder};
ghost use Rattle.hys_sim.specs.declared.fault.SimFault.TheVariants.{Memory};
ghost use Rattle.hys_app.specs.Words.{sim};
ghost use Rattle.hys_app.specs.Simulating.{putting_run, refusing_table, run_status as status_of, IsRunOutcome, RunsInputs, RunsTables};
ghost use Rattle.hys_app.specs.Commands.{Obeys};

use crate::file_lines::describe_file;
use crate::outcome::{NewFile, Outcome};
use crate::run_lines::{describe_run, describe_table, name_table};
use crate::source::read_source;
use crate::stage::Stage;
use crate::status::Status;
use crate::tables::read_table;
use hys_base::{List, Text};
use hys_compile::Compiled;
use hys_frac::Frac;
use hys_io::Files;
use hys_prog::{Program, Stop};
use hys_sim::{SimFault, Simulated, simulate};
use std::alloc::{AllocError, Global};

// The outcome where a table is refused. Want of memory is no refusal.
fn report_tables(
    alloc: Global,
    start: &str,
    inputs: &str,
    fault: &SimFault,
) -> Result<Outcome, AllocError>
    ensures said { IfOk result (λ o. o ≡ refusing_table start.now inputs.now fault.now) }
    ensures known { IfOk result (λ o. fault.now ≢ Memory) }
{
    if matches!(fault, SimFault::Memory) {
        return Err(AllocError);
    }
    let words = describe_table(alloc, fault)?;
    let name = name_table(fault, start, inputs);
    Ok(Outcome {
        status: Status::Input,
        line: List::of(describe_file(alloc, name, words.as_str())?.into_bytes()),
        file: None,
    })
}

fn run_status(stop: Option<Stop>) -> Status
    ensures { result ≡ status_of stop }
{
    match stop {
        None => Status::Done,
        Some(Stop::Bounds(_)) => Status::Stopped,
        Some(Stop::Gap(_)) => Status::Stopped,
        Some(Stop::Must(_)) => Status::Stopped,
        Some(Stop::Range(_, _)) => Status::Range,
    }
}

// The outcome where the tables stand for a run.
fn report_run(
    alloc: Global,
    program: &Program,
    run: Simulated,
    target: &str,
) -> Result<Outcome, AllocError>
    ensures { IfOk result (λ o. o ≡ putting_run target.now program.now run) }
{
    let line = List::of(describe_run(alloc, program, run.steps, run.stop)?.into_bytes());
    let name = Text::of(String::from_str(alloc, target)?);
    Ok(Outcome {
        status: run_status(run.stop),
        line,
        file: Some(NewFile {
            name,
            bytes: run.table,
        }),
    })
}

// Runs the program over the tables.
#[tactic(auto, using(crate::proofs::Simulating::tables_refused, crate::proofs::Simulating::tables_run))]
fn run_tables(
    alloc: Global,
    compiled: &Compiled,
    start: &str,
    inputs: &str,
    target: &str,
    first: &[u8],
    others: &[u8],
) -> Result<Outcome, AllocError>
    requires program { IsProgram compiled.now.program }
    requires order { IsOrder compiled.now.program compiled.now.order }
    ensures { IfOk result (IsRunOutcome compiled.now start.now inputs.now target.now first.now others.now) }
{
    match simulate(alloc, &compiled.program, &compiled.order, first, others) {
        Ok(run) => report_run(alloc, &compiled.program, run, target),
        Err(fault) => report_tables(alloc, start, inputs, &fault),
    }
}

// Reads the table of the inputs, that of the start having been read.
fn conclude_inputs<F: Files>(
    alloc: Global,
    compiled: &Compiled,
    start: &str,
    inputs: &str,
    target: &str,
    first: &[u8],
    files: &mut F,
) -> Result<Outcome, AllocError>
    requires program { IsProgram compiled.now.program }
    requires order { IsOrder compiled.now.program compiled.now.order }
    ensures reached { RunsInputs F.Files files.old files.new
        compiled.now start.now inputs.now target.now first.now result }
    ensures reads { F.read_faults files.old ≤ F.read_faults files.new }
    ensures held { F.held files.new ≡ F.held files.old }
    ensures puts { F.put_faults files.new ≡ F.put_faults files.old }
{
    match read_table(alloc, inputs, files)? {
        Stage::End(outcome) => Ok(outcome),
        Stage::Next(others) => {
            run_tables(
                alloc,
                compiled,
                start,
                inputs,
                target,
                first,
                others.items(),
            )
        }
    }
}

// Reads the two tables, the source being compiled.
fn conclude_tables<F: Files>(
    alloc: Global,
    compiled: &Compiled,
    start: &str,
    inputs: &str,
    target: &str,
    files: &mut F,
) -> Result<Outcome, AllocError>
    requires program { IsProgram compiled.now.program }
    requires order { IsOrder compiled.now.program compiled.now.order }
    ensures reached { RunsTables F.Files files.old files.new compiled.now start.now inputs.now target.now result }
    ensures reads { F.read_faults files.old ≤ F.read_faults files.new }
    ensures held { F.held files.new ≡ F.held files.old }
    ensures puts { F.put_faults files.new ≡ F.put_faults files.old }
{
    match read_table(alloc, start, files)? {
        Stage::End(outcome) => Ok(outcome),
        Stage::Next(first) => {
            conclude_inputs(alloc, compiled, start, inputs, target, first.items(), files)
        }
    }
}

/// Reads the source and the tables, and runs the program over them.
pub fn conclude_sim<F: Files>(
    alloc: Global,
    source: &str,
    start: &str,
    inputs: &str,
    target: &str,
    tolerance: Frac,
    files: &mut F,
) -> Result<Outcome, AllocError>
    requires { whole 0 <ₙ tolerance }
    ensures reached { Obeys F.Files files.old files.new
        (sim source.now start.now inputs.now target.now tolerance) result }
    ensures reads { F.read_faults files.old ≤ F.read_faults files.new }
    ensures held { F.held files.new ≡ F.held files.old }
    ensures puts { F.put_faults files.new ≡ F.put_faults files.old }
{
    match read_source(alloc, source, tolerance, files)? {
        Stage::End(outcome) => Ok(outcome),
        Stage::Next(compiled) => { conclude_tables(alloc, &compiled, start, inputs, target, files) }
    }
}

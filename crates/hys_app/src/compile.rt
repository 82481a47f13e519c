ghost use Rattle.std.specs.Prelude.{◌≡◌, ◌≤◌, IfOk};
ghost use Rattle.hys_number.specs.Ops.{◌<ₙ◌, whole};
ghost use Rattle.hys_app.specs.Words.{compile};
ghost use Rattle.hys_app.specs.Compiling.{IsPutFor};
ghost use Rattle.hys_app.specs.Commands.{Obeys};

use crate::lines::describe_system;
use crate::outcome::{NewFile, Outcome};
use crate::source::read_source;
use crate::stage::Stage;
use crate::status::Status;
use hys_base::{List, Text};
use hys_file::write_system;
use hys_frac::Frac;
use hys_io::Files;
use hys_sys::System;
use std::alloc::{AllocError, Global};

// The outcome where the source is compiled.
fn report_system(alloc: Global, system: &System, target: &str) -> Result<Outcome, AllocError>
    ensures { IfOk result (IsPutFor system.now target.now) }
{
    let bytes = List::of(write_system(alloc, system)?);
    let name = Text::of(String::from_str(alloc, target)?);
    Ok(Outcome {
        status: Status::Done,
        line: List::of(describe_system(alloc, system)?.into_bytes()),
        file: Some(NewFile { name, bytes }),
    })
}

/// Reads the source, and compiles it where it was read.
#[tactic(auto, using(crate::proofs::Compiling::compile_ended, crate::proofs::Compiling::compile_done))]
pub fn conclude_compile<F: Files>(
    alloc: Global,
    source: &str,
    target: &str,
    tolerance: Frac,
    files: &mut F,
) -> Result<Outcome, AllocError>
    requires { whole 0 <ₙ tolerance }
    ensures reached { Obeys F.Files files.old files.new (compile source.now target.now tolerance) result }
    ensures reads { F.read_faults files.old ≤ F.read_faults files.new }
    ensures held { F.held files.new ≡ F.held files.old }
    ensures puts { F.put_faults files.new ≡ F.put_faults files.old }
{
    match read_source(alloc, source, tolerance, files)? {
        Stage::End(outcome) => Ok(outcome),
        Stage::Next(compiled) => report_system(alloc, &compiled.system, target),
    }
}

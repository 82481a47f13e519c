ghost use Rattle.std.specs.Prelude.{◌≡◌, ◌≢◌, ◌≤◌, IfOk};
ghost use Rattle.hys_file.specs.declared.fault.FileFault.TheVariants.{Memory};
ghost use Rattle.hys_app.specs.Lines.{file_line, file_words};
ghost use Rattle.hys_app.specs.Stages.{saying};
ghost use Rattle.hys_app.specs.Migrating.{IsMatrixStage, ReadsMatrices};
ghost use Rattle.hys_app.specs.declared.status.Status.TheVariants.{Input};

use crate::file_lines::describe_file_fault;
use crate::outcome::Outcome;
use crate::stage::{Stage, read_bytes, report_long};
use crate::status::Status;
use hys_base::List;
use hys_file::{FileFault, MOST_BYTES, laws, read_system};
use hys_io::Files;
use hys_sys::System;
use std::alloc::{AllocError, Global};

/// The outcome where a text of JSON is refused. Want of memory is no refusal.
pub fn report_file(alloc: Global, name: &str, fault: &FileFault) -> Result<Outcome, AllocError>
    ensures said { IfOk result (λ o. o ≡ saying Input (file_line name.now (file_words fault.now))) }
    ensures known { IfOk result (λ o. fault.now ≢ Memory) }
{
    if matches!(fault, FileFault::Memory) {
        return Err(AllocError);
    }
    Ok(Outcome {
        status: Status::Input,
        line: List::of(describe_file_fault(alloc, name, fault)?.into_bytes()),
        file: None,
    })
}

// The system of a matrix text.
#[tactic(auto, using(crate::proofs::Migrating::text_refused))]
fn read_text(alloc: Global, name: &str, text: &[u8]) -> Result<Stage<System>, AllocError>
    ensures { IfOk result (IsMatrixStage name.now text.now) }
{
    laws::one_answer();
    match read_system(alloc, text) {
        Ok(system) => Ok(Stage::Next(system)),
        Err(fault) => Ok(Stage::End(report_file(alloc, name, &fault)?)),
    }
}

/// Reads a matrix text as its system.
#[tactic(auto, using(crate::proofs::Migrating::matrix_unread, crate::proofs::Migrating::matrix_long, crate::proofs::Migrating::matrix_text_read))]
pub fn read_matrices<F: Files>(
    alloc: Global,
    name: &str,
    files: &mut F,
) -> Result<Stage<System>, AllocError>
    ensures stage { ReadsMatrices F.Files files.old files.new name.now result }
    ensures reads { F.read_faults files.old ≤ F.read_faults files.new }
    ensures held { F.held files.new ≡ F.held files.old }
    ensures puts { F.put_faults files.new ≡ F.put_faults files.old }
{
    match read_bytes(alloc, name, MOST_BYTES as u64, files)? {
        Stage::End(outcome) => Ok(Stage::End(outcome)),
        Stage::Next(None) => Ok(Stage::End(report_long(alloc, name)?)),
        Stage::Next(Some(text)) => read_text(alloc, name, text.items()),
    }
}

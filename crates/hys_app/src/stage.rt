ghost use Rattle.std.specs.Prelude.{◌≡◌, ◌≤◌, codes, IfOk};
ghost use Rattle.hys_app.specs.Lines.{file_line};
ghost use Rattle.hys_app.specs.Stages.{saying, IsUnread, ReadsBytes};
ghost use Rattle.hys_app.specs.declared.status.Status.TheVariants.{Input};

use crate::file_lines::describe_file;
use crate::lines::describe_unread;
use crate::outcome::Outcome;
use crate::status::Status;
use hys_base::List;
use hys_io::{Files, ReadFault, read_all};
use std::alloc::{AllocError, Global};

/// What a stage of a command comes to: the outcome that ends the command, or what the next stage
/// goes on with.
#[derive(Drop)]
pub enum Stage<T> {
    End(Outcome),
    Next(T),
}

// The outcome where a file can't be read.
fn report_unread(alloc: Global, name: &str) -> Result<Outcome, AllocError>
    ensures { IfOk result (IsUnread name.now) }
{
    Ok(Outcome {
        status: Status::Read,
        line: List::of(describe_unread(alloc, name)?.into_bytes()),
        file: None,
    })
}

/// The outcome where a file other than a source has too many bytes.
pub fn report_long(alloc: Global, name: &str) -> Result<Outcome, AllocError>
    ensures { IfOk result (λ o. o ≡ saying Input (file_line name.now (codes "limit bytes"))) }
{
    Ok(Outcome {
        status: Status::Input,
        line: List::of(describe_file(alloc, name, "limit bytes")?.into_bytes()),
        file: None,
    })
}

/// All bytes of a file, or none where it is longer than the limit.
#[tactic(auto, using(crate::proofs::Stages::unread_reached))]
pub fn read_bytes<F: Files>(
    alloc: Global,
    name: &str,
    limit: u64,
    files: &mut F,
) -> Result<Stage<Option<List<u8>>>, AllocError>
    ensures stage { ReadsBytes F.Files files.old files.new name.now limit result }
    ensures reads { F.read_faults files.old ≤ F.read_faults files.new }
    ensures held { F.held files.new ≡ F.held files.old }
    ensures puts { F.put_faults files.new ≡ F.put_faults files.old }
{
    match read_all(alloc, files, name, limit) {
        Ok(bytes) => Ok(Stage::Next(Some(List::of(bytes)))),
        Err(ReadFault::TooLong) => Ok(Stage::Next(None)),
        Err(ReadFault::Fault) => Ok(Stage::End(report_unread(alloc, name)?)),
        Err(ReadFault::Memory) => Err(AllocError),
    }
}

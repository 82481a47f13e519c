ghost use Rattle.std.specs.Prelude.{◌≡◌, ◌≢◌, ◌≤◌, length, IfOk};
ghost use Rattle.hys_number.specs.Ops.{◌<ₙ◌, whole};
ghost use Rattle.hys_compile.specs.Faults.{no_memory};
ghost use Rattle.hys_compile.specs.Text.{most_bytes};
ghost use Rattle.hys_app.specs.Lines.{refused_line};
ghost use Rattle.hys_app.specs.Stages.{saying};
ghost use Rattle.hys_app.specs.Compiling.{IsTextStage, ReadsSource};
ghost use Rattle.hys_app.specs.declared.status.Status.TheVariants.{Source};

use crate::lines::describe_refusal;
use crate::outcome::Outcome;
use crate::stage::{Stage, read_bytes};
use crate::status::Status;
use hys_base::List;
use hys_compile::{Compiled, Detail, LimitKind, MOST_BYTES, SourceFault, compile};
use hys_frac::Frac;
use hys_io::Files;
use std::alloc::{AllocError, Global};

// The outcome where the source is refused. Want of memory is no refusal.
fn report_refusal(alloc: Global, fault: &SourceFault) -> Result<Outcome, AllocError>
    ensures said { IfOk result (λ o. o ≡ saying Source (refused_line fault.now)) }
    ensures known { IfOk result (λ o. fault.now ≢ no_memory) }
{
    if matches!(&fault.detail, Detail::Memory) {
        return Err(AllocError);
    }
    Ok(Outcome {
        status: Status::Source,
        line: List::of(describe_refusal(alloc, fault)?.into_bytes()),
        file: None,
    })
}

// Compiles the text of a source.
#[tactic(auto, using(crate::proofs::Compiling::text_refused))]
fn compile_text(alloc: Global, text: &[u8], tolerance: Frac) -> Result<Stage<Compiled>, AllocError>
    requires tolerance { whole 0 <ₙ tolerance }
    requires short { length text.now ≤ most_bytes }
    ensures { IfOk result (IsTextStage tolerance text.now) }
{
    match compile(alloc, text, tolerance) {
        Ok(compiled) => Ok(Stage::Next(compiled)),
        Err(fault) => Ok(Stage::End(report_refusal(alloc, &fault)?)),
    }
}

/// Reads the source, and compiles it.
#[tactic(auto, using(crate::proofs::Compiling::source_unread, crate::proofs::Compiling::source_long, crate::proofs::Compiling::source_text))]
pub fn read_source<F: Files>(
    alloc: Global,
    source: &str,
    tolerance: Frac,
    files: &mut F,
) -> Result<Stage<Compiled>, AllocError>
    requires { whole 0 <ₙ tolerance }
    ensures stage { ReadsSource F.Files files.old files.new tolerance source.now result }
    ensures reads { F.read_faults files.old ≤ F.read_faults files.new }
    ensures held { F.held files.new ≡ F.held files.old }
    ensures puts { F.put_faults files.new ≡ F.put_faults files.old }
{
    match read_bytes(alloc, source, MOST_BYTES, files)? {
        Stage::End(outcome) => Ok(Stage::End(outcome)),
        Stage::Next(None) => {
            let fault = SourceFault::over(LimitKind::Bytes);
            Ok(Stage::End(report_refusal(alloc, &fault)?))
        }
        Stage::Next(Some(text)) => compile_text(alloc, text.items(), tolerance),
    }
}

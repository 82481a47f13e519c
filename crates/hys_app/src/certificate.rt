ghost use Rattle.std.specs.Prelude.{◌≡◌, ◌≤◌, IfOk};
ghost use Rattle.hys_app.specs.Checking.{IsAnswerStage, ReadsAnswer};

use crate::matrices::report_file;
use crate::stage::{Stage, read_bytes, report_long};
use hys_answer::{MOST_BYTES, laws, read_answer};
use hys_io::Files;
use hys_tree::Answer;
use std::alloc::{AllocError, Global};

// The answer of a text.
#[tactic(auto, using(crate::proofs::Checking::text_refused))]
fn read_text(alloc: Global, name: &str, text: &[u8]) -> Result<Stage<Answer>, AllocError>
    ensures { IfOk result (IsAnswerStage name.now text.now) }
{
    laws::one_answer();
    match read_answer(alloc, text) {
        Ok(answer) => Ok(Stage::Next(answer)),
        Err(fault) => Ok(Stage::End(report_file(alloc, name, &fault)?)),
    }
}

/// Reads an answer.
pub fn read_certificate<F: Files>(
    alloc: Global,
    name: &str,
    files: &mut F,
) -> Result<Stage<Answer>, AllocError>
    ensures stage { ReadsAnswer F.Files files.old files.new name.now result }
    ensures reads { F.read_faults files.old ≤ F.read_faults files.new }
    ensures held { F.held files.new ≡ F.held files.old }
    ensures puts { F.put_faults files.new ≡ F.put_faults files.old }
{
    match read_bytes(alloc, name, MOST_BYTES as u64, files)? {
        Stage::End(outcome) => Ok(Stage::End(outcome)),
        Stage::Next(None) => Ok(Stage::End(report_long(alloc, name)?)),
        Stage::Next(Some(text)) => read_text(alloc, name, text.items()),
    }
}

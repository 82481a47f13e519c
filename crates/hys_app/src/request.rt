ghost use Rattle.std.specs.Prelude.{◌≡◌, ◌≢◌, ◌≤◌, IfOk};
ghost use Rattle.hys_sys.specs.System.{IsSystem};
ghost use Rattle.hys_stack.specs.Requests.{IsRequestOf};
ghost use Rattle.hys_stack.specs.declared.fault.RequestFault.TheVariants.{Memory};
ghost use Rattle.hys_app.specs.Lines.{file_line, range_words, request_words};
ghost use Rattle.hys_app.specs.Stages.{saying};
ghost use Rattle.hys_app.specs.Planning.{IsRequestStage, IsStackStage, ReadsRequest};
ghost use Rattle.hys_app.specs.declared.status.Status.TheVariants.{Input};

use crate::file_lines::describe_file;
use crate::outcome::Outcome;
use crate::plan_lines::{describe_overflow, describe_request};
use crate::stage::{Stage, read_bytes, report_long};
use crate::status::Status;
use hys_base::List;
use hys_io::Files;
use hys_lin::{Lost, Problem};
use hys_stack::{MOST_BYTES, Request, RequestFault, StackFault, laws, read_request, stack};
use hys_sys::System;
use std::alloc::{AllocError, Global};

// The outcome where a request is refused. Want of memory is no refusal.
fn report_request(alloc: Global, name: &str, fault: &RequestFault) -> Result<Outcome, AllocError>
    ensures said { IfOk result (λ o. o ≡ saying Input (file_line name.now (request_words fault.now))) }
    ensures known { IfOk result (λ o. fault.now ≢ Memory) }
{
    if matches!(fault, RequestFault::Memory) {
        return Err(AllocError);
    }
    let words = describe_request(alloc, fault)?;
    Ok(Outcome {
        status: Status::Input,
        line: List::of(describe_file(alloc, name, words.as_str())?.into_bytes()),
        file: None,
    })
}

// The request of a text, for a system.
#[tactic(auto, using(crate::proofs::Planning::text_refused))]
fn read_text(
    alloc: Global,
    system: &System,
    name: &str,
    text: &[u8],
) -> Result<Stage<Request>, AllocError>
    ensures { IfOk result (IsRequestStage system.now name.now text.now) }
{
    laws::not_both();
    match read_request(alloc, system, text) {
        Ok(request) => Ok(Stage::Next(request)),
        Err(fault) => Ok(Stage::End(report_request(alloc, name, &fault)?)),
    }
}

/// Reads a request for a system.
pub fn read_plan<F: Files>(
    alloc: Global,
    system: &System,
    name: &str,
    files: &mut F,
) -> Result<Stage<Request>, AllocError>
    ensures stage { ReadsRequest F.Files files.old files.new system.now name.now result }
    ensures reads { F.read_faults files.old ≤ F.read_faults files.new }
    ensures held { F.held files.new ≡ F.held files.old }
    ensures puts { F.put_faults files.new ≡ F.put_faults files.old }
{
    match read_bytes(alloc, name, MOST_BYTES as u64, files)? {
        Stage::End(outcome) => Ok(Stage::End(outcome)),
        Stage::Next(None) => Ok(Stage::End(report_long(alloc, name)?)),
        Stage::Next(Some(text)) => read_text(alloc, system, name, text.items()),
    }
}

// The outcome where a number of the stacked problem doesn't fit.
fn report_lost(alloc: Global, name: &str, lost: Lost) -> Result<Outcome, AllocError>
    ensures { IfOk result (λ o. o ≡ saying Input (file_line name.now (range_words lost))) }
{
    let words = describe_overflow(alloc, lost)?;
    Ok(Outcome {
        status: Status::Input,
        line: List::of(describe_file(alloc, name, words.as_str())?.into_bytes()),
        file: None,
    })
}

/// The linear problem of a system over the steps of a request.
#[tactic(auto, using(crate::proofs::Planning::stack_lost, crate::proofs::Planning::stack_done))]
pub fn stack_request(
    alloc: Global,
    system: &System,
    name: &str,
    request: &Request,
) -> Result<Stage<Problem>, AllocError>
    requires system { IsSystem system.now }
    requires request { IsRequestOf system.now request.now }
    ensures { IfOk result (IsStackStage system.now request.now name.now) }
{
    match stack(alloc, system, request) {
        Ok(problem) => Ok(Stage::Next(problem)),
        Err(StackFault::Lost(lost)) => Ok(Stage::End(report_lost(alloc, name, lost)?)),
        Err(StackFault::Memory) => Err(AllocError),
    }
}

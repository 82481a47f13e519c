ghost use Rattle.std.specs.Prelude.{◌≡◌, ◌≤◌, length, IfOk};
ghost use Rattle.hys_lin.specs.Problem.{IsProblem};
ghost use Rattle.hys_sys.specs.System.{IsSystem};
ghost use Rattle.hys_stack.specs.Requests.{IsRequestOf};
ghost use Rattle.hys_tree.specs.Multiplied.{AreMultiplied};
ghost use Rattle.hys_answer.specs.Reading.{most_places};
ghost use Rattle.hys_app.specs.Words.{check as checking};
ghost use Rattle.hys_app.specs.Checking.{saying_verdict, verdict_status as status_of, ChecksAnswer, ChecksAsked, ChecksStacked, IsChecked};
ghost use Rattle.hys_app.specs.Commands.{Obeys};

use crate::certificate::read_certificate;
use crate::check_lines::describe_verdict;
use crate::matrices::read_matrices;
use crate::outcome::Outcome;
use crate::request::{read_plan, stack_request};
use crate::stage::Stage;
use crate::status::Status;
use hys_base::List;
use hys_check::{Verdict, check};
use hys_io::Files;
use hys_lin::Problem;
use hys_stack::Request;
use hys_sys::System;
use hys_tree::Answer;
use std::alloc::{AllocError, Global};

fn verdict_status(verdict: Verdict) -> Status
    ensures { result ≡ status_of verdict }
{
    match verdict {
        Verdict::Yes => Status::Done,
        Verdict::No(_, _) => Status::NoTrajectory,
    }
}

fn report_verdict(alloc: Global, verdict: Verdict) -> Result<Outcome, AllocError>
    ensures { IfOk result (λ o. o ≡ saying_verdict verdict) }
{
    Ok(Outcome {
        status: verdict_status(verdict),
        line: List::of(describe_verdict(alloc, verdict)?.into_bytes()),
        file: None,
    })
}

// Checks the answer of the problem.
#[tactic(auto, using(crate::proofs::Checking::checked))]
fn check_answer(alloc: Global, problem: &Problem, answer: &Answer) -> Result<Outcome, AllocError>
    requires problem { IsProblem problem.now }
    requires few { length answer.now.tree.places ≤ most_places }
    requires multiplied { AreMultiplied answer.now.tree.places }
    ensures { IfOk result (IsChecked problem.now answer.now) }
{
    match check(alloc, problem, &answer.tree, &answer.claim) {
        Ok(verdict) => report_verdict(alloc, verdict),
        Err(AllocError) => Err(AllocError),
    }
}

// Reads the answer, the request being stacked, and checks it.
fn conclude_answer<F: Files>(
    alloc: Global,
    problem: &Problem,
    answer: &str,
    files: &mut F,
) -> Result<Outcome, AllocError>
    requires { IsProblem problem.now }
    ensures reached { ChecksAnswer F.Files files.old files.new answer.now problem.now result }
    ensures reads { F.read_faults files.old ≤ F.read_faults files.new }
    ensures held { F.held files.new ≡ F.held files.old }
    ensures puts { F.put_faults files.new ≡ F.put_faults files.old }
{
    match read_certificate(alloc, answer, files)? {
        Stage::End(outcome) => Ok(outcome),
        Stage::Next(certificate) => check_answer(alloc, problem, &certificate),
    }
}

// Stacks the request, and reads the answer.
fn conclude_stacked<F: Files>(
    alloc: Global,
    system: &System,
    asked: &Request,
    request: &str,
    answer: &str,
    files: &mut F,
) -> Result<Outcome, AllocError>
    requires system { IsSystem system.now }
    requires request { IsRequestOf system.now asked.now }
    ensures reached { ChecksStacked F.Files files.old files.new system.now asked.now request.now answer.now result }
    ensures reads { F.read_faults files.old ≤ F.read_faults files.new }
    ensures held { F.held files.new ≡ F.held files.old }
    ensures puts { F.put_faults files.new ≡ F.put_faults files.old }
{
    match stack_request(alloc, system, request, asked)? {
        Stage::End(outcome) => Ok(outcome),
        Stage::Next(problem) => conclude_answer(alloc, &problem, answer, files),
    }
}

// Reads the request, the matrix text being read.
fn conclude_asked<F: Files>(
    alloc: Global,
    system: &System,
    request: &str,
    answer: &str,
    files: &mut F,
) -> Result<Outcome, AllocError>
    requires { IsSystem system.now }
    ensures reached { ChecksAsked F.Files files.old files.new system.now request.now answer.now result }
    ensures reads { F.read_faults files.old ≤ F.read_faults files.new }
    ensures held { F.held files.new ≡ F.held files.old }
    ensures puts { F.put_faults files.new ≡ F.put_faults files.old }
{
    match read_plan(alloc, system, request, files)? {
        Stage::End(outcome) => Ok(outcome),
        Stage::Next(asked) => conclude_stacked(alloc, system, &asked, request, answer, files),
    }
}

/// Reads the matrix text, the request and the answer, and checks the answer.
pub fn conclude_check<F: Files>(
    alloc: Global,
    matrices: &str,
    request: &str,
    answer: &str,
    files: &mut F,
) -> Result<Outcome, AllocError>
    ensures reached { Obeys F.Files files.old files.new (checking matrices.now request.now answer.now) result }
    ensures reads { F.read_faults files.old ≤ F.read_faults files.new }
    ensures held { F.held files.new ≡ F.held files.old }
    ensures puts { F.put_faults files.new ≡ F.put_faults files.old }
{
    match read_matrices(alloc, matrices, files)? {
        Stage::End(outcome) => Ok(outcome),
        Stage::Next(system) => conclude_asked(alloc, &system, request, answer, files),
    }
}

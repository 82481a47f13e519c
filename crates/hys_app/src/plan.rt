ghost use Rattle.std.specs.Prelude.{◌≡◌, ◌≤◌, [], IfOk};
ghost use Rattle.hys_number.specs.Ops.{◌<ₙ◌, whole};
ghost use Rattle.hys_lin.specs.Problem.{IsProblem};
ghost use Rattle.hys_relax.specs.BoundSum.{BoundFits};
ghost use Rattle.hys_sys.specs.System.{IsSystem};
ghost use Rattle.hys_stack.specs.Requests.{IsRequestOf};
ghost use Rattle.hys_answer.specs.Shown.{answer_text};
ghost use Rattle.hys_answer.specs.Texts.{ReadsAs};
ghost use Rattle.hys_app.specs.Words.{plan as planning};
ghost use Rattle.hys_app.specs.Planning.{answering, claim_status as status_of, IsAnswerPut, IsPlanned, IsPlannedFor, PlansRequest};
ghost use Rattle.hys_app.specs.Commands.{Obeys};

use crate::outcome::{NewFile, Outcome};
use crate::plan_lines::describe_claim;
use crate::request::{read_plan, stack_request};
use crate::source::read_source;
use crate::stage::Stage;
use crate::status::Status;
use hys_answer::write_answer;
use hys_base::{List, Text};
use hys_compile::Compiled;
use hys_frac::Frac;
use hys_io::Files;
use hys_lin::Problem;
use hys_plan::plan;
use hys_search::{BestBound, DepthFirst};
use hys_stack::{Pick, Request};
use hys_tree::{Answer, Claim, Why};
use std::alloc::{AllocError, Global};

/// The status that a claim ends with.
pub fn claim_status(claim: &Claim) -> Status
    ensures { result ≡ status_of claim.now }
{
    match claim {
        Claim::Least(_) => Status::Done,
        Claim::NoneExists => Status::NoTrajectory,
        Claim::AtLeast {
            why: Why::Spent(_),
            ..
        } => Status::Spent,
        Claim::AtLeast {
            why: Why::Range { .. },
            ..
        } => Status::Range,
    }
}

// The outcome where the answer is put.
#[tactic(auto, using(crate::proofs::Accepting::reads_as))]
fn report_answer(alloc: Global, answer: &Answer, target: &str) -> Result<Outcome, AllocError>
    ensures put { IfOk result (λ o. o ≡ answering target.now answer.now) }
    ensures reads { IfOk result (λ o. ReadsAs (answer_text answer.now.claim answer.now.tree.places) answer.now) }
{
    let line = List::of(describe_claim(alloc, &answer.claim)?.into_bytes());
    let bytes = List::of(write_answer(alloc, answer)?);
    let name = Text::of(String::from_str(alloc, target)?);
    Ok(Outcome {
        status: claim_status(&answer.claim),
        line,
        file: Some(NewFile { name, bytes }),
    })
}

/// Plans the problem as the request says.
#[tactic(auto, using(crate::proofs::Planning::planned_for))]
pub fn plan_problem(
    alloc: Global,
    problem: Problem,
    request: &Request,
) -> Result<Answer, AllocError>
    requires problem { IsProblem problem }
    requires some { 1 ≤ request.now.nodes }
    requires few { request.now.nodes ≤ 500000 }
    requires plain { BoundFits problem [] [] }
    ensures { IfOk result (λ a. IsPlannedFor problem request.now a) }
{
    match request.pick {
        Pick::Bound => plan(alloc, problem, request.nodes, &mut BestBound),
        Pick::Depth => plan(alloc, problem, request.nodes, &mut DepthFirst),
    }
}

// Plans the problem, and puts the answer.
#[tactic(auto, using(crate::proofs::Planning::answer_put))]
fn put_plan(
    alloc: Global,
    problem: Problem,
    request: &Request,
    target: &str,
) -> Result<Outcome, AllocError>
    requires problem { IsProblem problem }
    requires some { 1 ≤ request.now.nodes }
    requires few { request.now.nodes ≤ 500000 }
    requires plain { BoundFits problem [] [] }
    ensures { IfOk result (IsAnswerPut request.now target.now problem) }
{
    let answer = plan_problem(alloc, problem, request)?;
    report_answer(alloc, &answer, target)
}

// Stacks the request over the system, and plans that problem.
fn plan_request(
    alloc: Global,
    compiled: &Compiled,
    name: &str,
    request: &Request,
    target: &str,
) -> Result<Outcome, AllocError>
    requires system { IsSystem compiled.now.system }
    requires request { IsRequestOf compiled.now.system request.now }
    ensures { IfOk result (IsPlanned compiled.now request.now name.now target.now) }
{
    match stack_request(alloc, &compiled.system, name, request)? {
        Stage::End(outcome) => Ok(outcome),
        Stage::Next(problem) => put_plan(alloc, problem, request, target),
    }
}

// Reads the request, the source being compiled, and plans it.
fn conclude_request<F: Files>(
    alloc: Global,
    compiled: &Compiled,
    request: &str,
    target: &str,
    files: &mut F,
) -> Result<Outcome, AllocError>
    requires { IsSystem compiled.now.system }
    ensures reached { PlansRequest F.Files files.old files.new compiled.now request.now target.now result }
    ensures reads { F.read_faults files.old ≤ F.read_faults files.new }
    ensures held { F.held files.new ≡ F.held files.old }
    ensures puts { F.put_faults files.new ≡ F.put_faults files.old }
{
    match read_plan(alloc, &compiled.system, request, files)? {
        Stage::End(outcome) => Ok(outcome),
        Stage::Next(asked) => plan_request(alloc, compiled, request, &asked, target),
    }
}

/// Reads the source and the request, and plans it.
pub fn conclude_plan<F: Files>(
    alloc: Global,
    source: &str,
    request: &str,
    target: &str,
    tolerance: Frac,
    files: &mut F,
) -> Result<Outcome, AllocError>
    requires { whole 0 <ₙ tolerance }
    ensures reached { Obeys F.Files files.old files.new (planning source.now request.now target.now tolerance) result }
    ensures reads { F.read_faults files.old ≤ F.read_faults files.new }
    ensures held { F.held files.new ≡ F.held files.old }
    ensures puts { F.put_faults files.new ≡ F.put_faults files.old }
{
    match read_source(alloc, source, tolerance, files)? {
        Stage::End(outcome) => Ok(outcome),
        Stage::Next(compiled) => conclude_request(alloc, &compiled, request, target, files),
    }
}

ghost use Rattle.std.specs.Prelude.{◌≡◌, ◌≤◌, [], IfOk, string_bytes};
ghost use Rattle.hys_lin.specs.Problem.{IsProblem};
ghost use Rattle.hys_relax.specs.BoundSum.{BoundFits};
ghost use Rattle.hys_sys.specs.System.{IsSystem};
ghost use Rattle.hys_compile.specs.Text.{IsCompiled};
ghost use Rattle.hys_stack.specs.Requests.{IsRequestOf};
ghost use Rattle.hys_stack.specs.Stacking.{IsStacked};
ghost use Rattle.hys_stack.specs.Texts.{IsTextOf};
ghost use Rattle.hys_app.specs.Words.{usual_tolerance as usual};
ghost use Rattle.hys_app.specs.Demonstrating.{saying_demo, IsDemo, IsDemoPlan};
ghost use Rattle.hys_app.specs.Lines.{demo_line};

use crate::outcome::Outcome;
use crate::plan::{claim_status, plan_problem};
use crate::plan_lines::describe_claim;
use crate::words::usual_tolerance;
use hys_base::List;
use hys_compile::{Compiled, compile};
use hys_gen::{request, source};
use hys_lin::Problem;
use hys_stack::{Request, read_request, stack};
use hys_sys::System;
use hys_tree::Answer;
use std::alloc::{AllocError, Global};

// The generated texts are neither refused nor have numbers that don't fit, which the tests see for each number of
// tanks; so what is left is want of memory.
fn compile_tanks(alloc: Global, text: &[u8]) -> Result<Compiled, AllocError>
    ensures { IfOk result (IsCompiled usual text.now) }
{
    match compile(alloc, text, usual_tolerance()) {
        Ok(compiled) => Ok(compiled),
        Err(_) => Err(AllocError),
    }
}

fn ask_tanks(alloc: Global, system: &System, text: &[u8]) -> Result<Request, AllocError>
    ensures { IfOk result (IsTextOf system.now text.now) }
{
    match read_request(alloc, system, text) {
        Ok(request) => Ok(request),
        Err(_) => Err(AllocError),
    }
}

fn stack_tanks(alloc: Global, system: &System, request: &Request) -> Result<Problem, AllocError>
    requires system { IsSystem system.now }
    requires request { IsRequestOf system.now request.now }
    ensures stacked { IfOk result (IsStacked system.now request.now) }
    ensures problem { IfOk result (λ p. IsProblem p) }
    ensures fits { IfOk result (λ p. BoundFits p [] []) }
{
    match stack(alloc, system, request) {
        Ok(problem) => Ok(problem),
        Err(_) => Err(AllocError),
    }
}

// The line of a demonstration.
#[tactic(auto, unfolding(crate::specs::Lines::demo_line))]
fn describe_demo(
    alloc: Global,
    tanks: u32,
    system: &System,
    answer: &Answer,
) -> Result<String, AllocError>
    ensures { IfOk result (λ s. string_bytes s ≡ demo_line tanks system.now answer.now) }
{
    let columns = system.columns.items().len();
    let rows = system.rows.items().len();
    let nodes = answer.expanded;
    let claim = describe_claim(alloc, &answer.claim)?;
    format!(in alloc; "demo: {tanks} tanks, {columns} columns, {rows} rows, {nodes} nodes, {claim}")
}

fn report_demo(
    alloc: Global,
    tanks: u32,
    system: &System,
    answer: &Answer,
) -> Result<Outcome, AllocError>
    ensures { IfOk result (λ o. o ≡ saying_demo tanks system.now answer.now) }
{
    let line = List::of(describe_demo(alloc, tanks, system, answer)?.into_bytes());
    Ok(Outcome {
        status: claim_status(&answer.claim),
        line,
        file: None,
    })
}

// Plans the request over the system.
#[tactic(auto, using(crate::proofs::Demonstrating::demo_planned))]
fn plan_tanks(
    alloc: Global,
    tanks: u32,
    system: &System,
    request: &Request,
) -> Result<Outcome, AllocError>
    requires system { IsSystem system.now }
    requires request { IsRequestOf system.now request.now }
    ensures { IfOk result (IsDemoPlan tanks system.now request.now) }
{
    let problem = stack_tanks(alloc, system, request)?;
    let answer = plan_problem(alloc, problem, request)?;
    report_demo(alloc, tanks, system, &answer)
}

/// Generates a source and a request for so many tanks, and plans it.
#[tactic(auto, using(crate::proofs::Demonstrating::demo_done))]
pub fn conclude_demo(alloc: Global, tanks: u32) -> Result<Outcome, AllocError>
    requires some { 1 ≤ tanks }
    requires few { tanks ≤ 20 }
    ensures { IfOk result (IsDemo tanks) }
{
    let text = source(alloc, tanks)?;
    let compiled = compile_tanks(alloc, text.as_slice())?;
    let asked = request(alloc, tanks)?;
    let request = ask_tanks(alloc, &compiled.system, asked.as_slice())?;
    plan_tanks(alloc, tanks, &compiled.system, &request)
}

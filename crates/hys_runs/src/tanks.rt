//! Chains of tanks, from their number to the problem of a plan.

ghost use Rattle.std.specs.Prelude.{◌≤◌, IfOk};
ghost use Rattle.hys_sys.specs.System.{IsSystem};
ghost use Rattle.hys_stack.specs.Requests.{IsRequestOf};

use hys_compile::compile;
use hys_frac::Frac;
use hys_gen::{request, source};
use hys_lin::Problem;
use hys_stack::{Pick, Request, read_request, stack};
use hys_sys::System;
use std::alloc::Global;
use std::test::Fail;

// The system of a chain, at a tolerance of 1/1000.
fn system_of(alloc: Global, tanks: u32) -> Result<System, Fail>
    requires from { 1 ≤ tanks }
    requires to { tanks ≤ 20 }
    ensures { IfOk result IsSystem }
{
    let tolerance = Frac::new(1, 1000).ok_or("the tolerance doesn't fit")?;
    if !tolerance.is_positive() {
        return Err(Fail::from("the tolerance isn't above 0"));
    }
    let text = source(alloc, tanks)?;
    match compile(alloc, text.as_slice(), tolerance) {
        Ok(compiled) => Ok(compiled.system),
        Err(_) => Err(Fail::from("the source is refused")),
    }
}

fn request_of(alloc: Global, system: &System, tanks: u32) -> Result<Request, Fail>
    requires from { 1 ≤ tanks }
    requires to { tanks ≤ 20 }
    ensures { IfOk result (IsRequestOf system.now) }
{
    let text = request(alloc, tanks)?;
    match read_request(alloc, system, text.as_slice()) {
        Ok(request) => Ok(request),
        Err(_) => Err(Fail::from("the request is refused")),
    }
}

fn problem_of(alloc: Global, system: &System, request: &Request) -> Result<Problem, Fail>
    requires system { IsSystem system.now }
    requires request { IsRequestOf system.now request.now }
{
    match stack(alloc, system, request) {
        Ok(problem) => Ok(problem),
        Err(_) => Err(Fail::from("a number of the request doesn't fit")),
    }
}

// Whether the last weight is 1 and the others are 0.
fn is_last_alone(weights: &[Frac]) -> bool {
    match weights.split_last() {
        Some((last, others)) => *last == Frac::whole(1)
            && others.iter().all(|weight| weight.is_zero()),
        None => false,
    }
}

// Four columns and seven rows a tank, two steps and the states at the end, all as large as they can be.
#[test]
fn chains_of_tanks(rt: HostRuntime) -> Result<(), Fail> {
    let alloc = rt.alloc();
    for tanks in 1..=20u32 {
        let count = tanks as usize;
        let system = system_of(alloc, tanks)?;
        assert_eq!(rt;
            system.columns.items().len(),
            4 * count,
            "columns of {tanks}"
        );
        assert_eq!(rt; system.rows.items().len(), 7 * count, "rows of {tanks}");
        assert_eq!(rt; system.weight, 5 * tanks, "weight of {tanks}");
        let request = request_of(alloc, &system, tanks)?;
        assert_eq!(rt;
            (request.horizon, request.nodes),
            (2, 64),
            "request of {tanks}"
        );
        assert!(rt; request.pick == Pick::Bound, "pick of {tanks}");
        let full = request
            .start
            .items()
            .iter()
            .filter(|a| **a == Frac::whole(50))
            .count();
        assert_eq!(rt; full, count, "starts of {tanks}");
        let weights = request.final_cost.items();
        assert!(rt; is_last_alone(weights), "weights of {tanks}");
        let problem = problem_of(alloc, &system, &request)?;
        assert_eq!(rt; problem.boxes.items().len(), 9 * count, "boxes of {tanks}");
        assert_eq!(rt;
            problem.rows.items().len(),
            16 * count,
            "stacked rows of {tanks}"
        );
    }
    Ok(())
}

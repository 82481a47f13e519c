//! The text of a request, read for a system.

ghost use Rattle.std.specs.Prelude.{◌≡◌, ◌⊎◌, []};
ghost use Rattle.serde_json.specs.View.{view, members_view};
ghost use Rattle.serde_json.specs.Errors.{IsMemory};
ghost use Rattle.hys_json.specs.Values.{keys_of};
ghost use Rattle.hys_stack.specs.declared.fault.RequestFault.TheVariants as request;
ghost use Rattle.hys_stack.specs.Reading.{Answers, AnswersFault, names_in, missing_fault, unknown_fault, keys_fault, root_fault, counts_fault, counts_in, search_fault, front_fault, back_fault, fields_fault, value_fault, limit_fault, request_fault, request_in, IsSearch, IsFront, IsBack, HasKeys, given_final_fault, given_step_fault, IsGivenFinal, IsGivenStep, is_counted, is_small, count_fault, size_fault};
ghost use Rattle.hys_stack.specs.Texts.{IsRead};

use crate::fault::RequestFault;
use crate::fields::{read_final, read_start, read_step, state_numbers, step_weights};
use crate::named::is_one_of;
use crate::paths::{over_limit, shape_here, shape_under};
use crate::request::{Pick, Request};
use crate::scalars::{read_pick, read_whole};
use hys_frac::{Frac, List};
use hys_json::member;
use hys_sys::System;
use serde_json::{Error, Map, Value};
use std::alloc::Global;

/// The most bytes of a text that is read.
pub const MOST_BYTES: usize = 67108864;

const MOST_STEPS: u32 = 50;

const MOST_NODES: u32 = 500000;

const MOST_STACKED: u64 = 600;

const MOST_WORK: u64 = 500000;

fn check_missing(alloc: Global, value: &Value, keys: &[&str]) -> Result<(), RequestFault>
    ensures { AnswersFault (missing_fault [] (names_in keys.now) (view value.now)) result }
{
    for key in keys {
        if value.get(*key).is_none() {
            return Err(shape_under(alloc, "", *key));
        }
    }
    Ok(())
}

#[tactic(auto, using(hys_json::proofs::Readings::members_keys))]
fn check_unknown(
    alloc: Global,
    members: &Map<String, Value>,
    keys: &[&str],
) -> Result<(), RequestFault>
    ensures { AnswersFault (unknown_fault [] (names_in keys.now) (keys_of (members_view members.now.entries))) result }
{
    for key in members.keys() {
        if !is_one_of(keys, key.as_str()) {
            return Err(shape_under(alloc, "", key.as_str()));
        }
    }
    Ok(())
}

// Whether the members have the keys of a request.
#[tactic(auto, using(crate::proofs::Judging::or_first, crate::proofs::Judging::some_first, crate::proofs::Judging::answers_second), unfolding(crate::specs::Reading::keys_fault))]
fn check_keys(
    alloc: Global,
    value: &Value,
    members: &Map<String, Value>,
) -> Result<(), RequestFault>
    ensures { AnswersFault (keys_fault (view value.now) (members_view members.now.entries)) result }
{
    check_missing(alloc, value, &["horizon", "nodes", "pick", "start"])?;
    check_unknown(
        alloc,
        members,
        &["final", "horizon", "nodes", "pick", "start", "step"],
    )
}

// Whether the value is an object with the keys of a request.
#[tactic(auto, unfolding(crate::specs::Reading::root_fault))]
fn check_root(alloc: Global, value: &Value) -> Result<(), RequestFault>
    ensures { AnswersFault (root_fault (view value.now)) result }
{
    match value.as_object() {
        Some(members) => check_keys(alloc, value, members),
        None => Err(shape_here(alloc, "")),
    }
}

// What may be left out is read of nothing.
fn read_given_final(
    alloc: Global,
    system: &System,
    root: &Value,
) -> Result<List<Frac>, RequestFault>
    ensures { Answers (given_final_fault system.now (view root.now)) (IsGivenFinal system.now (view root.now)) result }
{
    match root.get("final") {
        Some(value) => read_final(alloc, system, value, "final"),
        None => Ok(state_numbers(alloc, system, &Value::Null)?),
    }
}

fn read_given_step(
    alloc: Global,
    system: &System,
    root: &Value,
) -> Result<(List<Frac>, List<Frac>), RequestFault>
    ensures { Answers (given_step_fault system.now (view root.now)) (IsGivenStep system.now (view root.now)) result }
{
    match root.get("step") {
        Some(value) => read_step(alloc, system, value, "step"),
        None => Ok(step_weights(alloc, system, &Value::Null)?),
    }
}

// What a search is told.
#[derive(Drop)]
pub struct Search {
    pub horizon: u32,
    pub nodes: u32,
    pub pick: Pick,
}

// What stands before the start.
#[derive(Drop)]
pub struct Front {
    pub final_cost: List<Frac>,
    pub horizon: u32,
    pub nodes: u32,
    pub pick: Pick,
}

// The start, and what stands behind it.
#[derive(Drop)]
pub struct Back {
    pub start: List<Frac>,
    pub step_cost: List<Frac>,
    pub output_cost: List<Frac>,
}

#[tactic(auto, using(crate::proofs::Judging::or_first, crate::proofs::Judging::or_second, crate::proofs::Judging::some_first, crate::proofs::Judging::some_second, crate::proofs::Judging::or_none, crate::proofs::Judging::root_has), unfolding(crate::specs::Reading::counts_fault))]
fn read_counts(alloc: Global, root: &Value) -> Result<(u32, u32), RequestFault>
    requires { HasKeys (view root.now) }
    ensures { Answers (counts_fault (view root.now)) (λ n. n ≡ counts_in (view root.now)) result }
{
    let horizon = read_whole(alloc, member(root, "horizon"), "horizon")?;
    let nodes = read_whole(alloc, member(root, "nodes"), "nodes")?;
    Ok((horizon, nodes))
}

#[tactic(auto, using(crate::proofs::Judging::or_first, crate::proofs::Judging::or_second, crate::proofs::Judging::some_first, crate::proofs::Judging::some_second, crate::proofs::Judging::or_none, crate::proofs::Judging::root_has), unfolding(crate::specs::Reading::search_fault))]
fn read_search(alloc: Global, root: &Value) -> Result<Search, RequestFault>
    requires { HasKeys (view root.now) }
    ensures { Answers (search_fault (view root.now)) (IsSearch (view root.now)) result }
{
    let (horizon, nodes) = read_counts(alloc, root)?;
    let pick = read_pick(alloc, member(root, "pick"), "pick")?;
    Ok(Search {
        horizon,
        nodes,
        pick,
    })
}

#[tactic(auto, using(crate::proofs::Judging::or_first, crate::proofs::Judging::or_second, crate::proofs::Judging::some_first, crate::proofs::Judging::some_second, crate::proofs::Judging::or_none, crate::proofs::Judging::root_has), unfolding(crate::specs::Reading::front_fault))]
fn read_front(alloc: Global, system: &System, root: &Value) -> Result<Front, RequestFault>
    requires { HasKeys (view root.now) }
    ensures { Answers (front_fault system.now (view root.now)) (IsFront system.now (view root.now)) result }
{
    let final_cost = read_given_final(alloc, system, root)?;
    let search = read_search(alloc, root)?;
    Ok(Front {
        final_cost,
        horizon: search.horizon,
        nodes: search.nodes,
        pick: search.pick,
    })
}

#[tactic(auto, using(crate::proofs::Judging::or_first, crate::proofs::Judging::or_second, crate::proofs::Judging::or_third, crate::proofs::Judging::or_fourth, crate::proofs::Judging::some_first, crate::proofs::Judging::some_second, crate::proofs::Judging::some_third, crate::proofs::Judging::some_fourth, crate::proofs::Judging::or_none, crate::proofs::Judging::none_of_four, crate::proofs::Judging::root_has), unfolding(crate::specs::Reading::back_fault))]
fn read_back(alloc: Global, system: &System, root: &Value) -> Result<Back, RequestFault>
    requires { HasKeys (view root.now) }
    ensures { Answers (back_fault system.now (view root.now)) (IsBack system.now (view root.now)) result }
{
    let start = read_start(alloc, system, member(root, "start"), "start")?;
    let (step_cost, output_cost) = read_given_step(alloc, system, root)?;
    Ok(Back {
        start,
        step_cost,
        output_cost,
    })
}

fn is_counted(number: u32, most: u32) -> bool
    ensures { result ≡ is_counted most number }
{
    0 < number && number <= most
}

fn is_small(horizon: u32, nodes: u32, weight: u32) -> bool
    ensures { result ≡ is_small horizon nodes weight }
{
    let stacked = horizon as u64 * weight as u64;
    stacked <= MOST_STACKED && nodes as u64 * stacked <= MOST_WORK
}

// Whether the number is from 1 to the most.
#[tactic(auto, unfolding(crate::specs::Reading::count_fault))]
fn check_count(alloc: Global, number: u32, most: u32, what: &str) -> Result<(), RequestFault>
    ensures { AnswersFault (count_fault most what.now number) result }
{
    if is_counted(number, most) {
        Ok(())
    } else {
        Err(over_limit(alloc, what))
    }
}

#[tactic(auto, unfolding(crate::specs::Reading::size_fault))]
fn check_size(horizon: u32, nodes: u32, weight: u32) -> Result<(), RequestFault>
    ensures { AnswersFault (size_fault horizon nodes weight) result }
{
    if is_small(horizon, nodes, weight) {
        Ok(())
    } else {
        Err(RequestFault::TooLarge)
    }
}

// Whether the request keeps the limits.
#[tactic(auto, using(crate::proofs::Judging::or_first, crate::proofs::Judging::or_second, crate::proofs::Judging::some_first, crate::proofs::Judging::some_second, crate::proofs::Judging::answers_third), unfolding(crate::specs::Reading::limit_fault))]
fn check_limits(alloc: Global, system: &System, request: &Request) -> Result<(), RequestFault>
    ensures { AnswersFault (limit_fault system.now request.now) result }
{
    check_count(alloc, request.horizon, MOST_STEPS, "horizon")?;
    check_count(alloc, request.nodes, MOST_NODES, "nodes")?;
    check_size(request.horizon, request.nodes, system.weight)
}

// The request of the fields, whose limits aren't judged yet.
#[tactic(auto, using(crate::proofs::Judging::or_first, crate::proofs::Judging::or_second, crate::proofs::Judging::some_first, crate::proofs::Judging::some_second, crate::proofs::Judging::or_none, crate::proofs::Judging::root_has), unfolding(crate::specs::Reading::fields_fault))]
fn read_fields(alloc: Global, system: &System, root: &Value) -> Result<Request, RequestFault>
    requires { HasKeys (view root.now) }
    ensures { Answers (fields_fault system.now (view root.now))
        (λ r. r ≡ request_in system.now (view root.now)) result }
{
    let front = read_front(alloc, system, root)?;
    let back = read_back(alloc, system, root)?;
    Ok(Request {
        horizon: front.horizon,
        start: back.start,
        step_cost: back.step_cost,
        output_cost: back.output_cost,
        final_cost: front.final_cost,
        nodes: front.nodes,
        pick: front.pick,
    })
}

#[tactic(auto, using(crate::proofs::Judging::or_first, crate::proofs::Judging::some_first, crate::proofs::Judging::answers_second), unfolding(crate::specs::Reading::value_fault))]
fn read_unlimited(alloc: Global, system: &System, value: &Value) -> Result<Request, RequestFault>
    ensures { Answers (value_fault system.now (view value.now))
        (λ r. r ≡ request_in system.now (view value.now)) result }
{
    check_root(alloc, value)?;
    read_fields(alloc, system, value)
}

// The request, if it keeps the limits.
fn within_limits(alloc: Global, system: &System, request: Request) -> Result<Request, RequestFault>
    ensures { Answers (limit_fault system.now request) (λ r. r ≡ request) result }
{
    check_limits(alloc, system, &request)?;
    Ok(request)
}

// The request that a JSON value stands for.
#[tactic(auto, using(crate::proofs::Judging::or_first, crate::proofs::Judging::or_second, crate::proofs::Judging::some_first, crate::proofs::Judging::some_second, crate::proofs::Judging::or_none, crate::proofs::Judging::limited), unfolding(crate::specs::Reading::request_fault))]
fn read_value(alloc: Global, system: &System, value: &Value) -> Result<Request, RequestFault>
    ensures { Answers (request_fault system.now (view value.now))
        (λ r. r ≡ request_in system.now (view value.now)) result }
{
    let request = read_unlimited(alloc, system, value)?;
    within_limits(alloc, system, request)
}

// The fault of a text that is no JSON value.
fn of_text(error: &Error) -> RequestFault
    ensures { (IsMemory error.now × (result ≡ request.Memory)) ⊎ (¬ (IsMemory error.now) × (result ≡ request.Json)) }
{
    if error.is_memory() {
        RequestFault::Memory
    } else {
        RequestFault::Json
    }
}

/// The request that a text stands for, for a system.
///
/// # Errors
///
/// In this order: `Limit` of `bytes` for more than 64 MiB; `Json` where the text is no JSON value;
/// `Shape` where the value is no object, for its first missing key, then for its first unknown key;
/// the fields `final`, `horizon`, `nodes`, `pick`, `start`, `step`, each judged whole before the next,
/// with the faults of their readers; `Limit` of `horizon` outside 1 to 50, then of `nodes` outside 1 to
/// 500,000; `TooLarge` where the horizon times the system's weight is over 600, or that times the nodes
/// over 500,000. `Memory` where memory is wanting.
pub fn read_request(alloc: Global, system: &System, text: &[u8]) -> Result<Request, RequestFault>
    ensures { IsRead system.now text.now result }
{
    if text.len() > MOST_BYTES {
        return Err(over_limit(alloc, "bytes"));
    }
    let value = match Value::from_slice(alloc, text) {
        Ok(value) => value,
        Err(error) => return Err(of_text(&error)),
    };
    read_value(alloc, system, &value)
}

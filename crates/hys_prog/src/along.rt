ghost use Rattle.std.specs.Prelude.{◌≡◌, [], cond, length, IfOk};
ghost use Rattle.std.specs.List.{AllByRecursion};
ghost use Rattle.hys_lin.specs.Sums.{at};
ghost use Rattle.hys_prog.specs.Programs.{is_must as is_must_of};
ghost use Rattle.hys_prog.specs.Stops.{Judged, body_checks, checks_of, checks_along, demands_from, number_in, number_of, numbers_in};
ghost use Rattle.hys_prog.specs.Walk.{IsPlaced, found as found_in, found_checks};

use crate::program::{Body, ProgItem};
use crate::settle::settle;
use crate::stop::StepFault;
use hys_formula::NameId;
use hys_frac::Frac;
use std::alloc::Global;

// The number that its definition gives to the name.
#[tactic(auto, using(crate::proofs::Walking::placed_below))]
fn settle_name(
    name: usize,
    items: &[ProgItem],
    places: &[usize],
    values: &[Frac],
) -> Result<Frac, StepFault>
    requires { IsPlaced items.now places.now name }
    ensures value { IfOk result (λ r. r ≡ number_in (at values.now) name items.now) }
    ensures judged { Judged (checks_of (at values.now) name 0 items.now) result }
{
    let place = places[name];
    settle_item(place, &items[place], values)
}

// The number of the item at the place.
fn settle_item(place: usize, item: &ProgItem, values: &[Frac]) -> Result<Frac, StepFault>
    ensures value { IfOk result (λ r. r ≡ number_of (at values.now) item.now.body) }
    ensures judged { Judged (body_checks (at values.now) place item.now.body) result }
{
    match u32::try_from(place) {
        Ok(number) => settle(&item.body, number, values),
        Err(_) => Err(StepFault::Memory),
    }
}

// The values, of which those of the names in the order are found one after the other.
pub fn found(
    items: &[ProgItem],
    places: &[usize],
    order: &[NameId],
    mut values: Vec<Frac>,
) -> Result<Vec<Frac>, StepFault>
    requires placed { AllByRecursion (IsPlaced items.now places.now) order.now }
    requires count { length values.items ≡ length places.now }
    ensures value { IfOk result (λ vs. vs.items ≡ found_in items.now order.now values.items) }
    ensures judged { Judged (found_checks items.now order.now values.items) result }
{
    for name in order {
        let n = *name as usize;
        let number = match settle_name(n, items, places, &values) {
            Ok(number) => number,
            Err(fault) => return Err(fault),
        };
        values[n] = number;
    }
    Ok(values)
}

// The numbers that their definitions give to the names.
pub fn defined(
    alloc: Global,
    items: &[ProgItem],
    places: &[usize],
    names: &[usize],
    values: &[Frac],
) -> Result<Vec<Frac>, StepFault>
    requires { AllByRecursion (IsPlaced items.now places.now) names.now }
    ensures value { IfOk result (λ r. r.items ≡ numbers_in (at values.now) items.now names.now) }
    ensures judged { Judged (checks_along (at values.now) items.now names.now) result }
{
    let mut numbers = Vec::new(alloc);
    for name in names {
        let number = match settle_name(*name, items, places, values) {
            Ok(number) => number,
            Err(fault) => return Err(fault),
        };
        numbers.push(number)?;
    }
    Ok(numbers)
}

// Each demand holds.
pub fn judge_demands(items: &[ProgItem], values: &[Frac]) -> Result<(), StepFault>
    ensures { Judged (demands_from 0 (at values.now) items.now) result }
{
    for (k, item) in items.iter().enumerate() {
        match judge_item(k, item, values) {
            Ok(_) => {}
            Err(fault) => return Err(fault),
        }
    }
    Ok(())
}

// The demand of the item holds, where it makes one.
fn judge_item(k: usize, item: &ProgItem, values: &[Frac]) -> Result<(), StepFault>
    ensures { Judged (cond (is_must_of item.now.body) (body_checks (at values.now) k item.now.body) []) result }
{
    if !is_must(&item.body) {
        return Ok(());
    }
    match settle_item(k, item, values) {
        Ok(_) => Ok(()),
        Err(fault) => Err(fault),
    }
}

// Whether the body demands something.
fn is_must(body: &Body) -> bool
    ensures { result ≡ is_must_of body.now }
{
    match body {
        Body::Guard { number: _, eps: _ } => false,
        Body::Choice {
            when: _,
            hit: _,
            other: _,
        } => false,
        Body::Logic(_) => false,
        Body::Linear(_) => false,
        Body::NextBool(_) => false,
        Body::NextReal(_) => false,
        Body::OutBool(_) => false,
        Body::OutReal(_) => false,
        Body::MustHold(_) => true,
        Body::MustMost(_) => true,
        Body::MustZero(_) => true,
    }
}

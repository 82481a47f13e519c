ghost use Rattle.std.specs.Prelude.{◌≡◌, ◌<◌, IfOk, length};
ghost use Rattle.std.specs.List.{AllByRecursion};
ghost use Rattle.hys_prog.specs.Programs.{IsProgram, EachItem};
ghost use Rattle.hys_prog.specs.Orders.{IsOrder};
ghost use Rattle.hys_bound.specs.Ranges.{EachAsked, all_at, asked_at, interval_at, declared, declared_interval, intervals, range_numbers};
ghost use Rattle.hys_bound.specs.Values.{HoldsValues};
ghost use Rattle.hys_bound.specs.Answers.{Judged};

use crate::fault::BoundFault;
use crate::ranges::interval_of;
use hys_frac::Frac;
use hys_lin::Interval;
use hys_prog::{Name, Order, ProgItem, Program, Role, definitions};
use std::alloc::{AllocError, Global};

/// One interval for each name: the declared box of a state or an input, the value of a parameter
/// at both ends, and for an auxiliary that of its definition along the order. It holds every
/// number that the name takes for states and inputs within bounds. That of an output is 0 to 0 and
/// means nothing.
///
/// # Errors
/// `Range` exactly where a number of the intervals doesn't fit, with the first along the order and
/// the place of its item. `Memory` where memory is wanting, as it is for more items than a `u32`
/// can number.
pub fn bounds(alloc: Global, program: &Program, order: &Order) -> Result<Vec<Interval>, BoundFault>
    requires program { IsProgram program.now }
    requires order { IsOrder program.now order.now }
    ensures value { IfOk result (λ boxes. boxes.items ≡ intervals program.now order.now) }
    ensures holds { IfOk result (λ boxes. HoldsValues program.now boxes.items) }
    ensures judged { Judged (range_numbers program.now order.now) result }
{
    let places = definitions(alloc, program)?;
    let mut boxes = declared_intervals(alloc, program.names.items())?;
    for name in order.names.items() {
        let n = *name as usize;
        let interval = interval_here(program.items.items(), places[n], &boxes)?;
        boxes[n] = interval;
    }
    Ok(boxes)
}

// The interval of the auxiliary that the item at the place defines.
fn interval_here(
    items: &[ProgItem],
    place: usize,
    boxes: &[Interval],
) -> Result<Interval, BoundFault>
    requires within { place < length items.now }
    requires below { EachItem (λ t. EachAsked (λ c. c < length boxes.now) t.body) items.now }
    ensures value { IfOk result (λ r. r ≡ interval_at boxes.now items.now place) }
    ensures judged { Judged (all_at place (asked_at boxes.now items.now place)) result }
{
    match interval_of(&items[place].body, boxes) {
        Ok(interval) => Ok(interval),
        Err(lost) => match u32::try_from(place) {
            Ok(item) => Err(BoundFault::Range(item, lost)),
            Err(_) => Err(BoundFault::Memory),
        },
    }
}

// The intervals of the names as they are declared.
fn declared_intervals(alloc: Global, names: &[Name]) -> Result<Vec<Interval>, AllocError>
    ensures { IfOk result (λ boxes. boxes.items ≡ declared names.now) }
{
    let mut boxes = Vec::new(alloc);
    for name in names {
        boxes.push(declared_of(name))?;
    }
    Ok(boxes)
}

fn declared_of(name: &Name) -> Interval
    ensures { result ≡ declared_interval name.now.role name.now }
{
    match name.role {
        Role::State => name.bounds,
        Role::Input => name.bounds,
        Role::Output => at(Frac::whole(0)),
        Role::Parameter => at(name.value),
        Role::Aux => at(Frac::whole(0)),
    }
}

// The interval of one number.
fn at(number: Frac) -> Interval
    ensures { result ≡ record { low = number; high = number } }
{
    Interval {
        low: number,
        high: number,
    }
}

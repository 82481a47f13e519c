//! The stages from a program to the intervals of its names.

ghost use Rattle.std.specs.Prelude.{◌≡◌, ◌<◌, length, map, IfOk, IfErr};
ghost use Rattle.hys_ast.specs.Seen.{source_of};
ghost use Rattle.hys_prog.specs.Places.{ItemAt};
ghost use Rattle.hys_prog.specs.Programs.{IsProgram};
ghost use Rattle.hys_prog.specs.Orders.{IsOrder};
ghost use Rattle.hys_order.specs.Links.{Below};
ghost use Rattle.hys_bound.specs.Ranges.{intervals};
ghost use Rattle.hys_compile.specs.Faults.{circle_fault, range_fault};
ghost use Rattle.hys_compile.specs.Sources.{text_at, IsProgramOf};
ghost use Rattle.hys_compile.specs.Text.{IsTyped, IsOrdered, IsRanged, IsEarlyRefusal};

use crate::fault::{Detail, SourceFault};
use crate::number;
use hys_ast::{Place, Source};
use hys_base::{List, Text};
use hys_bound::{BoundFault, bounds};
use hys_lex::Token;
use hys_lin::{Interval, Lost};
use hys_order::{OrderFault, order};
use hys_prog::{Name, NameId, Order, ProgItem, Program};
use std::alloc::{AllocError, Global};

// The texts of names.
fn texts_of(alloc: Global, names: &[Name], places: &[NameId]) -> Result<List<Text>, AllocError>
    requires { Below (length names.now) places.now }
    ensures { IfOk result (λ texts. texts ≡ map (text_at names.now) places.now) }
{
    let mut texts = Vec::new(alloc);
    for place in places {
        texts.push(names[*place as usize].text.clone()?)?;
    }
    Ok(List::of(texts))
}

// A circle of names, as it is shown.
fn show_circle(alloc: Global, names: &[Name], places: &[NameId]) -> Result<SourceFault, AllocError>
    requires { Below (length names.now) places.now }
    ensures { IfOk result (λ f. f ≡ circle_fault (map (text_at names.now) places.now)) }
{
    Ok(SourceFault {
        number: number::CYCLE,
        detail: Detail::Names(texts_of(alloc, names, places)?),
    })
}

// Orders the auxiliaries of the program.
#[tactic(auto, using(crate::proofs::Causes::by_memory))]
pub fn define(
    alloc: Global,
    text: &[u8],
    tokens: &[Token],
    source: &Source,
    program: &Program,
) -> Result<Order, SourceFault>
    requires typed { IsTyped text.now tokens.now (source_of source.now) }
    requires translation { IsProgramOf (source_of source.now) program.now }
    requires program { IsProgram program.now }
    ensures order { IfOk result (λ o. IsOrder program.now o) }
    ensures ordered { IfOk result (λ _. IsOrdered text.now tokens.now (source_of source.now)) }
    ensures err { IfErr result (IsEarlyRefusal text.now) }
{
    match order(alloc, program) {
        Ok(order) => Ok(order),
        Err(OrderFault::Cycle(places)) => {
            Err(show_circle(alloc, program.names.items(), places.items())?)
        }
        Err(OrderFault::Memory) => Err(SourceFault::memory()),
    }
}

// The place of an item.
#[tactic(auto, using(crate::proofs::Unfit::item_at))]
pub fn place_of(items: &[ProgItem], item: u32) -> Place
    requires { item < length items.now }
    ensures { ItemAt items.now item (λ t. t.place ≡ result) }
{
    items[item as usize].place
}

// An operation of an item whose result doesn't fit, as it is shown.
pub fn show_range(place: Place, lost: Lost) -> SourceFault
    ensures { result ≡ range_fault place lost }
{
    SourceFault {
        number: number::RANGE,
        detail: Detail::Range(place, lost),
    }
}

// Finds the intervals of the names.
#[tactic(auto, using(crate::proofs::Causes::by_memory))]
pub fn find_intervals(
    alloc: Global,
    text: &[u8],
    tokens: &[Token],
    source: &Source,
    program: &Program,
    order: &Order,
) -> Result<Vec<Interval>, SourceFault>
    requires ordered { IsOrdered text.now tokens.now (source_of source.now) }
    requires translation { IsProgramOf (source_of source.now) program.now }
    requires program { IsProgram program.now }
    requires order { IsOrder program.now order.now }
    ensures intervals { IfOk result (λ boxes. boxes.items ≡ intervals program.now order.now) }
    ensures ranged { IfOk result (λ _. IsRanged text.now tokens.now (source_of source.now)) }
    ensures err { IfErr result (IsEarlyRefusal text.now) }
{
    match bounds(alloc, program, order) {
        Ok(intervals) => Ok(intervals),
        Err(BoundFault::Range(item, lost)) => Err(show_range(
            place_of(program.items.items(), item),
            lost,
        )),
        Err(BoundFault::Memory) => Err(SourceFault::memory()),
    }
}

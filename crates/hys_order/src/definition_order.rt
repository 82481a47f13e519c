ghost use Rattle.std.specs.Prelude.{length, MatchOption};
ghost use Rattle.hys_prog.specs.Programs.{IsProgram};
ghost use Rattle.hys_order.specs.Answers.{Ordered};
ghost use Rattle.hys_order.specs.Links.{Untaken, Passed, Below};

use crate::auxiliaries::{auxiliaries, others_of};
use crate::fault::OrderFault;
use crate::links::links;
use crate::round::{from_least, round};
use crate::selection::take_ready;
use hys_base::List;
use hys_prog::{NameId, Order, Program};
use std::alloc::Global;

/// The auxiliaries in the order of their definition: again and again the first declared one that
/// isn't taken and whose mentioned auxiliaries are all taken.
///
/// # Errors
/// `Cycle` exactly where the auxiliaries have no order, with a circular list that begins with its
/// name declared first. `Memory` where memory is wanting, as it is for more names than a `NameId`
/// can number.
pub fn order(alloc: Global, program: &Program) -> Result<Order, OrderFault>
    requires { IsProgram program.now }
    ensures { Ordered program.now result }
{
    let names = program.names.items();
    let links = links(alloc, program)?;
    let auxiliaries = auxiliaries(alloc, names)?;
    let mut taken = others_of(alloc, names)?;
    let order = take_ready(alloc, &auxiliaries, &links, &mut taken)?;
    match first_left(&auxiliaries, &taken) {
        None => Ok(Order {
            names: List::of(order),
        }),
        Some(start) => {
            let cycle = round(alloc, start, &links, &taken)?;
            let turned = from_least(alloc, &cycle)?;
            Err(OrderFault::Cycle(List::of(turned)))
        }
    }
}

// The first of the names that isn't taken.
fn first_left(names: &[NameId], taken: &[bool]) -> Option<NameId>
    requires { Below (length taken.now) names.now }
    ensures { MatchOption result (Passed taken.now names.now (length names.now)) (λ n. Untaken taken.now n) }
{
    for name in names {
        if !taken[*name as usize] {
            return Some(*name);
        }
    }
    None
}

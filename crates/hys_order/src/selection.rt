ghost use Rattle.std.specs.Prelude.{◌≡◌, ◌<◌, ◌≤◌, IfOk, IsTrue, ◌↔◌, length, true, false};
ghost use Rattle.std.proofs.Common.{get_or};
ghost use Rattle.hys_order.specs.Links.{link, Passed, Below, Taking, IsStuck, AreCursors, AreLinks, SelectsReady};

use crate::fault::OrderFault;
use hys_base::List;
use hys_prog::NameId;
use std::alloc::{AllocError, Global};

/// The first place from `from` on of a name that isn't taken, or the number of names.
pub fn passed(names: &[NameId], from: usize, taken: &[bool]) -> usize
    requires within { from ≤ length names.now }
    requires below { Below (length taken.now) names.now }
    requires before { Passed taken.now names.now from }
    ensures within { result ≤ length names.now }
    ensures before { Passed taken.now names.now result }
    ensures here { result < length names.now → get_or taken.now (get_or names.now result 0) true ≡ false }
{
    let mut place = from;
    while place < names.len() && taken[names[place] as usize] {
        place += 1;
    }
    place
}

// Whether all that the name leads to is taken. Its cursor only goes on.
fn advance(name: usize, links: &[List<NameId>], taken: &[bool], cursors: &mut Vec<usize>) -> bool
    requires name { name < length links.now }
    requires count { length taken.now ≡ length links.now }
    requires links { AreLinks links.now }
    requires length { length cursors.old.items ≡ length links.now }
    requires cursors { AreCursors taken.now links.now cursors.old.items }
    ensures ready { IsTrue result ↔ Passed taken.now (link links.now name) (length (link links.now name)) }
    ensures length { length cursors.new.items ≡ length links.now }
    ensures cursors { AreCursors taken.now links.now cursors.new.items }
{
    let mentioned = links[name].items();
    let place = passed(mentioned, cursors[name], taken);
    cursors[name] = place;
    place == mentioned.len()
}

// The first of the names that is ready, where one is.
fn next_ready(
    names: &[NameId],
    links: &[List<NameId>],
    taken: &[bool],
    cursors: &mut Vec<usize>,
) -> Option<NameId>
    requires count { length taken.now ≡ length links.now }
    requires names { Below (length links.now) names.now }
    requires links { AreLinks links.now }
    requires length { length cursors.old.items ≡ length links.now }
    requires cursors { AreCursors taken.now links.now cursors.old.items }
    ensures first { SelectsReady links.now names.now taken.now result }
    ensures length { length cursors.new.items ≡ length links.now }
    ensures cursors { AreCursors taken.now links.now cursors.new.items }
{
    for name in names {
        let n = *name as usize;
        if !taken[n] && advance(n, links, taken, cursors) {
            return Some(*name);
        }
    }
    None
}

/// Takes one ready name after the other, always the first, until none is left that is ready.
pub fn take_ready(
    alloc: Global,
    names: &[NameId],
    links: &[List<NameId>],
    taken: &mut Vec<bool>,
) -> Result<Vec<NameId>, AllocError>
    requires count { length taken.old.items ≡ length links.now }
    requires names { Below (length links.now) names.now }
    requires links { AreLinks links.now }
    ensures length { length taken.new.items ≡ length links.now }
    ensures taking { IfOk result (λ ns. Taking links.now names.now taken.old.items ns.items taken.new.items) }
    ensures stuck { IfOk result (λ _. IsStuck links.now names.now taken.new.items) }
{
    let mut cursors = vec![in alloc; 0usize; links.len()]?;
    let mut order = Vec::new(alloc);
    while let Some(name) = next_ready(names, links, taken, &mut cursors) {
        taken[name as usize] = true;
        order.push(name)?;
    }
    Ok(order)
}

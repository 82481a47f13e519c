ghost use Rattle.std.specs.Prelude.{◌≡◌, ◌<◌, ◌≤◌, ◌++◌, ℕ, IfOk, length, take, drop, true, false};
ghost use Rattle.std.proofs.Common.{get_or};
ghost use Rattle.hys_order.specs.Links.{link, Untaken, Round, Ready, AreLinks, IsRound, IsTurned};
ghost use Rattle.hys_order.specs.Answers.{BeginsWithLeast};

use crate::selection::passed;
use hys_base::List;
use hys_prog::NameId;
use std::alloc::{AllocError, Global};

/// A round of names that aren't taken, each leading to the next. None of these names is ready.
pub fn round(
    alloc: Global,
    start: NameId,
    links: &[List<NameId>],
    taken: &[bool],
) -> Result<Vec<NameId>, AllocError>
    requires start { Untaken taken.now start }
    requires count { length taken.now ≡ length links.now }
    requires links { AreLinks links.now }
    requires stuck { (n : ℕ) → Untaken taken.now n → ¬ (Ready taken.now links.now n) }
    ensures { IfOk result (λ ns. IsRound taken.now links.now ns.items) }
{
    let mut seen = vec![in alloc; false; links.len()]?;
    let mut path = Vec::new(alloc);
    let mut name = start;
    while !seen[name as usize] {
        seen[name as usize] = true;
        path.push(name)?;
        let mentioned = links[name as usize].items();
        name = mentioned[passed(mentioned, 0, taken)];
    }
    let from = place_of(path.as_slice(), name);
    let round = tail_of(alloc, path.as_slice(), from)?;
    Ok(round)
}

// The names from the place on.
fn tail_of(alloc: Global, names: &[NameId], from: usize) -> Result<Vec<NameId>, AllocError>
    requires { from ≤ length names.now }
    ensures { IfOk result (λ ns. ns.items ≡ drop from names.now) }
{
    Vec::from_slice(alloc, &names[from..])
}

// The first place of the name, or the number of names.
fn place_of(names: &[NameId], name: NameId) -> usize
    ensures within { result ≤ length names.now }
    ensures before { (k : ℕ) → k < result → ¬ (get_or names.now k 0 ≡ name) }
    ensures here { result < length names.now → get_or names.now result 0 ≡ name }
{
    for (k, other) in names.iter().enumerate() {
        if *other == name {
            return k;
        }
    }
    names.len()
}

/// The same round from the least of its names on.
pub fn from_least(alloc: Global, names: &[NameId]) -> Result<Vec<NameId>, AllocError>
    requires { 0 < length names.now }
    ensures { IfOk result (λ ns. IsTurned names.now ns.items) }
{
    let place = least(names);
    let mut turned = tail_of(alloc, names, place)?;
    turned.extend_from_slice(&names[..place])?;
    Ok(turned)
}

// The place of the least name.
fn least(names: &[NameId]) -> usize
    requires { 0 < length names.now }
    ensures within { result < length names.now }
    ensures least { (k : ℕ) → k < length names.now → get_or names.now result 0 ≤ get_or names.now k 0 }
{
    let mut place = 0;
    for (k, name) in names.iter().enumerate() {
        if *name < names[place] {
            place = k;
        }
    }
    place
}

ghost use Rattle.std.specs.Prelude.{◌≡◌, ◌<◌, ◌≤◌, ◌+◌, ◌++◌, ◌^◌, ℕ, Some, None, length, IfOk, MatchOption};
ghost use Rattle.hys_tree.specs.declared.tree.TreePlace.TheVariants.{Cost as cost, Never as never};
ghost use Rattle.hys_search.specs.Nodes.{IsRising, opened, first_child, shape, labels};
ghost use Rattle.hys_search.specs.Standings.{certificate_at};
ghost use Rattle.hys_search.specs.Core.{core, Holds, NoneKept, IsOpenKept, IsNotOpenKept};
ghost use Rattle.hys_search.specs.Places.{place_of, places_of, is_cost, IsLower, IsLesserWith, IsKeptCause};

use crate::columns::is_settled;
use crate::nodes::{Certificate, Node, Standing, Table};
use hys_frac::{Frac, List};
use hys_relax::{Multipliers, RangeAt};
use hys_tree::{TreePlace, Why};
use std::alloc::{AllocError, Global};
use std::cmp::Ordering;

/// The nodes in the order of their tree: each before those below it, the child at 0 first.
pub fn order(alloc: Global, nodes: &[Node]) -> Result<Vec<usize>, AllocError>
    requires rooted { 0 < length nodes.now }
    requires few { length nodes.now ≤ 1000001 }
    requires rising { IsRising nodes.now }
    ensures { IfOk result (λ v. v.items ≡ labels (shape nodes.now)) }
{
    let mut order = Vec::new(alloc);
    let mut stack = Vec::new(alloc);
    stack.push(0usize)?;
    while let Some(place) = stack.pop() {
        order.push(place)?;
        open_children(&mut stack, nodes[place].standing)?;
    }
    Ok(order)
}

// The children are to come next, the first one before the second.
fn open_children(stack: &mut Vec<usize>, standing: Standing) -> Result<(), AllocError>
    requires { (k : ℕ) → first_child standing ≡ Some k → k + 1 < 2 ^ 64 }
    ensures { IfOk result (λ _. stack.new.items ≡ stack.old.items ++ opened (first_child standing)) }
{
    match standing {
        Standing::Inner(_, first) => {
            stack.push(first + 1)?;
            stack.push(first)?;
            Ok(())
        }
        Standing::Waits => Ok(()),
        Standing::Never => Ok(()),
        Standing::Closed => Ok(()),
        Standing::Kept(_) => Ok(()),
    }
}

// The place of one node.
fn place(
    alloc: Global,
    certificates: &[Certificate],
    held: usize,
    standing: Standing,
) -> Result<TreePlace, AllocError>
    requires { first_child standing ≡ None → held < length certificates.now }
    ensures { IfOk result (λ p. p ≡ place_of (certificate_at certificates.now held) standing) }
{
    match standing {
        Standing::Inner(column, _) => Ok(TreePlace::Inner(column)),
        Standing::Never => never_place(alloc, certificates, held),
        Standing::Waits => cost_place(alloc, certificates, held),
        Standing::Closed => cost_place(alloc, certificates, held),
        Standing::Kept(_) => cost_place(alloc, certificates, held),
    }
}

// The same multipliers again.
fn copied(alloc: Global, multipliers: &Multipliers) -> Result<Multipliers, AllocError>
    ensures { IfOk result (λ m. m ≡ multipliers.now) }
{
    let pairs = Vec::from_slice(alloc, multipliers.pairs.items())?;
    Ok(Multipliers {
        pairs: List::of(pairs),
    })
}

// The same fault again.
fn copied_fault(alloc: Global, fault: &RangeAt) -> Result<RangeAt, AllocError>
    ensures { IfOk result (λ f. f ≡ fault.now) }
{
    let path = Vec::from_slice(alloc, fault.path.items())?;
    Ok(RangeAt {
        path: List::of(path),
        at: fault.at,
    })
}

fn cost_place(
    alloc: Global,
    certificates: &[Certificate],
    held: usize,
) -> Result<TreePlace, AllocError>
    requires { held < length certificates.now }
    ensures { let c = certificate_at certificates.now held in IfOk result (λ p. p ≡ cost c.multipliers c.depth) }
{
    let certificate = &certificates[held];
    let multipliers = copied(alloc, &certificate.multipliers)?;
    Ok(TreePlace::Cost(multipliers, certificate.depth))
}

fn never_place(
    alloc: Global,
    certificates: &[Certificate],
    held: usize,
) -> Result<TreePlace, AllocError>
    requires { held < length certificates.now }
    ensures { let c = certificate_at certificates.now held in IfOk result (λ p. p ≡ never c.multipliers c.depth) }
{
    let certificate = &certificates[held];
    let multipliers = copied(alloc, &certificate.multipliers)?;
    Ok(TreePlace::Never(multipliers, certificate.depth))
}

/// The places of the tree in preorder.
pub fn places(alloc: Global, table: &Table) -> Result<Vec<TreePlace>, AllocError>
    requires { Holds (core table.now) }
    ensures { IfOk result (λ v. v.items ≡ places_of (core table.now)) }
{
    let order = order(alloc, table.nodes.as_slice())?;
    let mut places = Vec::new(alloc);
    for i in 0..order.len() {
        let at = order[i];
        let node = &table.nodes[at];
        let place = place(
            alloc,
            table.certificates.as_slice(),
            node.held,
            node.standing,
        )?;
        places.push(place)?;
    }
    Ok(places)
}

// Whether a leaf has a bound on the cost.
fn is_cost_leaf(standing: Standing) -> bool
    ensures { result ≡ is_cost standing }
{
    match standing {
        Standing::Waits => true,
        Standing::Inner(_, _) => false,
        Standing::Never => false,
        Standing::Closed => true,
        Standing::Kept(_) => true,
    }
}

/// The least bound of the leaves that have one.
pub fn lower(table: &Table) -> Option<Frac>
    requires { Holds (core table.now) }
    ensures { IsLower (core table.now) result }
{
    let mut least = None;
    for i in 0..table.nodes.len() {
        least = lesser(least, &table.certificates, &table.nodes[i]);
    }
    least
}

// The lesser of a bound and that of one more node, where it has one.
fn lesser(least: Option<Frac>, certificates: &Vec<Certificate>, node: &Node) -> Option<Frac>
    requires { first_child node.now.standing ≡ None → node.now.held < length certificates.now.items }
    ensures { IsLesserWith least certificates.now.items node.now result }
{
    if !is_cost_leaf(node.standing) {
        return least;
    }
    let bound = certificates[node.held].bound;
    match least {
        None => Some(bound),
        Some(other) => match bound.cmp(other) {
            Ordering::Less => Some(bound),
            Ordering::Equal => Some(other),
            Ordering::Greater => Some(other),
        },
    }
}

/// The first open leaf, in preorder, that was kept.
pub fn kept(alloc: Global, table: &Table) -> Result<Option<Why>, AllocError>
    requires { Holds (core table.now) }
    ensures { let C = core table.now in IfOk result (λ o. MatchOption o (NoneKept C) (λ w. IsKeptCause C w)) }
{
    let order = order(alloc, table.nodes.as_slice())?;
    for i in 0..order.len() {
        let at = order[i];
        if let Some(fault) = open_fault(table, at) {
            let at = copied_fault(alloc, &table.faults[fault])?;
            let node = i as u32;
            return Ok(Some(Why::Range { node, at }));
        }
    }
    Ok(None)
}

// The fault of an open leaf that was kept.
fn open_fault(table: &Table, place: usize) -> Option<usize>
    requires holds { Holds (core table.now) }
    requires there { place < length table.now.nodes.items }
    ensures { MatchOption result (IsNotOpenKept (core table.now) place) (λ a. IsOpenKept (core table.now) place a) }
{
    let node = &table.nodes[place];
    match node.standing {
        Standing::Kept(fault) => {
            if is_settled(&table.found, table.certificates[node.held].bound) {
                None
            } else {
                Some(fault)
            }
        }
        Standing::Waits => None,
        Standing::Inner(_, _) => None,
        Standing::Never => None,
        Standing::Closed => None,
    }
}

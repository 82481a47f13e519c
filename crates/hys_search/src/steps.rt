ghost use Rattle.std.specs.Prelude.{◌≡◌, ◌+◌, ◌*◌, ◌<◌, ◌≤◌, ◌∷◌, [], ◌++◌, length, IfOk, OnOk, vec_len, vec_capacity};
ghost use Rattle.hys_relax.specs.Bound.{plain_bound};
ghost use Rattle.hys_search.specs.Nodes.{path, AreParents};
ghost use Rattle.hys_search.specs.Core.{core, start, Holds, HasRoom, HasPlaces, settled, branched, child as child_of};

use crate::nodes::{Certificate, Node, Standing, Table, Waiting};
use hys_dual::Warm;
use hys_frac::{Frac, List};
use hys_lin::Problem;
use hys_relax::{Fixing, Multipliers};
use std::alloc::{AllocError, Global};

/// Only the root, which waits with the plain bound `lowest`.
pub fn begin(
    alloc: Global,
    problem: Problem,
    nodes: u32,
    lowest: Frac,
    warm: Warm,
) -> Result<Table, AllocError>
    requires few { nodes ≤ 500000 }
    requires plain { lowest ≡ plain_bound problem }
    ensures { IfOk result (λ t. core t ≡ start problem nodes warm) }
{
    let most = most_nodes(nodes, problem.branch.items().len()) + 1;
    let mut table = Table {
        problem,
        limit: nodes,
        nodes: Vec::with_capacity(alloc, most)?,
        certificates: Vec::with_capacity(alloc, 1)?,
        faults: Vec::new(alloc),
        queue: Vec::with_capacity(alloc, most)?,
        waiting: Vec::with_capacity(alloc, most)?,
        expanded: 0,
        found: None,
        warm,
        warm_at: 0,
    };
    put(&mut table.nodes, child(0, 0, false, 0));
    put(
        &mut table.certificates,
        Certificate {
            multipliers: nothing(alloc),
            depth: 0,
            bound: lowest,
        },
    );
    put(&mut table.queue, 0);
    put(
        &mut table.waiting,
        Waiting {
            depth: 0,
            bound: lowest,
        },
    );
    Ok(table)
}

/// No multipliers.
pub fn nothing(alloc: Global) -> Multipliers
    ensures { result.pairs ≡ [] }
{
    Multipliers {
        pairs: List::of(Vec::new(alloc)),
    }
}

// How many nodes there can be beside the root where so many are expanded and so many columns are
// branched: each expansion adds two, and a tree over so many columns has no more than two less than a
// power of two.
fn most_nodes(nodes: u32, columns: usize) -> usize
    requires { nodes ≤ 500000 }
    ensures { result ≤ 1000000 }
{
    let most = 2 * nodes as usize;
    let mut more = 0;
    for _ in 0..columns {
        if more >= most {
            return most;
        }
        more = 2 * more + 2;
    }
    if more < most { more } else { most }
}

/// The fixings of a node, from the root on.
pub fn fixings(alloc: Global, nodes: &[Node], place: usize) -> Result<Vec<Fixing>, AllocError>
    requires there { place < length nodes.now }
    requires parents { AreParents nodes.now }
    ensures { IfOk result (λ v. v.items ≡ path nodes.now place) }
{
    let mut found = Vec::new(alloc);
    let mut at = place;
    while at > 0 {
        found.push(nodes[at].fixing)?;
        at = nodes[at].parent;
    }
    found.reverse();
    Ok(found)
}

/// Appends where there is room.
pub fn put<T: Drop>(list: &mut Vec<T>, item: T)
    requires { vec_len list.old < vec_capacity list.old }
    ensures items { list.new.items ≡ list.old.items ++ item ∷ [] }
    ensures len { vec_len list.new ≡ vec_len list.old + 1 }
    ensures capacity { vec_capacity list.old ≤ vec_capacity list.new }
{
    let _ = list.push(item);
}

/// Puts first where there is room.
pub fn put_first<T: Drop>(list: &mut Vec<T>, item: T)
    requires { vec_len list.old < vec_capacity list.old }
    ensures items { list.new.items ≡ item ∷ list.old.items }
    ensures len { vec_len list.new ≡ vec_len list.old + 1 }
    ensures capacity { vec_capacity list.old ≤ vec_capacity list.new }
{
    let _ = list.insert(0, item);
}

/// Room for all that one step lists.
pub fn make_room(table: &mut Table) -> Result<(), AllocError>
    ensures same { core table.new ≡ core table.old }
    ensures room { OnOk result (HasRoom table.new) }
{
    table.nodes.try_reserve(2)?;
    table.certificates.try_reserve(1)?;
    table.faults.try_reserve(1)?;
    table.queue.try_reserve(1)?;
    table.waiting.try_reserve(1)
}

/// The picked node becomes a leaf that doesn't wait.
pub fn settle(table: &mut Table, which: usize, held: usize, standing: Standing)
    requires holds { Holds (core table.old) }
    requires within { which < length (core table.old).queue }
    requires left { (core table.old).expanded < (core table.old).limit }
    ensures { core table.new ≡ settled (core table.old) which held standing (core table.old).found }
{
    let place = table.queue.remove(which);
    let _ = table.waiting.remove(which);
    let node = &mut table.nodes[place];
    node.held = held;
    node.standing = standing;
    table.expanded += 1;
}

/// The picked node gets two children, which are the first to wait.
pub fn branch(table: &mut Table, which: usize, held: usize, column: u32)
    requires holds { Holds (core table.old) }
    requires within { which < length (core table.old).queue }
    requires left { (core table.old).expanded < (core table.old).limit }
    requires there { held < length (core table.old).certificates }
    requires room { HasPlaces table.old }
    ensures { core table.new ≡ branched (core table.old) which held column }
{
    let first = table.nodes.len();
    let depth = table.waiting[which].depth + 1;
    let bound = table.certificates[held].bound;
    let place = table.queue.remove(which);
    let _ = table.waiting.remove(which);
    let node = &mut table.nodes[place];
    node.held = held;
    node.standing = Standing::Inner(column, first);
    put(&mut table.nodes, child(place, column, false, held));
    put(&mut table.nodes, child(place, column, true, held));
    put_first(&mut table.queue, first);
    put_first(&mut table.queue, first + 1);
    put_first(&mut table.waiting, Waiting { depth, bound });
    put_first(&mut table.waiting, Waiting { depth, bound });
    table.expanded += 1;
}

fn child(parent: usize, column: u32, one: bool, held: usize) -> Node
    ensures { result ≡ child_of parent column one held }
{
    Node {
        parent,
        fixing: Fixing { column, one },
        held,
        standing: Standing::Waits,
    }
}

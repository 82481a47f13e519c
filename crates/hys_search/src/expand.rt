ghost use Rattle.std.specs.Prelude.{◌≡◌, ◌<◌, Some, length, IfOk, OnErr, vec_len, vec_capacity};
ghost use Rattle.hys_dual.specs.Relaxing.{IsLeast, IsNever, IsStuck, IsRelaxed, IsWarm, EndsAfter, IsPointAfter};
ghost use Rattle.hys_dual.specs.Bounding.{IsBoundAt};
ghost use Rattle.hys_search.specs.Outcome.{IsOutcome, IsPointOf};
ghost use Rattle.hys_search.specs.Branching.{cost_at, IsChosen};
ghost use Rattle.hys_search.specs.Nodes.{path};
ghost use Rattle.hys_search.specs.Standings.{IsSettledBy, bound_of};
ghost use Rattle.hys_search.specs.Core.{core, picked_of, picked_path, Holds, HasRoom, settled, with_certificate, IsHeldBetter};
ghost use Rattle.hys_search.specs.Answers.{IsExpanded, GoesOnBelow, PathAfter};
ghost use Rattle.hys_search.specs.declared.expand.Expanded.TheVariants.{Never as never, Closed as closed_it};
ghost use Rattle.hys_search.specs.declared.nodes.Standing.TheVariants.{Closed as closed};

use crate::columns::{free_column, is_settled};
use crate::nodes::{Certificate, Standing, Table};
use crate::outcome::{Outcome, judge};
use crate::steps::{branch, fixings, make_room, put, settle};
use hys_dual::{Relaxed, Warm, first, solve_from};
use hys_frac::Frac;
use hys_lin::Point;
use hys_relax::{Fixing, Multipliers, RangeAt};
use hys_tree::Best;
use std::alloc::{AllocError, Global};
use std::cmp::Ordering;

/// What became of the node that was expanded.
#[derive(Clone, Copy, Debug, PartialEq, Eq)]
pub enum Expanded {
    /// It has no relaxed point.
    Never,
    /// Its bound isn't below the best cost.
    Closed,
    /// Its relaxed point is a solution, the best so far.
    Found,
    /// It has two children.
    Branched,
    /// A number didn't fit, and no branch column is free.
    Kept,
}

/// Works on the node at place `which` of those that wait.
pub fn expand(table: &mut Table, alloc: Global, which: usize) -> Result<Expanded, AllocError>
    requires holds { Holds (core table.old) }
    requires within { which < length (core table.old).waiting }
    requires left { (core table.old).expanded < (core table.old).limit }
    ensures memory { OnErr result (core table.new ≡ core table.old) }
    ensures expanded { IfOk result (λ e. IsExpanded (core table.old) which (core table.new) e) }
    ensures path { IfOk result (λ e. PathAfter (core table.old) which (core table.new) e) }
{
    make_room(table)?;
    step(table, alloc, which)
}

// The same, where there is room.
fn step(table: &mut Table, alloc: Global, which: usize) -> Result<Expanded, AllocError>
    requires holds { Holds (core table.old) }
    requires within { which < length (core table.old).waiting }
    requires left { (core table.old).expanded < (core table.old).limit }
    requires room { HasRoom table.old }
    ensures memory { OnErr result (core table.new ≡ core table.old) }
    ensures expanded { IfOk result (λ e. IsExpanded (core table.old) which (core table.new) e) }
    ensures path { IfOk result (λ e. PathAfter (core table.old) which (core table.new) e) }
{
    if is_settled(&table.found, table.waiting[which].bound) {
        close(table, which);
        return Ok(Expanded::Closed);
    }
    let place = table.queue[which];
    let fixings = fixings(alloc, table.nodes.as_slice(), place)?;
    let (relaxed, warm) = relax(alloc, table, place, fixings.as_slice())?;
    let outcome = judge(
        alloc,
        &table.problem,
        fixings.as_slice(),
        relaxed,
        warm.tableau(),
    )?;
    table.warm = warm;
    table.warm_at = place;
    Ok(apply(table, which, fixings.as_slice(), outcome))
}

// The relaxation of a node, from the kept tableau where that is of the node above.
fn relax(
    alloc: Global,
    table: &Table,
    place: usize,
    fixings: &[Fixing],
) -> Result<(Relaxed, Warm), AllocError>
    requires holds { Holds (core table.now) }
    requires there { place < length (core table.now).nodes }
    requires fixings { fixings.now ≡ path (core table.now).nodes place }
    ensures relaxed { IfOk result (λ r. IsRelaxed table.now.problem fixings.now r.0) }
    ensures ends { IfOk result (λ r. EndsAfter table.now.problem fixings.now r.1.path r.0) }
    ensures warm { IfOk result (λ r. IsWarm table.now.problem fixings.now r.1) }
    ensures path { IfOk result (λ r. GoesOnBelow (core table.now) place fixings.now r.1.path) }
{
    if table.nodes[place].parent == table.warm_at {
        return solve_from(alloc, &table.problem, fixings, &table.warm);
    }
    let begun = first(alloc, &table.problem)?;
    solve_from(alloc, &table.problem, fixings, &begun)
}

// What the outcome at the picked node changes. The kept tableau is the node's.
fn apply(table: &mut Table, which: usize, fixings: &[Fixing], outcome: Outcome) -> Expanded
    requires holds { Holds (core table.old) }
    requires within { which < length (core table.old).queue }
    requires left { (core table.old).expanded < (core table.old).limit }
    requires room { HasRoom table.old }
    requires warm { (core table.old).warm_at ≡ picked_of (core table.old) which }
    requires fixings { fixings.now ≡ picked_path (core table.old) which }
    requires outcome { IsOutcome (core table.old).problem (picked_path (core table.old) which) outcome }
    requires point { let C = core table.old in IsPointOf C.problem (picked_path C which) C.warm.path outcome }
    ensures expanded { IsExpanded (core table.old) which (core table.new) result }
    ensures warm { (core table.new).warm ≡ (core table.old).warm }
{
    match outcome {
        Outcome::Never { multipliers } => {
            exclude(table, which, multipliers);
            Expanded::Never
        }
        Outcome::Least {
            point,
            cost,
            multipliers,
            column,
        } => bounded(table, which, point, cost, multipliers, column),
        Outcome::Stuck {
            at,
            multipliers,
            bound,
        } => stuck(table, which, fixings, at, multipliers, bound),
    }
}

// The picked node's bound isn't below the best cost.
fn close(table: &mut Table, which: usize)
    requires holds { Holds (core table.old) }
    requires within { which < length (core table.old).queue }
    requires left { (core table.old).expanded < (core table.old).limit }
    requires settled { let C = core table.old in IsSettledBy C.found (bound_of C.nodes C.certificates (picked_of C which)) }
    ensures { IsExpanded (core table.old) which (core table.new) closed_it }
{
    let held = table.nodes[table.queue[which]].held;
    settle(table, which, held, Standing::Closed);
}

// The place of new multipliers.
fn hold(
    certificates: &mut Vec<Certificate>,
    multipliers: Multipliers,
    depth: u32,
    bound: Frac,
) -> usize
    requires { vec_len certificates.old < vec_capacity certificates.old }
    ensures held { result ≡ length certificates.old.items }
    ensures items { certificates.new.items ≡ with_certificate certificates.old.items multipliers depth bound }
{
    let held = certificates.len();
    put(
        certificates,
        Certificate {
            multipliers,
            depth,
            bound,
        },
    );
    held
}

// The picked node has no relaxed point.
fn exclude(table: &mut Table, which: usize, multipliers: Multipliers)
    requires holds { Holds (core table.old) }
    requires within { which < length (core table.old).queue }
    requires left { (core table.old).expanded < (core table.old).limit }
    requires room { HasRoom table.old }
    requires never { IsNever (core table.old).problem (picked_path (core table.old) which) multipliers.pairs }
    ensures expanded { IsExpanded (core table.old) which (core table.new) never }
    ensures warm { (core table.new).warm ≡ (core table.old).warm }
{
    let depth = table.waiting[which].depth;
    let held = hold(&mut table.certificates, multipliers, depth, Frac::whole(0));
    settle(table, which, held, Standing::Never);
}

// The picked node has a least relaxed point.
fn bounded(
    table: &mut Table,
    which: usize,
    point: Point,
    cost: Frac,
    multipliers: Multipliers,
    column: Option<u32>,
) -> Expanded
    requires holds { Holds (core table.old) }
    requires within { which < length (core table.old).queue }
    requires left { (core table.old).expanded < (core table.old).limit }
    requires room { HasRoom table.old }
    requires warm { (core table.old).warm_at ≡ picked_of (core table.old) which }
    requires least { let C = core table.old in IsLeast C.problem (picked_path C which) point.values multipliers.pairs }
    requires cost { cost_at (core table.old).problem point ≡ cost }
    requires column { IsChosen (core table.old).problem point column }
    requires point { let C = core table.old in IsPointAfter C.problem (picked_path C which) C.warm.path point.values }
    ensures expanded { IsExpanded (core table.old) which (core table.new) result }
    ensures warm { (core table.new).warm ≡ (core table.old).warm }
{
    let depth = table.waiting[which].depth;
    let held = hold(&mut table.certificates, multipliers, depth, cost);
    if is_settled(&table.found, cost) {
        settle(table, which, held, Standing::Closed);
        return Expanded::Closed;
    }
    match column {
        Some(column) => {
            branch(table, which, held, column);
            Expanded::Branched
        }
        None => {
            find(table, which, held, Best { point, cost });
            Expanded::Found
        }
    }
}

// The picked node is closed by a better solution.
fn find(table: &mut Table, which: usize, held: usize, best: Best)
    requires holds { Holds (core table.old) }
    requires within { which < length (core table.old).queue }
    requires left { (core table.old).expanded < (core table.old).limit }
    ensures { core table.new ≡ settled (core table.old) which held closed (Some best) }
{
    settle(table, which, held, Standing::Closed);
    table.found = Some(best);
}

// A number didn't fit in the relaxation of the picked node.
fn stuck(
    table: &mut Table,
    which: usize,
    fixings: &[Fixing],
    at: RangeAt,
    multipliers: Multipliers,
    bound: Option<Frac>,
) -> Expanded
    requires holds { Holds (core table.old) }
    requires within { which < length (core table.old).queue }
    requires left { (core table.old).expanded < (core table.old).limit }
    requires room { HasRoom table.old }
    requires warm { (core table.old).warm_at ≡ picked_of (core table.old) which }
    requires fixings { fixings.now ≡ picked_path (core table.old) which }
    requires stuck { IsStuck (core table.old).problem (picked_path (core table.old) which) at multipliers.pairs }
    requires bound { IsBoundAt (core table.old).problem (picked_path (core table.old) which) multipliers.pairs bound }
    ensures expanded { IsExpanded (core table.old) which (core table.new) result }
    ensures warm { (core table.new).warm ≡ (core table.old).warm }
{
    let place = table.queue[which];
    let before = table.nodes[place].held;
    let depth = table.waiting[which].depth;
    let held = hold_better(&mut table.certificates, before, multipliers, depth, bound);
    match free_column(&table.problem, fixings) {
        Some(column) => {
            branch(table, which, held, column);
            Expanded::Branched
        }
        None => {
            let fault = table.faults.len();
            put(&mut table.faults, at);
            settle(table, which, held, Standing::Kept(fault));
            Expanded::Kept
        }
    }
}

// The place of the node's own multipliers where their bound is known and better, else of those held.
fn hold_better(
    certificates: &mut Vec<Certificate>,
    held: usize,
    multipliers: Multipliers,
    depth: u32,
    bound: Option<Frac>,
) -> usize
    requires room { vec_len certificates.old < vec_capacity certificates.old }
    requires there { held < length certificates.old.items }
    ensures held { IsHeldBetter certificates.old.items held multipliers depth bound certificates.new.items result }
{
    match bound {
        None => held,
        Some(own) => match certificates[held].bound.cmp(own) {
            Ordering::Less => hold(certificates, multipliers, depth, own),
            Ordering::Equal => held,
            Ordering::Greater => held,
        },
    }
}

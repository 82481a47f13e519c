ghost use Rattle.std.specs.Prelude.{◌≡◌, ◌<◌, ◌≤◌, Some, None, [], IfOk, OnErr, MatchOption, length};
ghost use Rattle.hys_lin.specs.Problem.{IsProblem};
ghost use Rattle.hys_relax.specs.BoundSum.{BoundFits};
ghost use Rattle.hys_search.specs.Core.{Holds, NoneKept, IsFresh};
ghost use Rattle.hys_search.specs.Answers.{IsExpanded, KeepsLower, PathAfter};
ghost use Rattle.hys_search.specs.Places.{IsLower, NotBelowPlain, ShowsLower, IsTreeOf, IsKeptCause};

use crate::expand::{Expanded, expand};
use crate::nodes::{Table, Waiting};
use crate::steps::{begin, nothing};
use crate::tree::{kept, lower, places};
use hys_dual::{bound_at, first};
use hys_frac::{Frac, List};
use hys_lin::Problem;
use hys_tree::{Best, Tree, Why};
use std::alloc::{AllocError, Global};
use std::marker::Model;

/// A branch and bound search over the nodes of a problem. Each waiting node may be worked on next.
#[derive(Drop)]
pub struct Search {
    table: Table,
}

impl Model for Search {
    ghost use Rattle.hys_search.specs.Core.{Core, core, Holds};

    ghost Value = { Core };

    ghost view = { λ s. core s.table };

    ghost invariant = { λ s. Holds (core s.table) };
}

impl Search {
    /// A search in which the root waits with the plain bound, and in which at most so many nodes may
    /// be expanded. The numbers of the plain bound have to fit.
    pub fn new(alloc: Global, problem: Problem, nodes: u32) -> Result<Search, AllocError>
        requires problem { IsProblem problem }
        requires some { 1 ≤ nodes }
        requires few { nodes ≤ 500000 }
        requires plain { BoundFits problem [] [] }
        ensures fresh { IfOk result (λ s. IsFresh problem nodes s) }
        ensures holds { IfOk result (λ s. Holds s) }
    {
        match bound_at(alloc, &problem, &[], &nothing(alloc))? {
            Some(lowest) => {
                let warm = first(alloc, &problem)?;
                let table = begin(alloc, problem, nodes, lowest, warm)?;
                Ok(Search { table })
            }
            None => unreachable!(),
        }
    }

    /// The nodes that wait, the newest first; of two children that with the column at 1 comes first.
    pub fn waiting(&self) -> &[Waiting]
        ensures { result.now ≡ self.now.waiting }
    {
        self.table.waiting.as_slice()
    }

    /// How many nodes were expanded.
    pub fn expanded(&self) -> u32
        ensures { result ≡ self.now.expanded }
    {
        self.table.expanded
    }

    /// The least bound of a leaf with a bound on the cost. It is a lower bound on the cost of every
    /// solution; none where no leaf has one, and then there is no solution.
    pub fn lower(&self) -> Option<Frac>
        ensures lower { IsLower self.now result }
        ensures plain { NotBelowPlain self.now.problem result }
        ensures holds { Holds self.now }
    {
        lower(&self.table)
    }

    /// The best solution found.
    pub fn found(&self) -> Option<&Best>
        ensures { MatchOption result (self.now.found ≡ None) (λ b. self.now.found ≡ Some b.now) }
    {
        self.table.found.as_ref()
    }

    /// The tree of the nodes. It shows that no solution costs less than the lower bound, or that there
    /// is none.
    pub fn tree(&self, alloc: Global) -> Result<Tree, AllocError>
        ensures tree { IfOk result (λ t. IsTreeOf self.now t.places) }
        ensures shows { IfOk result (λ t. ShowsLower self.now t.places) }
    {
        let places = places(alloc, &self.table)?;
        Ok(Tree {
            places: List::of(places),
        })
    }

    /// Why the first leaf in the tree was kept that is still open: the number that didn't fit there.
    pub fn kept(&self, alloc: Global) -> Result<Option<Why>, AllocError>
        ensures { IfOk result (λ o. MatchOption o (NoneKept self.now) (λ w. IsKeptCause self.now w)) }
    {
        kept(alloc, &self.table)
    }

    /// The pivots of the last relaxation, from the slack basis on. A child of the node that was
    /// relaxed goes on from them.
    pub fn path(&self) -> &[(u32, u32)]
        ensures { result.now ≡ self.now.warm.path }
    {
        self.table.warm.path()
    }

    /// Works on the node at place `which` of those that wait. The lower bound doesn't fall.
    pub fn expand(&mut self, alloc: Global, which: usize) -> Result<Expanded, AllocError>
        requires within { which < length self.old.waiting }
        requires left { self.old.expanded < self.old.limit }
        ensures memory { OnErr result (self.new ≡ self.old) }
        ensures expanded { IfOk result (λ e. IsExpanded self.old which self.new e) }
        ensures lower { IfOk result (λ e. KeepsLower self.old self.new) }
        ensures path { IfOk result (λ e. PathAfter self.old which self.new e) }
    {
        expand(&mut self.table, alloc, which)
    }
}

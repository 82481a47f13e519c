ghost use Rattle.std.specs.Prelude.{◌≡◌, ◌+◌, ◌^◌, ◌<◌, ◌↔◌, length, IfOk};
ghost use Rattle.hys_lin.specs.Problem.{IsProblem};
ghost use Rattle.hys_tree.specs.Shows.{goal_of};
ghost use Rattle.hys_tree.specs.Multiplied.{AreMultiplied};
ghost use Rattle.hys_check.specs.Verdict.{IsShown, verdict_of};
ghost use Rattle.hys_check.specs.Walk.{goal_by};
ghost use Rattle.hys_check.specs.declared.verdict.Verdict.TheVariants.{Yes};

use crate::point::judge_claim;
use crate::verdict::Verdict;
use crate::walk::judge_tree;
use hys_frac::Frac;
use hys_lin::Problem;
use hys_tree::{Claim, Tree};
use std::alloc::{AllocError, Global};

/// Whether the tree shows the claim of the problem, or the first test that fails: place by place in
/// preorder those of the tree, and then those of the claim's point or best. Why a search ended isn't
/// tested.
///
/// A leaf of depth `k` counts over the boxes of the first `k` fixings of its path. At a leaf the tests
/// are its shape, the signs of its multipliers, the numbers of its bound's sum, and the bound. At the
/// point they are its length, its columns, then row by row the numbers of the sum and whether the row
/// holds, and the cost; last whether a best is at least the bound.
///
/// The multipliers of each leaf are those of rows that rise strictly, and none is 0. The time is that of
/// the places, each with the columns and the terms of its multipliers' rows.
pub fn check(
    alloc: Global,
    problem: &Problem,
    tree: &Tree,
    claim: &Claim,
) -> Result<Verdict, AllocError>
    requires problem { IsProblem problem.now }
    requires places { length tree.now.places + 1 < 2 ^ 32 }
    requires multipliers { AreMultiplied tree.now.places }
    ensures judged { IfOk result (λ v. v ≡ verdict_of problem.now tree.now.places claim.now) }
    ensures shown { IfOk result (λ v. (v ≡ Yes) ↔ IsShown problem.now tree.now.places claim.now) }
{
    match judge_tree(alloc, problem, &least_cost(claim), tree.places.items())? {
        Verdict::Yes => Ok(judge_claim(problem, claim)),
        failed => Ok(failed),
    }
}

// The cost that every solution has at least; none where there is claimed to be no solution.
fn least_cost(claim: &Claim) -> Option<Frac>
    ensures { goal_by result ≡ goal_of claim.now }
{
    match claim {
        Claim::Least(best) => Some(best.cost),
        Claim::NoneExists => None,
        Claim::AtLeast { bound, .. } => Some(*bound),
    }
}

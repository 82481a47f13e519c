ghost use Rattle.std.specs.Prelude.{◌≡◌, ◌&&◌, ◌||◌, length, IfOk, IsTrue, nat_le};
ghost use Rattle.hys_lin.specs.Problem.{IsProblem};
ghost use Rattle.hys_relax.specs.Bound.{AreMultipliers};
ghost use Rattle.hys_lagrange.specs.Fixed.{AreWithin};
ghost use Rattle.hys_tree.specs.Shows.{at_least};
ghost use Rattle.hys_number.specs.Ops.{whole};
ghost use Rattle.hys_check.specs.Testing.{first_failing, is_at_most};
ghost use Rattle.hys_check.specs.TreeTests.{are_rows, are_signed as are_signed_by, never_tests};
ghost use Rattle.hys_check.specs.Verdict.{cost_verdict};
ghost use Rattle.hys_check.specs.Walk.{goal_by};

use crate::sum::bound_at;
use crate::verdict::{At, CheckWhy, Verdict};
use crate::walk::misshapen;
use hys_base::List;
use hys_frac::Frac;
use hys_lin::{Affine, Problem};
use hys_relax::{Fixing, Multipliers};
use std::alloc::{AllocError, Global};

/// The first test that fails of a leaf that bounds the cost; none may stand where no solution is
/// claimed.
pub fn judge_cost(
    alloc: Global,
    problem: &Problem,
    least: &Option<Frac>,
    number: u32,
    path: &[Fixing],
    multipliers: &Multipliers,
    depth: u32,
) -> Result<Verdict, AllocError>
    requires problem { IsProblem problem.now }
    requires path { AreWithin (length problem.now.boxes) path.now }
    requires multipliers { AreMultipliers multipliers.now.pairs }
    ensures { IfOk result (λ v.
        v ≡ cost_verdict problem.now (goal_by least.now) number path.now multipliers.now depth) }
{
    match least {
        None => Ok(misshapen(number)),
        Some(claimed) => {
            let verdict = judge_bound(alloc, problem, *claimed, number, path, multipliers, depth)?;
            Ok(verdict)
        }
    }
}

// The same under a claimed least cost.
fn judge_bound(
    alloc: Global,
    problem: &Problem,
    claimed: Frac,
    number: u32,
    path: &[Fixing],
    multipliers: &Multipliers,
    depth: u32,
) -> Result<Verdict, AllocError>
    requires problem { IsProblem problem.now }
    requires path { AreWithin (length problem.now.boxes) path.now }
    requires multipliers { AreMultipliers multipliers.now.pairs }
    ensures { IfOk result (λ v.
        v ≡ cost_verdict problem.now (at_least claimed) number path.now multipliers.now depth) }
{
    let pairs = multipliers.pairs.items();
    if !has_shape(problem, path, pairs, depth) {
        return Ok(misshapen(number));
    }
    if !are_signed(problem, pairs) {
        return Ok(Verdict::No(At::Node(number), CheckWhy::Sign));
    }
    match bound_at(
        alloc,
        problem,
        &problem.cost,
        &path[..depth as usize],
        pairs,
    )? {
        Err(lost) => Ok(Verdict::No(At::Node(number), CheckWhy::Range(lost))),
        Ok(bound) => {
            if claimed <= bound {
                Ok(Verdict::Yes)
            } else {
                Ok(Verdict::No(At::Node(number), CheckWhy::Below(bound, claimed)))
            }
        }
    }
}

/// The first test that fails of a leaf without a point.
pub fn judge_never(
    alloc: Global,
    problem: &Problem,
    number: u32,
    path: &[Fixing],
    multipliers: &Multipliers,
    depth: u32,
) -> Result<Verdict, AllocError>
    requires problem { IsProblem problem.now }
    requires path { AreWithin (length problem.now.boxes) path.now }
    requires multipliers { AreMultipliers multipliers.now.pairs }
    ensures { IfOk result (λ v. v ≡ first_failing
        (never_tests problem.now number path.now multipliers.now depth)) }
{
    let pairs = multipliers.pairs.items();
    if !has_shape(problem, path, pairs, depth) {
        return Ok(misshapen(number));
    }
    if !are_signed(problem, pairs) {
        return Ok(Verdict::No(At::Node(number), CheckWhy::Sign));
    }
    let free = Affine {
        terms: List::of(Vec::new(alloc)),
        constant: Frac::whole(0),
    };
    match bound_at(alloc, problem, &free, &path[..depth as usize], pairs)? {
        Err(lost) => Ok(Verdict::No(At::Node(number), CheckWhy::Range(lost))),
        Ok(bound) => {
            let zero = Frac::whole(0);
            if zero < bound {
                Ok(Verdict::Yes)
            } else {
                Ok(Verdict::No(At::Node(number), CheckWhy::Below(bound, zero)))
            }
        }
    }
}

// Whether the depth is at most the path's length, and the rows are there.
fn has_shape(problem: &Problem, path: &[Fixing], pairs: &[(u32, Frac)], depth: u32) -> bool
    ensures { result ≡ nat_le depth (length path.now) && are_rows problem.now pairs.now }
{
    depth as usize <= path.len() && are_there(problem, pairs)
}

// Whether the rows are there.
fn are_there(problem: &Problem, pairs: &[(u32, Frac)]) -> bool
    ensures { result ≡ are_rows problem.now pairs.now }
{
    let rows = problem.rows.items().len();
    for k in 0..pairs.len() {
        let pair = pairs[k];
        if pair.0 as usize >= rows {
            return false;
        }
    }
    true
}

// Whether each multiplier of a row that is no equation is at least 0.
fn are_signed(problem: &Problem, pairs: &[(u32, Frac)]) -> bool
    requires { IsTrue (are_rows problem.now pairs.now) }
    ensures { result ≡ are_signed_by problem.now pairs.now }
{
    let rows = problem.rows.items();
    for k in 0..pairs.len() {
        let pair = pairs[k];
        if !is_signed(rows[pair.0 as usize].eq, pair.1) {
            return false;
        }
    }
    true
}

// Whether the multiplier is at least 0, or its row is an equation.
fn is_signed(is_equation: bool, multiplier: Frac) -> bool
    ensures { result ≡ (is_equation || is_at_most (whole 0) multiplier) }
{
    if is_equation {
        return true;
    }
    Frac::whole(0) <= multiplier
}

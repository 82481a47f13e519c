ghost use Rattle.std.specs.Prelude.{◌≡◌, ◌+◌, ◌^◌, ◌<◌, ℕ, [], ◌∷◌, length, IfOk};
ghost use Rattle.hys_lin.specs.Problem.{IsProblem};
ghost use Rattle.hys_relax.specs.Node.{is_branch as is_branch_of, is_fixed as is_fixed_by};
ghost use Rattle.hys_lagrange.specs.Fixed.{AreWithin};
ghost use Rattle.hys_check.specs.Testing.{first_failing};
ghost use Rattle.hys_check.specs.TreeTests.{is_open as is_open_by, place_tests, tree_tests};
ghost use Rattle.hys_tree.specs.Multiplied.{AreMultiplied, IsMultiplied};
ghost use Rattle.hys_check.specs.Walk.{goal_by, pending, paths_with, paths_after, StaysWithin};
ghost use Rattle.hys_check.specs.declared.verdict.At.TheVariants.{Node};
ghost use Rattle.hys_check.specs.declared.verdict.CheckWhy.TheVariants.{Shape};
ghost use Rattle.hys_check.specs.declared.verdict.Verdict.TheVariants.{No};

use crate::leaf::{judge_cost, judge_never};
use crate::verdict::{At, CheckWhy, Verdict};
use hys_frac::Frac;
use hys_lin::Problem;
use hys_relax::Fixing;
use hys_tree::TreePlace;
use std::alloc::{AllocError, Global};

/// The first test of the places that fails. The walk keeps one path, that of the place at hand.
pub fn judge_tree(
    alloc: Global,
    problem: &Problem,
    least: &Option<Frac>,
    places: &[TreePlace],
) -> Result<Verdict, AllocError>
    requires problem { IsProblem problem.now }
    requires places { length places.now + 1 < 2 ^ 32 }
    requires multipliers { AreMultiplied places.now }
    ensures { IfOk result (λ v.
        v ≡ first_failing (tree_tests problem.now (goal_by least.now) 0 ([] ∷ []) places.now)) }
{
    let mut path = Vec::new(alloc);
    let mut more = true;
    for number in 0..places.len() {
        if !more {
            return Ok(misshapen(number as u32));
        }
        let place = &places[number];
        match judge_place(alloc, problem, least, number as u32, path.as_slice(), place)? {
            Verdict::Yes => {}
            failed => return Ok(failed),
        }
        more = follow(&mut path, place)?;
    }
    if more {
        return Ok(misshapen(places.len() as u32));
    }
    Ok(Verdict::Yes)
}

/// The verdict where the place with this number is of the wrong shape.
pub fn misshapen(number: u32) -> Verdict
    ensures { result ≡ No (Node number) Shape }
{
    Verdict::No(At::Node(number), CheckWhy::Shape)
}

// The first test of a place that fails.
fn judge_place(
    alloc: Global,
    problem: &Problem,
    least: &Option<Frac>,
    number: u32,
    path: &[Fixing],
    place: &TreePlace,
) -> Result<Verdict, AllocError>
    requires problem { IsProblem problem.now }
    requires path { AreWithin (length problem.now.boxes) path.now }
    requires multipliers { IsMultiplied place.now }
    ensures { IfOk result (λ v.
        v ≡ first_failing (place_tests problem.now (goal_by least.now) number path.now place.now)) }
{
    match place {
        TreePlace::Inner(column) => {
            if is_open(problem, path, *column) {
                Ok(Verdict::Yes)
            } else {
                Ok(misshapen(number))
            }
        }
        TreePlace::Cost(multipliers, depth) => {
            judge_cost(alloc, problem, least, number, path, multipliers, *depth)
        }
        TreePlace::Never(multipliers, depth) => {
            judge_never(alloc, problem, number, path, multipliers, *depth)
        }
    }
}

// Whether the column is a branch column that no fixing of the path names.
fn is_open(problem: &Problem, path: &[Fixing], column: u32) -> bool
    ensures { result ≡ is_open_by problem.now path.now column }
{
    is_branch(problem, column) && !is_fixed(path, column)
}

// Whether the column has to be 0 or 1.
fn is_branch(problem: &Problem, column: u32) -> bool
    ensures { result ≡ is_branch_of problem.now column }
{
    let branch = problem.branch.items();
    for k in 0..branch.len() {
        if branch[k] == column {
            return true;
        }
    }
    false
}

// Whether a fixing of the path names the column.
fn is_fixed(path: &[Fixing], column: u32) -> bool
    ensures { result ≡ is_fixed_by path.now column }
{
    for k in 0..path.len() {
        if path[k].column == column {
            return true;
        }
    }
    false
}

// Makes the path that of the place that follows; false where no place has to follow.
fn follow(path: &mut Vec<Fixing>, place: &TreePlace) -> Result<bool, AllocError>
    ensures paths { IfOk result (λ more. paths_with more path.new.items ≡ paths_after path.old.items place.now) }
    ensures within { IfOk result (λ _. StaysWithin place.now path.old.items path.new.items) }
{
    match place {
        TreePlace::Inner(column) => {
            path.push(Fixing {
                column: *column,
                one: false,
            })?;
            Ok(true)
        }
        TreePlace::Cost(_, _) | TreePlace::Never(_, _) => Ok(turn(path)),
    }
}

// Turns to the other side of the last column that is at 0; false where none is.
fn turn(path: &mut Vec<Fixing>) -> bool
    ensures paths { paths_with result path.new.items ≡ pending path.old.items }
    ensures within { (n : ℕ) → AreWithin n path.old.items → AreWithin n path.new.items }
{
    while !path.is_empty() {
        let last = path.len() - 1;
        let fixing = path[last];
        if !fixing.one {
            path[last] = Fixing {
                column: fixing.column,
                one: true,
            };
            return true;
        }
        path.truncate(last);
    }
    false
}

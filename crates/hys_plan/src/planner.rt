ghost use Rattle.std.specs.Prelude.{◌≤◌, [], IfOk};
ghost use Rattle.hys_lin.specs.Problem.{IsProblem};
ghost use Rattle.hys_relax.specs.BoundSum.{BoundFits};
ghost use Rattle.hys_tree.specs.Shows.{Shows};
ghost use Rattle.hys_tree.specs.Fits.{Fits};
ghost use Rattle.hys_plan.specs.Answer.{IsAnswered, IsNotSpent};
ghost use Rattle.hys_plan.specs.Planned.{AllowsAll, IsPlanned};

use crate::end::{finish, is_open};
use hys_lin::Problem;
use hys_search::{Picker, Search};
use hys_tree::Answer;
use std::alloc::{AllocError, Global};

/// The answer of a branch and bound search over the problem's nodes, of which at most so many are
/// expanded, each time the one that the picker picks: a solution of least cost, or that there is
/// none, or a lower bound with the best solution found and why the search ended. The tree shows it,
/// and every number of its sums fits. The numbers of the plain bound have to fit. The nodes aren't
/// spent where they are at least one less than two to the number of branch columns and one.
pub fn plan<P: Picker>(
    alloc: Global,
    problem: Problem,
    nodes: u32,
    picker: &mut P,
) -> Result<Answer, AllocError>
    requires problem { IsProblem problem }
    requires some { 1 ≤ nodes }
    requires few { nodes ≤ 500000 }
    requires plain { BoundFits problem [] [] }
    ensures shows { IfOk result (λ a. Shows problem a.tree.places a.claim) }
    ensures fits { IfOk result (λ a. Fits problem a.tree.places a.claim) }
    ensures answered { IfOk result (λ a. IsAnswered problem nodes a) }
    ensures ends { AllowsAll problem nodes → IfOk result (λ a. IsNotSpent a.claim) }
{
    run(alloc, problem, nodes, picker)
}

// The same, told of a search.
fn run<P: Picker>(
    alloc: Global,
    problem: Problem,
    nodes: u32,
    picker: &mut P,
) -> Result<Answer, AllocError>
    requires problem { IsProblem problem }
    requires some { 1 ≤ nodes }
    requires few { nodes ≤ 500000 }
    requires plain { BoundFits problem [] [] }
    ensures planned { IfOk result (λ a. IsPlanned problem nodes a) }
    ensures ends { AllowsAll problem nodes → IfOk result (λ a. IsNotSpent a.claim) }
{
    let mut search = Search::new(alloc, problem, nodes)?;
    while search.expanded() < nodes {
        if !is_open(&search) {
            return finish(alloc, &search);
        }
        let which = picker.pick(search.waiting());
        let _ = search.expand(alloc, which)?;
    }
    finish(alloc, &search)
}

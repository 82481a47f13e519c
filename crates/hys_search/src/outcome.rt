ghost use Rattle.std.specs.Prelude.{◌≡◌, IfOk, length};
ghost use Rattle.hys_lin.specs.Problem.{IsProblem};
ghost use Rattle.hys_relax.specs.Node.{IsNode};
ghost use Rattle.hys_dual.specs.Relaxing.{IsRelaxed, PointFits};
ghost use Rattle.hys_search.specs.Branching.{cost_at};
ghost use Rattle.hys_search.specs.Outcome.{IsOutcome, KeepsPoint};

use crate::branching::branch_column;
use hys_dual::{Relaxed, bound_at};
use hys_frac::Frac;
use hys_lin::{Point, Problem, value};
use hys_relax::{Fixing, Multipliers, RangeAt};
use hys_tab::Tableau;
use std::alloc::{AllocError, Global};

/// What the relaxation of a node came to.
#[derive(Debug, Drop)]
pub enum Outcome {
    /// A relaxed point of least cost, that cost, multipliers whose bound it is, and the column to be
    /// branched where the point is no solution.
    Least {
        point: Point,
        cost: Frac,
        multipliers: Multipliers,
        column: Option<u32>,
    },
    /// Multipliers that show that there is no relaxed point.
    Never {
        multipliers: Multipliers,
    },
    /// A number that didn't fit, multipliers, and their bound where its numbers fit.
    Stuck {
        at: RangeAt,
        multipliers: Multipliers,
        bound: Option<Frac>,
    },
}

/// The outcome of a relaxation: all that may want memory is done here.
pub fn judge(
    alloc: Global,
    problem: &Problem,
    fixings: &[Fixing],
    relaxed: Relaxed,
    tableau: &Tableau,
) -> Result<Outcome, AllocError>
    requires problem { IsProblem problem.now }
    requires node { IsNode problem.now fixings.now }
    requires relaxed { IsRelaxed problem.now fixings.now relaxed }
    ensures outcome { IfOk result (λ o. IsOutcome problem.now fixings.now o) }
    ensures point { IfOk result (λ o. KeepsPoint problem.now fixings.now relaxed o) }
{
    match relaxed {
        Relaxed::Never { multipliers } => Ok(Outcome::Never { multipliers }),
        Relaxed::Least { point, multipliers } => {
            let column = branch_column(alloc, problem, fixings, &point, tableau)?;
            let cost = cost(problem, &point);
            Ok(Outcome::Least {
                point,
                cost,
                multipliers,
                column,
            })
        }
        Relaxed::Stuck { at, multipliers } => {
            let bound = bound_at(alloc, problem, fixings, &multipliers)?;
            Ok(Outcome::Stuck {
                at,
                multipliers,
                bound,
            })
        }
    }
}

// The cost of a point, whose numbers fit.
fn cost(problem: &Problem, point: &Point) -> Frac
    requires problem { IsProblem problem.now }
    requires long { length point.now.values ≡ length problem.now.boxes }
    requires fits { PointFits problem.now point.now.values }
    ensures { result ≡ cost_at problem.now point.now }
{
    match value(&problem.cost, point) {
        Ok(cost) => cost,
        Err(_) => unreachable!(),
    }
}

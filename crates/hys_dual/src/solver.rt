ghost use Rattle.std.specs.Prelude.{◌≡◌, IfOk};
ghost use Rattle.hys_lin.specs.Problem.{IsProblem};
ghost use Rattle.hys_relax.specs.Node.{IsNode};
ghost use Rattle.hys_tab.specs.Table.{tableau_of};
ghost use Rattle.hys_dual.specs.Choosing.{answer_to};
ghost use Rattle.hys_dual.specs.Relaxing.{IsRelaxed, IsWarm, GoesOn, EndsAfter, EndsFromStart};

use crate::finish::Finish;
use crate::node::node_boxes;
use crate::relaxed::Relaxed;
use crate::run::run;
use crate::warm::{Warm, first};
use hys_frac::List;
use hys_lin::Problem;
use hys_relax::{Fixing, RangeAt};
use hys_tab::Tableau;
use std::alloc::{AllocError, Global};

/// What is known of the relaxed points of a node, by pivots from the slack basis on.
pub fn solve(alloc: Global, problem: &Problem, fixings: &[Fixing]) -> Result<Relaxed, AllocError>
    requires problem { IsProblem problem.now }
    requires node { IsNode problem.now fixings.now }
    ensures relaxed { IfOk result (λ r. IsRelaxed problem.now fixings.now r) }
    ensures ends { IfOk result (λ r. EndsFromStart problem.now fixings.now r) }
{
    let warm = first(alloc, problem)?;
    let (relaxed, _) = solve_from(alloc, problem, fixings, &warm)?;
    Ok(relaxed)
}

/// What is known of the relaxed points of a node, by pivots from a tableau that a node above it, or
/// this node, reached; and the tableau that these pivots reach.
pub fn solve_from(
    alloc: Global,
    problem: &Problem,
    fixings: &[Fixing],
    warm: &Warm,
) -> Result<(Relaxed, Warm), AllocError>
    requires problem { IsProblem problem.now }
    requires node { IsNode problem.now fixings.now }
    requires warm { IsWarm problem.now fixings.now warm.now }
    ensures relaxed { IfOk result (λ r. IsRelaxed problem.now fixings.now r.0) }
    ensures ends { IfOk result (λ r. EndsAfter problem.now fixings.now r.1.path r.0) }
    ensures path { IfOk result (λ r. GoesOn problem.now fixings.now warm.now.path r.1.path) }
    ensures warm { IfOk result (λ r. IsWarm problem.now fixings.now r.1) }
{
    let boxes = node_boxes(alloc, problem, fixings)?;
    let mut tableau = warm.tableau.copy(alloc)?;
    let mut path = Vec::from_slice(alloc, warm.path.items())?;
    let finish = run(
        alloc,
        problem,
        fixings,
        boxes.as_slice(),
        &mut tableau,
        &mut path,
    )?;
    let relaxed = answer(alloc, &tableau, path.as_slice(), finish)?;
    Ok((
        relaxed,
        Warm {
            tableau,
            path: List::of(path),
        },
    ))
}

// The answer to an end after a path.
fn answer(
    alloc: Global,
    tableau: &Tableau,
    path: &[(u32, u32)],
    finish: Finish,
) -> Result<Relaxed, AllocError>
    ensures { IfOk result (λ r. r ≡ answer_to (tableau_of tableau.now) path.now finish) }
{
    match finish {
        Finish::Least { point, multipliers } => Ok(Relaxed::Least { point, multipliers }),
        Finish::Never { multipliers } => Ok(Relaxed::Never { multipliers }),
        Finish::Stuck(at) => {
            let multipliers = tableau.multipliers(alloc)?;
            let path = List::of(Vec::from_slice(alloc, path)?);
            Ok(Relaxed::Stuck {
                at: RangeAt { path, at },
                multipliers,
            })
        }
    }
}

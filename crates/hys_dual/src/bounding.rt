ghost use Rattle.std.specs.Prelude.{IfOk};
ghost use Rattle.hys_lin.specs.Problem.{IsProblem};
ghost use Rattle.hys_relax.specs.Node.{IsNode};
ghost use Rattle.hys_relax.specs.Bound.{AreMultipliers, AreLawful};
ghost use Rattle.hys_dual.specs.Bounding.{IsBoundAt};

use crate::bound::bound_sum;
use crate::node::node_boxes;
use hys_frac::Frac;
use hys_lin::{LinFault, Problem};
use hys_relax::{Fixing, Multipliers};
use std::alloc::{AllocError, Global};

/// The bound of lawful multipliers at a node; none where a number of its sum doesn't fit.
pub fn bound_at(
    alloc: Global,
    problem: &Problem,
    fixings: &[Fixing],
    multipliers: &Multipliers,
) -> Result<Option<Frac>, AllocError>
    requires problem { IsProblem problem.now }
    requires node { IsNode problem.now fixings.now }
    requires rise { AreMultipliers multipliers.now.pairs }
    requires lawful { AreLawful problem.now multipliers.now.pairs }
    ensures { IfOk result (λ o. IsBoundAt problem.now fixings.now multipliers.now.pairs o) }
{
    let boxes = node_boxes(alloc, problem, fixings)?;
    let cost = problem.cost.terms.items();
    let pairs = multipliers.pairs.items();
    match bound_sum(
        alloc,
        problem,
        cost,
        problem.cost.constant,
        boxes.as_slice(),
        pairs,
    ) {
        Ok(bound) => Ok(Some(bound)),
        Err(LinFault::Lost(_)) => Ok(None),
        Err(LinFault::Memory) => Err(AllocError),
    }
}

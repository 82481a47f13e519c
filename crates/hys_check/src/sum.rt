ghost use Rattle.std.specs.Prelude.{length, IfOk};
ghost use Rattle.hys_lin.specs.Over.{AreTermsOver};
ghost use Rattle.hys_lin.specs.Problem.{IsProblem};
ghost use Rattle.hys_relax.specs.Bound.{AreLawful, AreMultipliers};
ghost use Rattle.hys_lagrange.specs.Costs.{with_cost};
ghost use Rattle.hys_lagrange.specs.Fixed.{AreWithin};
ghost use Rattle.hys_check.specs.Summing.{IsBoundOr};

use hys_frac::Frac;
use hys_lagrange::{bound_sum, node_boxes};
use hys_lin::{Affine, LinFault, Lost, Problem};
use hys_relax::Fixing;
use std::alloc::{AllocError, Global};

/// The bound of multipliers at the node of the fixings, with the given cost in place of the problem's,
/// or the first operation of its sum that doesn't fit.
pub fn bound_at(
    alloc: Global,
    problem: &Problem,
    cost: &Affine,
    fixings: &[Fixing],
    pairs: &[(u32, Frac)],
) -> Result<Result<Frac, Lost>, AllocError>
    requires problem { IsProblem problem.now }
    requires cost { AreTermsOver (length problem.now.boxes) cost.now.terms }
    requires fixings { AreWithin (length problem.now.boxes) fixings.now }
    requires multipliers { AreMultipliers pairs.now }
    requires lawful { AreLawful problem.now pairs.now }
    ensures { IfOk result (λ r. IsBoundOr (with_cost problem.now cost.now) fixings.now pairs.now r) }
{
    let boxes = node_boxes(alloc, problem, fixings)?;
    match bound_sum(alloc, problem, cost, boxes.as_slice(), pairs) {
        Ok(bound) => Ok(Ok(bound)),
        Err(LinFault::Lost(lost)) => Ok(Err(lost)),
        Err(LinFault::Memory) => Err(AllocError),
    }
}

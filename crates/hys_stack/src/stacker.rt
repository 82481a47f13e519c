//! The stacked problem of a system and a request.

ghost use Rattle.std.specs.Prelude.{[], IfOk};
ghost use Rattle.hys_lin.specs.Problem.{IsProblem};
ghost use Rattle.hys_relax.specs.BoundSum.{BoundFits};
ghost use Rattle.hys_sys.specs.System.{IsSystem};
ghost use Rattle.hys_stack.specs.Requests.{IsRequestOf};
ghost use Rattle.hys_stack.specs.Stacking.{IsStacked};
ghost use Rattle.hys_stack.specs.Numbers.{AnswersFirst, request_operations};

use crate::boxes::stack_boxes;
use crate::cost::{check_bound, sum_cost, terms_of};
use crate::fault::StackFault;
use crate::request::Request;
use crate::rows::{stack_branch, stack_rows};
use hys_base::List;
use hys_lin::{Affine, Problem};
use hys_sys::System;
use std::alloc::Global;

/// The linear problem of a system over the steps of a request.
///
/// Its columns are those of the system once for each step, and then the states after the last step.
/// At the first step each state has its start alone. Behind the rows of each step an equation for
/// each state says that its next value is that of its form. The cost is that of the request, and the
/// branch columns are the Boolean inputs and auxiliaries of all steps.
///
/// # Errors
///
/// `Lost` for the first product or partial sum that doesn't fit: of the coefficients and the constant
/// of the cost, step by step and output by output, each weight times a factor of the output's form,
/// then times its constant; and then of the plain bound, which from the constant adds for each column
/// its coefficient times the end of its box that makes it less. `Memory` where memory is wanting.
pub fn stack(alloc: Global, system: &System, request: &Request) -> Result<Problem, StackFault>
    requires system { IsSystem system.now }
    requires request { IsRequestOf system.now request.now }
    ensures stacked { IfOk result (λ p. IsStacked system.now request.now p) }
    ensures problem { IfOk result (λ p. IsProblem p) }
    ensures fits { IfOk result (λ p. BoundFits p [] []) }
    ensures judged { AnswersFirst result (request_operations system.now request.now) }
{
    let boxes = stack_boxes(alloc, system, request)?;
    let rows = stack_rows(alloc, system, request.horizon)?;
    let branch = stack_branch(alloc, system, request.horizon)?;
    let (sums, constant) = sum_cost(alloc, system, request)?;
    check_bound(&sums, constant, &boxes)?;
    let terms = terms_of(alloc, &sums)?;
    Ok(Problem {
        boxes: List::of(boxes),
        rows,
        cost: Affine { terms, constant },
        branch,
    })
}

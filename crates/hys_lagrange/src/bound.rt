ghost use Rattle.std.specs.Prelude.{◌≡◌, ◌<◌, length, IfOk};
ghost use Rattle.std.specs.Result.{result_err};
ghost use Rattle.hys_lin.specs.Over.{AreTermsOver};
ghost use Rattle.hys_lin.specs.Problem.{IsProblem};
ghost use Rattle.hys_lin.specs.Ranges.{box_at};
ghost use Rattle.hys_lin.specs.Scaled.{AnswersLost};
ghost use Rattle.hys_relax.specs.LinearProgram.{row_at};
ghost use Rattle.hys_relax.specs.Bound.{AreLawful, lesser_end as lesser_end_of};
ghost use Rattle.hys_relax.specs.BoundSum.{bound_operations, summed_constant};
ghost use Rattle.hys_lagrange.specs.Costs.{with_cost};
ghost use Rattle.hys_lagrange.specs.Summing.{summed_bound, summed_over, constant_lost, lost_over};

use crate::coefficients::coefficients;
use crate::products::{less_product, plus_product};
use hys_frac::Frac;
use hys_lin::{Affine, Interval, LinFault, Lost, Problem};
use std::alloc::Global;

/// The bound of multipliers over boxes, with the given cost in place of the problem's, or the first
/// number of its sum that doesn't fit: the coefficients column by column, then the constant, then the
/// ends of the boxes. Where all fit, only the terms of rows with a multiplier are gone through.
pub fn bound_sum(
    alloc: Global,
    problem: &Problem,
    cost: &Affine,
    boxes: &[Interval],
    pairs: &[(u32, Frac)],
) -> Result<Frac, LinFault>
    requires problem { IsProblem problem.now }
    requires cost { AreTermsOver (length problem.now.boxes) cost.now.terms }
    requires boxes { length boxes.now ≡ length problem.now.boxes }
    requires lawful { AreLawful problem.now pairs.now }
    ensures value { IfOk result (λ z. z ≡ summed_bound (with_cost problem.now cost.now) boxes.now pairs.now) }
    ensures lost { AnswersLost result (bound_operations (with_cost problem.now cost.now) (box_at boxes.now) pairs.now) }
{
    let coefficients = coefficients(alloc, problem, cost, pairs)?;
    let start = constant_sum(problem, cost, pairs)?;
    let sum = ends_sum(start, coefficients.as_slice(), boxes)?;
    Ok(sum)
}

// The bound of a row.
fn row_bound(problem: &Problem, row: u32) -> Frac
    requires { row < length problem.now.rows }
    ensures { result ≡ (row_at problem.now row).bound }
{
    let rows = problem.rows.items();
    rows[row as usize].bound
}

// The constant without each multiplier times its row's bound.
fn constant_sum(problem: &Problem, cost: &Affine, pairs: &[(u32, Frac)]) -> Result<Frac, Lost>
    requires lawful { AreLawful problem.now pairs.now }
    ensures value { IfOk result (λ r. r ≡ summed_constant (with_cost problem.now cost.now) pairs.now) }
    ensures lost { result_err result ≡ constant_lost (with_cost problem.now cost.now) pairs.now }
{
    let mut sum = cost.constant;
    for k in 0..pairs.len() {
        let pair = pairs[k];
        sum = less_product(sum, pair.1, row_bound(problem, pair.0))?;
    }
    Ok(sum)
}

// From the start each coefficient times the end of its box that makes the product less.
fn ends_sum(start: Frac, coefficients: &[Frac], boxes: &[Interval]) -> Result<Frac, Lost>
    requires { length boxes.now ≡ length coefficients.now }
    ensures value { IfOk result (λ r. r ≡ summed_over start coefficients.now boxes.now) }
    ensures lost { result_err result ≡ lost_over start coefficients.now boxes.now }
{
    let mut sum = start;
    for column in 0..boxes.len() {
        let coefficient = coefficients[column];
        let range = boxes[column];
        sum = plus_product(sum, coefficient, lesser_end(coefficient, range))?;
    }
    Ok(sum)
}

// The end of a box that makes its product with the coefficient less.
fn lesser_end(coefficient: Frac, range: Interval) -> Frac
    ensures { result ≡ lesser_end_of coefficient range }
{
    if coefficient.is_negative() {
        range.high
    } else {
        range.low
    }
}

ghost use Rattle.std.specs.Prelude.{◌≡◌, ◌<◌, length, IfOk};
ghost use Rattle.std.specs.Result.{result_err};
ghost use Rattle.hys_lin.specs.Scaled.{AnswersLost};
ghost use Rattle.hys_relax.specs.LinearProgram.{factor_at, row_at};
ghost use Rattle.hys_relax.specs.Bound.{AreLawful, lesser_end as lesser_end_of};
ghost use Rattle.hys_relax.specs.BoundSum.{summed_coefficient, summed_constant};
ghost use Rattle.hys_dual.specs.Costs.{with_cost};
ghost use Rattle.hys_dual.specs.Summing.{summed_bound, sum_operations, summed_coefficients, column_operations};
ghost use Rattle.hys_dual.specs.Summing.{coefficient_lost, constant_lost, summed_over, lost_over};

use crate::products::{factor, less_product, plus_product};
use hys_frac::Frac;
use hys_lin::{Interval, LinFault, Lost, Problem, Term};
use std::alloc::Global;

/// The bound of multipliers over boxes, with the given cost in place of the problem's, or the first
/// number of its sum that doesn't fit.
pub fn bound_sum(
    alloc: Global,
    problem: &Problem,
    cost: &[Term],
    constant: Frac,
    boxes: &[Interval],
    pairs: &[(u32, Frac)],
) -> Result<Frac, LinFault>
    requires boxes { length boxes.now ≡ length problem.now.boxes }
    requires lawful { AreLawful problem.now pairs.now }
    ensures value { IfOk result (λ z. z ≡ summed_bound (with_cost problem.now cost.now constant) boxes.now pairs.now) }
    ensures lost { AnswersLost result (sum_operations (with_cost problem.now cost.now constant) boxes.now pairs.now) }
{
    let coefficients = coefficients(alloc, problem, cost, constant, pairs)?;
    let start = constant_sum(problem, cost, constant, pairs)?;
    let sum = ends_sum(start, coefficients.as_slice(), boxes)?;
    Ok(sum)
}

// The coefficients of all columns.
fn coefficients(
    alloc: Global,
    problem: &Problem,
    cost: &[Term],
    constant: Frac,
    pairs: &[(u32, Frac)],
) -> Result<Vec<Frac>, LinFault>
    requires lawful { AreLawful problem.now pairs.now }
    ensures value { IfOk result (λ ds.
        ds.items ≡ summed_coefficients (with_cost problem.now cost.now constant) pairs.now) }
    ensures lost { AnswersLost result (column_operations (with_cost problem.now cost.now constant) pairs.now) }
{
    let mut list = Vec::new(alloc);
    for column in 0..problem.boxes.items().len() {
        let number = coefficient(problem, cost, constant, pairs, column)?;
        list.push(number)?;
    }
    Ok(list)
}

// The coefficient of a column: that of the cost and each multiplier times that of its row.
fn coefficient(
    problem: &Problem,
    cost: &[Term],
    constant: Frac,
    pairs: &[(u32, Frac)],
    column: usize,
) -> Result<Frac, Lost>
    requires lawful { AreLawful problem.now pairs.now }
    ensures value { IfOk result (λ r.
        r ≡ summed_coefficient (with_cost problem.now cost.now constant) pairs.now column) }
    ensures lost { result_err result ≡ coefficient_lost (with_cost problem.now cost.now constant) pairs.now column }
{
    let mut sum = factor(cost, column);
    for k in 0..pairs.len() {
        let pair = pairs[k];
        sum = plus_product(sum, pair.1, row_factor(problem, pair.0, column))?;
    }
    Ok(sum)
}

// The factor of a column in a row.
fn row_factor(problem: &Problem, row: u32, column: usize) -> Frac
    requires { row < length problem.now.rows }
    ensures { result ≡ factor_at problem.now row column }
{
    let rows = problem.rows.items();
    factor(rows[row as usize].terms.items(), column)
}

// The bound of a row.
fn row_bound(problem: &Problem, row: u32) -> Frac
    requires { row < length problem.now.rows }
    ensures { result ≡ (row_at problem.now row).bound }
{
    let rows = problem.rows.items();
    rows[row as usize].bound
}

// The constant without each multiplier times its row's bound.
fn constant_sum(
    problem: &Problem,
    cost: &[Term],
    constant: Frac,
    pairs: &[(u32, Frac)],
) -> Result<Frac, Lost>
    requires lawful { AreLawful problem.now pairs.now }
    ensures value { IfOk result (λ r. r ≡ summed_constant (with_cost problem.now cost.now constant) pairs.now) }
    ensures lost { result_err result ≡ constant_lost (with_cost problem.now cost.now constant) pairs.now }
{
    let mut sum = constant;
    for k in 0..pairs.len() {
        let pair = pairs[k];
        sum = less_product(sum, pair.1, row_bound(problem, pair.0))?;
    }
    Ok(sum)
}

// From the start each coefficient times the end of its box that makes the product less.
fn ends_sum(start: Frac, coefficients: &[Frac], boxes: &[Interval]) -> Result<Frac, Lost>
    requires { length boxes.now ≡ length coefficients.now }
    ensures value { IfOk result (λ r. r ≡ summed_over start coefficients.now boxes.now) }
    ensures lost { result_err result ≡ lost_over start coefficients.now boxes.now }
{
    let mut sum = start;
    for column in 0..boxes.len() {
        let coefficient = coefficients[column];
        let range = boxes[column];
        sum = plus_product(sum, coefficient, lesser_end(coefficient, range))?;
    }
    Ok(sum)
}

// The end of a box that makes its product with the coefficient less.
fn lesser_end(coefficient: Frac, range: Interval) -> Frac
    ensures { result ≡ lesser_end_of coefficient range }
{
    if coefficient.is_negative() {
        range.high
    } else {
        range.low
    }
}

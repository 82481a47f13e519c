ghost use Rattle.std.specs.Prelude.{◌≡◌, ◌<◌, length, IfOk};
ghost use Rattle.std.specs.Result.{result_err};
ghost use Rattle.hys_lin.specs.Over.{AreTermsOver};
ghost use Rattle.hys_lin.specs.Problem.{IsProblem};
ghost use Rattle.hys_lin.specs.Scaled.{AnswersLost};
ghost use Rattle.hys_relax.specs.LinearProgram.{factor_at};
ghost use Rattle.hys_relax.specs.Bound.{AreLawful};
ghost use Rattle.hys_relax.specs.BoundSum.{summed_coefficient};
ghost use Rattle.hys_lagrange.specs.Costs.{with_cost};
ghost use Rattle.hys_lagrange.specs.Gathered.{AreCoefficients};
ghost use Rattle.hys_lagrange.specs.Summing.{summed_coefficients, column_operations, coefficient_lost};

use crate::gather::gathered;
use crate::products::{factor, plus_product};
use hys_frac::Frac;
use hys_lin::{Affine, LinFault, Lost, Problem};
use std::alloc::Global;

/// The coefficients of all columns, or the first product or partial sum that doesn't fit, column by
/// column.
pub fn coefficients(
    alloc: Global,
    problem: &Problem,
    cost: &Affine,
    pairs: &[(u32, Frac)],
) -> Result<Vec<Frac>, LinFault>
    requires problem { IsProblem problem.now }
    requires cost { AreTermsOver (length problem.now.boxes) cost.now.terms }
    requires lawful { AreLawful problem.now pairs.now }
    ensures value { IfOk result (λ ds. AreCoefficients (with_cost problem.now cost.now) pairs.now ds.items) }
    ensures lost { AnswersLost result (column_operations (with_cost problem.now cost.now) pairs.now) }
{
    match gathered(alloc, problem, cost, pairs)? {
        Some(list) => Ok(list),
        None => one_by_one(alloc, problem, cost, pairs),
    }
}

// The same column by column: which operation is the first that doesn't fit turns on that order.
fn one_by_one(
    alloc: Global,
    problem: &Problem,
    cost: &Affine,
    pairs: &[(u32, Frac)],
) -> Result<Vec<Frac>, LinFault>
    requires lawful { AreLawful problem.now pairs.now }
    ensures value { IfOk result (λ ds. ds.items ≡ summed_coefficients (with_cost problem.now cost.now) pairs.now) }
    ensures lost { AnswersLost result (column_operations (with_cost problem.now cost.now) pairs.now) }
{
    let mut list = Vec::new(alloc);
    for column in 0..problem.boxes.items().len() {
        let number = coefficient(problem, cost, pairs, column)?;
        list.push(number)?;
    }
    Ok(list)
}

// The coefficient of a column: that of the cost and each multiplier times that of its row.
fn coefficient(
    problem: &Problem,
    cost: &Affine,
    pairs: &[(u32, Frac)],
    column: usize,
) -> Result<Frac, Lost>
    requires lawful { AreLawful problem.now pairs.now }
    ensures value { IfOk result (λ r. r ≡ summed_coefficient (with_cost problem.now cost.now) pairs.now column) }
    ensures lost { result_err result ≡ coefficient_lost (with_cost problem.now cost.now) pairs.now column }
{
    let mut sum = factor(cost.terms.items(), column);
    for k in 0..pairs.len() {
        let pair = pairs[k];
        sum = plus_product(sum, pair.1, row_factor(problem, pair.0, column))?;
    }
    Ok(sum)
}

// The factor of a column in a row.
fn row_factor(problem: &Problem, row: u32, column: usize) -> Frac
    requires { row < length problem.now.rows }
    ensures { result ≡ factor_at problem.now row column }
{
    let rows = problem.rows.items();
    factor(rows[row as usize].terms.items(), column)
}

ghost use Rattle.std.specs.Prelude.{◌≡◌, ◌<◌, length, IfOk, IsTrue, ◌↔◌};
ghost use Rattle.std.specs.Result.{result_err};
ghost use Rattle.hys_number.specs.Ops.{◌+ₙ◌, whole};
ghost use Rattle.hys_lin.specs.Sums.{sum_of, value as value_of, Holds, EachColumn, at};
ghost use Rattle.hys_lin.specs.Operations.{first_lost, summing, valuing, row_summing};

use crate::checked::add_product;
use crate::form::{Affine, Point, Row, Term};
use crate::lost::Lost;
use hys_frac::Frac;

/// The sum of factor times number over the terms, or the first product or partial sum that
/// doesn't fit. The partial sums start from 0.
pub fn dot(terms: &[Term], point: &Point) -> Result<Frac, Lost>
    requires { EachColumn (λ c. c < length point.now.values) terms.now }
    ensures value { IfOk result (λ r. r ≡ sum_of terms.now (at point.now.values)) }
    ensures lost { result_err result ≡ first_lost (summing (whole 0) terms.now (λ t. at point.now.values t.column)) }
{
    sum_from(Frac::whole(0), terms, point)
}

/// The value of the form at the point, or the first product or partial sum that doesn't fit. The
/// partial sums start from the constant.
pub fn value(form: &Affine, point: &Point) -> Result<Frac, Lost>
    requires { EachColumn (λ c. c < length point.now.values) form.now.terms }
    ensures value { IfOk result (λ r. r ≡ value_of form.now (at point.now.values)) }
    ensures lost { result_err result ≡ first_lost (valuing form.now (at point.now.values)) }
{
    sum_from(form.constant, form.terms.items(), point)
}

/// Whether the row holds at the point, or the first product or partial sum of its terms that
/// doesn't fit.
pub fn row_holds(row: &Row, point: &Point) -> Result<bool, Lost>
    requires { EachColumn (λ c. c < length point.now.values) row.now.terms }
    ensures value { IfOk result (λ r. IsTrue r ↔ Holds (at point.now.values) row.now) }
    ensures lost { result_err result ≡ first_lost (row_summing row.now (at point.now.values)) }
{
    let sum = dot(row.terms.items(), point)?;
    Ok(if row.eq {
        sum == row.bound
    } else {
        sum <= row.bound
    })
}

// The sum of the terms at the point, from `start`.
fn sum_from(start: Frac, terms: &[Term], point: &Point) -> Result<Frac, Lost>
    requires { EachColumn (λ c. c < length point.now.values) terms.now }
    ensures value { IfOk result (λ r. r ≡ start +ₙ sum_of terms.now (at point.now.values)) }
    ensures lost { result_err result ≡ first_lost (summing start terms.now (λ t. at point.now.values t.column)) }
{
    let values = point.values.items();
    let mut sum = start;
    for term in terms {
        sum = add_product(sum, term.factor, values[term.column as usize])?;
    }
    Ok(sum)
}

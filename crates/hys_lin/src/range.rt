ghost use Rattle.std.specs.Prelude.{◌≡◌, ◌<◌, ◌++◌, length, IfOk, false, true};
ghost use Rattle.std.specs.Result.{result_err};
ghost use Rattle.hys_lin.specs.Sums.{Assignment, value as value_of, EachColumn, Within};
ghost use Rattle.hys_lin.specs.Operations.{first_lost, summing};
ghost use Rattle.hys_lin.specs.Ranges.{InBoxes, end_by_sign, end_at, end_of, ending, ranging};

use crate::checked::add_product;
use crate::form::{Affine, Interval};
use crate::lost::Lost;
use hys_frac::Frac;

/// The least and the greatest value of the form over the boxes, or the first product or partial
/// sum that doesn't fit. The low end is summed first, and each end from the constant.
pub fn range_of(form: &Affine, boxes: &[Interval]) -> Result<Interval, Lost>
    requires { EachColumn (λ c. c < length boxes.now) form.now.terms }
    ensures low { IfOk result (λ r. r.low ≡ end_of false form.now boxes.now) }
    ensures high { IfOk result (λ r. r.high ≡ end_of true form.now boxes.now) }
    ensures holds { IfOk result (λ r. (v : Assignment) → InBoxes boxes.now v → Within r (value_of form.now v)) }
    ensures lost { result_err result ≡ first_lost (ranging boxes.now form.now) }
{
    let low = end(form, boxes, false)?;
    let high = end(form, boxes, true)?;
    Ok(Interval { low, high })
}

// The least value of the form over the boxes, or the greatest.
fn end(form: &Affine, boxes: &[Interval], greatest: bool) -> Result<Frac, Lost>
    requires { EachColumn (λ c. c < length boxes.now) form.now.terms }
    ensures value { IfOk result (λ r. r ≡ end_of greatest form.now boxes.now) }
    ensures lost { result_err result ≡ first_lost (ending greatest boxes.now form.now) }
{
    let terms = form.terms.items();
    let mut sum = form.constant;
    for term in terms {
        let number = side(term.factor, boxes[term.column as usize], greatest);
        sum = add_product(sum, term.factor, number)?;
    }
    Ok(sum)
}

// The end of the box at which the product with the factor is least, or greatest.
fn side(factor: Frac, range: Interval, greatest: bool) -> Frac
    ensures { result ≡ end_by_sign greatest factor.num range }
{
    if factor.is_negative() == greatest {
        range.low
    } else {
        range.high
    }
}

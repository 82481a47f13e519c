ghost use Rattle.std.specs.Prelude.{◌≡◌, ◌≢◌, [], ◌∷◌, IfOk};
ghost use Rattle.std.specs.Result.{result_err};
ghost use Rattle.hys_number.specs.Ops.{◌+ₙ◌, ◌-ₙ◌, ◌*ₙ◌, ◌/ₙ◌, whole};
ghost use Rattle.hys_lin.specs.Operations.{first_lost, times, plus, minus, over};

use crate::lost::{Lost, Op};
use hys_frac::Frac;

/// The exact sum, or where it doesn't fit the two operands, `left` being the left one.
pub fn add(left: Frac, right: Frac) -> Result<Frac, Lost>
    ensures value { IfOk result (λ r. r ≡ left +ₙ right) }
    ensures lost { result_err result ≡ first_lost (plus left right ∷ []) }
{
    match left.add(right) {
        Some(sum) => Ok(sum),
        None => Err(Lost {
            op: Op::Add,
            left,
            right,
        }),
    }
}

/// The exact difference `left` minus `right`, or where it doesn't fit the two operands.
pub fn subtract(left: Frac, right: Frac) -> Result<Frac, Lost>
    ensures value { IfOk result (λ r. r ≡ left -ₙ right) }
    ensures lost { result_err result ≡ first_lost (minus left right ∷ []) }
{
    match left.sub(right) {
        Some(difference) => Ok(difference),
        None => Err(Lost {
            op: Op::Sub,
            left,
            right,
        }),
    }
}

/// The exact product, or where it doesn't fit the two operands, `left` being the left one.
pub fn multiply(left: Frac, right: Frac) -> Result<Frac, Lost>
    ensures value { IfOk result (λ r. r ≡ left *ₙ right) }
    ensures lost { result_err result ≡ first_lost (times left right ∷ []) }
{
    match left.mul(right) {
        Some(product) => Ok(product),
        None => Err(Lost {
            op: Op::Mul,
            left,
            right,
        }),
    }
}

/// The exact quotient `left` over `right`, or where it doesn't fit the two operands. `right` isn't 0.
pub fn divide(left: Frac, right: Frac) -> Result<Frac, Lost>
    requires { right ≢ whole 0 }
    ensures value { IfOk result (λ r. r ≡ left /ₙ right) }
    ensures lost { result_err result ≡ first_lost (over left right ∷ []) }
{
    match left.div(right) {
        Some(quotient) => Ok(quotient),
        None => Err(Lost {
            op: Op::Div,
            left,
            right,
        }),
    }
}

/// The exact `sum` plus `factor` times `number`, or the operands of the product, then of the sum,
/// of which the first that doesn't fit are shown.
pub fn add_product(sum: Frac, factor: Frac, number: Frac) -> Result<Frac, Lost>
    ensures value { IfOk result (λ r. r ≡ sum +ₙ factor *ₙ number) }
    ensures lost { result_err result ≡ first_lost (times factor number ∷ plus sum (factor *ₙ number) ∷ []) }
{
    let product = multiply(factor, number)?;
    add(sum, product)
}

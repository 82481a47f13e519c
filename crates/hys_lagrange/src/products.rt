ghost use Rattle.std.specs.Prelude.{◌≡◌, [], ◌∷◌, IfOk, true};
ghost use Rattle.std.specs.Result.{result_err};
ghost use Rattle.hys_number.specs.Ops.{◌+ₙ◌, ◌-ₙ◌, ◌*ₙ◌, fits};
ghost use Rattle.hys_lin.specs.Operations.{first_lost, times, plus, minus};
ghost use Rattle.hys_lin.specs.Scaled.{coefficient};

use hys_frac::Frac;
use hys_lin::{Lost, Term, add_product, multiply, subtract};

/// The sum plus factor times number, or the first of the product and the sum that doesn't fit. A
/// product of 0 costs nothing.
pub fn plus_product(sum: Frac, factor: Frac, number: Frac) -> Result<Frac, Lost>
    ensures value { IfOk result (λ r. r ≡ sum +ₙ factor *ₙ number) }
    ensures lost { result_err result ≡ first_lost (times factor number ∷ plus sum (factor *ₙ number) ∷ []) }
{
    if number.is_zero() {
        return Ok(kept(sum));
    }
    add_product(sum, factor, number)
}

/// The sum less factor times number, or the first of the product and the difference that doesn't fit.
/// A product of 0 costs nothing.
pub fn less_product(sum: Frac, factor: Frac, number: Frac) -> Result<Frac, Lost>
    ensures value { IfOk result (λ r. r ≡ sum -ₙ factor *ₙ number) }
    ensures lost { result_err result ≡ first_lost (times factor number ∷ minus sum (factor *ₙ number) ∷ []) }
{
    if factor.is_zero() || number.is_zero() {
        return Ok(kept(sum));
    }
    let product = multiply(factor, number)?;
    subtract(sum, product)
}

/// The number, whose two parts are below 2^63 as those of each `Frac`.
pub fn kept(number: Frac) -> Frac
    ensures same { result ≡ number }
    ensures fits { fits number ≡ true }
{
    let _parts = (number.num(), number.den());
    number
}

/// The factor of a column, 0 where no term has it.
pub fn factor(terms: &[Term], column: usize) -> Frac
    ensures { result ≡ coefficient terms.now column }
{
    for term in terms {
        if term.column as usize == column {
            return term.factor;
        }
    }
    Frac::whole(0)
}

ghost use Rattle.std.specs.Prelude.{◌≡◌, IfOk, ◌∷◌, []};
ghost use Rattle.hys_number.specs.Ops.{◌*ₙ◌, ◌-ₙ◌};
ghost use Rattle.hys_lin.specs.Operations.{minus, times};
ghost use Rattle.hys_guard.specs.Numbers.{Judged, joined as joined_numbers};
ghost use Rattle.hys_guard.specs.Set.{join_by};

use crate::fault::GuardFault;
use crate::terms::Side;
use hys_frac::Frac;
use hys_lin::{add, multiply, subtract};

/// The exact difference.
pub fn difference(left: Frac, right: Frac) -> Result<Frac, GuardFault>
    ensures value { IfOk result (λ r. r ≡ left -ₙ right) }
    ensures judged { Judged (minus left right ∷ []) result }
{
    Ok(subtract(left, right)?)
}

/// The exact product.
pub fn product(left: Frac, right: Frac) -> Result<Frac, GuardFault>
    ensures value { IfOk result (λ r. r ≡ left *ₙ right) }
    ensures judged { Judged (times left right ∷ []) result }
{
    Ok(multiply(left, right)?)
}

/// The factor of a column that a literal and a form share: the form is subtracted in a row that
/// bounds from above, and added in one from below.
pub fn joined(side: Side, left: Frac, right: Frac) -> Result<Frac, GuardFault>
    ensures value { IfOk result (λ r. r ≡ join_by side left right) }
    ensures judged { Judged (joined_numbers side left right ∷ []) result }
{
    match side {
        Side::Upper => difference(left, right),
        Side::Lower => Ok(add(left, right)?),
    }
}

ghost use Rattle.std.specs.Prelude.{◌≡◌, ◌≤◌, unsigned_abs};
ghost use Rattle.hys_number.specs.Ops.{int};
ghost use Rattle.hys_lin.specs.Bits.{bit as bit_of};

use hys_frac::Frac;

/// A whole number from -5 to 5.
pub fn small(number: i8) -> Frac
    requires { unsigned_abs number ≤ 5 }
    ensures { result ≡ int number }
{
    let magnitude = Frac::whole(u32::from(number.unsigned_abs()));
    if number < 0 {
        magnitude.neg()
    } else {
        magnitude
    }
}

/// The number of a truth value.
pub fn bit(truth: bool) -> Frac
    ensures { result ≡ bit_of truth }
{
    if truth {
        Frac::whole(1)
    } else {
        Frac::whole(0)
    }
}

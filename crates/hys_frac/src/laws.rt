//! The laws of an ordered field, of the numbers that fractions stand for. But for `constants`, the
//! calls do nothing.

ghost use Rattle.std.specs.Prelude.{◌≡◌, ◌≢◌, ◌↔◌, ◌⊎◌, IsTrue, Ok};
ghost use Rattle.hys_number.specs.Number.{Number};
ghost use Rattle.hys_number.specs.Ops.{◌+ₙ◌, ◌*ₙ◌, ◌-ₙ◌, ◌≤ₙ◌, ◌<ₙ◌, whole, neg, inverse, fits};
ghost use Rattle.hys_frac.specs.Read.{reading};
ghost use Rattle.hys_frac.specs.Written.{number_text};

use crate::frac::Frac;

/// The two constants, which are the numbers 0 and 1.
pub fn constants() -> (Frac, Frac)
    ensures zero { result.0 ≡ whole 0 }
    ensures one { result.1 ≡ whole 1 }
{
    (Frac::ZERO, Frac::ONE)
}

/// Numbers with their sum and product are a commutative ring.
pub fn ring()
    ensures add_comm { (a b : Number) → a +ₙ b ≡ b +ₙ a }
    ensures add_assoc { (a b c : Number) → a +ₙ b +ₙ c ≡ a +ₙ (b +ₙ c) }
    ensures add_zero { (a : Number) → a +ₙ whole 0 ≡ a }
    ensures add_neg { (a : Number) → a +ₙ neg a ≡ whole 0 }
    ensures mul_comm { (a b : Number) → a *ₙ b ≡ b *ₙ a }
    ensures mul_assoc { (a b c : Number) → a *ₙ b *ₙ c ≡ a *ₙ (b *ₙ c) }
    ensures mul_one { (a : Number) → a *ₙ whole 1 ≡ a }
    ensures mul_add { (a b c : Number) → a *ₙ (b +ₙ c) ≡ a *ₙ b +ₙ a *ₙ c }
{}

/// Each number but 0 has an inverse.
pub fn field()
    ensures one { whole 0 ≢ whole 1 }
    ensures inverse { (a : Number) → a ≢ whole 0 → a *ₙ inverse a ≡ whole 1 }
{}

/// The order is total.
pub fn order()
    ensures refl { (a : Number) → a ≤ₙ a }
    ensures antisymm { (a b : Number) → a ≤ₙ b → b ≤ₙ a → a ≡ b }
    ensures trans { (a b c : Number) → a ≤ₙ b → b ≤ₙ c → a ≤ₙ c }
    ensures total { (a b : Number) → (a ≤ₙ b) ⊎ (b <ₙ a) }
    ensures strict { (a b : Number) → (a <ₙ b) ↔ ((b ≤ₙ a) → ⊥) }
{}

/// The order goes with sums, and with products by a number of at least 0.
pub fn ordered()
    ensures sum { (a b c : Number) → (a ≤ₙ b) ↔ (a +ₙ c ≤ₙ b +ₙ c) }
    ensures product { (a b c : Number) → whole 0 ≤ₙ c → a ≤ₙ b → c *ₙ a ≤ₙ c *ₙ b }
    ensures turned { (a b c : Number) → c ≤ₙ whole 0 → a ≤ₙ b → c *ₙ b ≤ₙ c *ₙ a }
{}

/// What `write` wrote of a number that fits is read as that number.
pub fn reads_written()
    ensures { (a : Number) → IsTrue (fits a) → reading (number_text a) ≡ Ok a }
{}

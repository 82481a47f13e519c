ghost use Rattle.std.specs.Prelude.{if◌then◌else◌, ◌≡◌, ◌≢◌, ◌^◌, ◌<◌, ◌<ℤ◌, ◌↔◌, ◌++◌, IsTrue, IsSome, IfSome, unsigned_abs, pos, is_ok, IfOk, string_bytes};
ghost use Rattle.std.specs.Ordering.{MatchOrdering, as_partial_cmp};
ghost use Rattle.std.proofs.Common.{refl};
ghost use Rattle.hys_number.specs.Gcd.{gcd as gcd_of};
ghost use Rattle.hys_number.specs.Number.{make};
ghost use Rattle.hys_number.specs.Ops.{◌+ₙ◌, ◌*ₙ◌, ◌-ₙ◌, ◌/ₙ◌, ◌<ₙ◌, int, whole, neg as neg_of, fits};
ghost use Rattle.hys_frac.specs.Compare.{number_cmp, number_cmp_total, parts_eq-is, number_partial};
ghost use Rattle.hys_frac.specs.Written.{number_text};

use crate::reduce::{gcd, product};
use std::alloc::{AllocError, Global};
use std::cmp::Ordering;
use std::fmt;
use std::marker::Model;

/// A fraction in lowest terms whose numerator lies within -(2^63 - 1) and 2^63 - 1, and whose
/// denominator is at least 1 and at most 2^63 - 1. Contracts see the number that it stands for.
#[derive(Clone, Copy, Debug, PartialEq, Eq)]
pub struct Frac {
    num: i64,
    den: i64,
}

impl Model for Frac {
    ghost use Rattle.std.specs.Prelude.{pos, unsigned_abs};
    ghost use Rattle.hys_number.specs.Number.{Number, make};
    ghost use Rattle.hys_frac.specs.Frac.{IsReduced, number_code, parts_back};

    ghost Value = { Number };

    ghost coded = { number_code };

    ghost view = { λ f. make f.num (unsigned_abs f.den) };

    ghost invariant = { λ f. IsReduced f.num f.den };

    ghost inverse = { λ q. record { num = q.num; den = pos q.den } };

    ghost inverse_ok = { λ f h. λ i. record { num = (parts_back f.num f.den h).0 i; den = (parts_back f.num f.den h).1 i } };
}

impl Frac {
    /// The number 0.
    pub const ZERO: Frac = Frac { num: 0, den: 1 };

    /// The number 1.
    pub const ONE: Frac = Frac { num: 1, den: 1 };

    /// The number `num / den`, or none where `den` is 0 or the number doesn't fit.
    pub fn new(num: i64, den: i64) -> Option<Frac>
        ensures value { IfSome result (λ r. r ≡ int num /ₙ int den) }
        ensures fits { IsSome result ↔ ((den ≢ pos 0) × IsTrue (fits (int num /ₙ int den))) }
    {
        quotient(num as i128, den as i128)
    }

    /// The whole number.
    pub fn whole(number: u32) -> Frac
        ensures { result ≡ whole number }
    {
        Frac {
            num: number as i64,
            den: 1,
        }
    }

    /// The numerator, in lowest terms.
    pub fn num(self) -> i64
        ensures value { result ≡ self.num }
        ensures below { unsigned_abs result < 2 ^ 63 }
    {
        self.num
    }

    /// The denominator, in lowest terms, which is above 0.
    pub fn den(self) -> i64
        ensures value { result ≡ pos self.den }
        ensures below { self.den < 2 ^ 63 }
    {
        self.den
    }

    /// Whether the number is 0.
    pub fn is_zero(self) -> bool
        ensures { IsTrue result ↔ (self ≡ whole 0) }
    {
        self.num() == 0
    }

    /// Whether the number is below 0.
    pub fn is_negative(self) -> bool
        ensures { IsTrue result ↔ (self <ₙ whole 0) }
    {
        self.num() < 0
    }

    /// Whether the number is above 0.
    pub fn is_positive(self) -> bool
        ensures { IsTrue result ↔ (whole 0 <ₙ self) }
    {
        self.num() > 0
    }

    /// The number with the other sign.
    pub fn neg(self) -> Frac
        ensures { result ≡ neg_of self }
    {
        Frac {
            num: -self.num,
            den: self.den,
        }
    }

    /// The exact sum, or none where it doesn't fit.
    pub fn add(self, other: Frac) -> Option<Frac>
        ensures value { IfSome result (λ r. r ≡ self +ₙ other) }
        ensures fits { IsSome result ↔ IsTrue (fits (self +ₙ other)) }
    {
        if self.den() == other.den() {
            return reduce(self.num() as i128 + other.num() as i128, self.den() as i128);
        }
        let left = product(self.num(), other.den());
        let right = product(other.num(), self.den());
        let below = product(self.den(), other.den());
        reduce(left + right, below)
    }

    /// The exact difference, or none where it doesn't fit.
    pub fn sub(self, other: Frac) -> Option<Frac>
        ensures value { IfSome result (λ r. r ≡ self -ₙ other) }
        ensures fits { IsSome result ↔ IsTrue (fits (self -ₙ other)) }
    {
        self.add(other.neg())
    }

    /// The exact product, or none where it doesn't fit.
    pub fn mul(self, other: Frac) -> Option<Frac>
        ensures value { IfSome result (λ r. r ≡ self *ₙ other) }
        ensures fits { IsSome result ↔ IsTrue (fits (self *ₙ other)) }
    {
        let above = product(self.num(), other.num());
        let below = product(self.den(), other.den());
        reduce(above, below)
    }

    /// The exact quotient, or none where `other` is 0 or the quotient doesn't fit.
    pub fn div(self, other: Frac) -> Option<Frac>
        ensures value { IfSome result (λ r. r ≡ self /ₙ other) }
        ensures fits { IsSome result ↔ ((other ≢ whole 0) × IsTrue (fits (self /ₙ other))) }
    {
        quotient(
            product(self.num(), other.den()),
            product(self.den(), other.num()),
        )
    }

    /// The order of the two numbers.
    pub fn cmp(self, other: Frac) -> Ordering
        ensures { MatchOrdering result (self <ₙ other) (self ≡ other) (other <ₙ self) }
    {
        product(self.num(), other.den()).cmp(&product(other.num(), self.den()))
    }

    /// The number in decimal digits: the numerator, then `/` and the denominator where that isn't 1.
    #[tactic(auto, unfolding(crate::specs::Written::number_text))]
    pub fn text(self, alloc: Global) -> Result<String, AllocError>
        ensures { IfOk result (λ s. string_bytes s ≡ number_text self) }
    {
        let num = self.num();
        let den = self.den();
        if den == 1 {
            format!(in alloc; "{num}")
        } else {
            format!(in alloc; "{num}/{den}")
        }
    }

    /// Appends the number's text to `out`, which a refusal leaves as it was.
    pub fn write(self, alloc: Global, out: &mut Vec<u8>) -> Result<(), AllocError>
        ensures { out.new.items ≡ (if is_ok result then out.old.items ++ number_text self else out.old.items) }
    {
        let text = self.text(alloc)?;
        out.extend_from_slice(text.as_bytes())
    }
}

impl Ord for Frac {
    ghost cmp = { number_cmp };

    ghost total = { number_cmp_total };

    ghost matches_partial_cmp = { λ a b. refl };

    ghost matches_eq = { parts_eq-is };

    fn cmp(&self, other: &Frac) -> Ordering {
        Frac::cmp(*self, *other)
    }
}

impl PartialOrd for Frac {
    ghost partial_cmp = { as_partial_cmp number_cmp };

    ghost laws = { number_partial };

    fn partial_cmp(&self, other: &Frac) -> Option<Ordering> {
        Some(Frac::cmp(*self, *other))
    }
}

// The number `num / den`, where `den` isn't 0 and it fits.
fn quotient(num: i128, den: i128) -> Option<Frac>
    requires above { unsigned_abs num < 2 ^ 127 }
    requires below { unsigned_abs den < 2 ^ 127 }
    ensures value { IfSome result (λ r. r ≡ int num /ₙ int den) }
    ensures fits { IsSome result ↔ ((den ≢ pos 0) × IsTrue (fits (int num /ₙ int den))) }
{
    if den == 0 {
        None
    } else if den < 0 {
        reduce(-num, -den)
    } else {
        reduce(num, den)
    }
}

// The number `num / den`, where it fits.
pub fn reduce(num: i128, den: i128) -> Option<Frac>
    requires above { pos 0 <ℤ den }
    requires below { unsigned_abs num < 2 ^ 127 }
    ensures value { IfSome result (λ r. r ≡ make num (unsigned_abs den)) }
    ensures fits { IsSome result ↔ IsTrue (fits (make num (unsigned_abs den))) }
{
    if den == 1 {
        return narrow(num, den);
    }
    let common = gcd(num.unsigned_abs(), den as u128) as i128;
    narrow(num / common, den / common)
}

// The number with these two reduced parts, where it fits.
pub fn narrow(num: i128, den: i128) -> Option<Frac>
    requires positive { pos 0 <ℤ den }
    requires reduced { gcd_of (unsigned_abs num) (unsigned_abs den) ≡ 1 }
    ensures value { IfSome result (λ r. r ≡ make num (unsigned_abs den)) }
    ensures fits { IsSome result ↔ IsTrue (fits (make num (unsigned_abs den))) }
{
    if num.unsigned_abs() <= i64::MAX as u128 && den <= i64::MAX as i128 {
        Some(Frac {
            num: num as i64,
            den: den as i64,
        })
    } else {
        None
    }
}

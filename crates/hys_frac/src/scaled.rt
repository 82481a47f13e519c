ghost use Rattle.std.specs.Prelude.{◌≡◌, ◌≢◌, ◌*◌, ◌^◌, ◌<◌, ◌↔◌, IsTrue, IsSome, IfSome, pos};
ghost use Rattle.hys_number.specs.Gcd.{gcd as gcd_of};
ghost use Rattle.hys_number.specs.Number.{make};
ghost use Rattle.hys_number.specs.Ops.{◌*ₙ◌, ◌/ₙ◌, whole, fits};

use crate::frac::{Frac, narrow};
use crate::reduce::{gcd, product};

const LARGEST: u128 = i64::MAX as u128;

impl Frac {
    /// The exact `self * by / divisor`, or none where `divisor` is 0 or the number doesn't fit. The product and the
    /// quotient alone needn't fit.
    pub fn mul_div(self, by: Frac, divisor: Frac) -> Option<Frac>
        ensures value { IfSome result (λ r. r ≡ self *ₙ by /ₙ divisor) }
        ensures fits { IsSome result ↔ ((divisor ≢ whole 0) × IsTrue (fits (self *ₙ by /ₙ divisor))) }
    {
        let under = divisor.num();
        if under == 0 {
            return None;
        }
        let above = product(self.num(), by.num());
        let below = product(self.den(), by.den());
        let size = scaled(
            above.unsigned_abs(),
            below.unsigned_abs(),
            divisor.den().unsigned_abs() as u128,
            under.unsigned_abs() as u128,
        )?;
        if (above < 0) == (under < 0) {
            Some(size)
        } else {
            Some(size.neg())
        }
    }
}

// The number num / den times up / down, where it fits.
fn scaled(num: u128, den: u128, up: u128, down: u128) -> Option<Frac>
    requires below { 0 < den }
    requires above { 0 < up }
    requires divisor { 0 < down }
    requires reduced { gcd_of up down ≡ 1 }
    requires short_up { up < 2 ^ 63 }
    requires short_down { down < 2 ^ 63 }
    ensures value { IfSome result (λ r. r ≡ make (pos (num * up)) (den * down)) }
    ensures fits { IsSome result ↔ IsTrue (fits (make (pos (num * up)) (den * down))) }
{
    if num == 0 {
        return narrow(0, 1);
    }
    let common = gcd(num, den);
    crosswise(num / common, den / common, up, down)
}

// The same of two reduced ratios: once each is cancelled against the other, nothing is left in common.
fn crosswise(num: u128, den: u128, up: u128, down: u128) -> Option<Frac>
    requires above { 0 < num }
    requires below { 0 < den }
    requires up { 0 < up }
    requires down { 0 < down }
    requires left { gcd_of num den ≡ 1 }
    requires right { gcd_of up down ≡ 1 }
    requires short_up { up < 2 ^ 63 }
    requires short_down { down < 2 ^ 63 }
    ensures value { IfSome result (λ r. r ≡ make (pos (num * up)) (den * down)) }
    ensures fits { IsSome result ↔ IsTrue (fits (make (pos (num * up)) (den * down))) }
{
    let left = gcd(num, down);
    let right = gcd(up, den);
    narrow_products((num / left, up / right), (den / right, down / left))
}

// The number whose reduced parts are these two products, where it fits.
fn narrow_products(above: (u128, u128), below: (u128, u128)) -> Option<Frac>
    requires above { 0 < above.1 }
    requires first { 0 < below.0 }
    requires second { 0 < below.1 }
    requires reduced { gcd_of (above.0 * above.1) (below.0 * below.1) ≡ 1 }
    requires short_up { above.1 < 2 ^ 63 }
    requires short_down { below.1 < 2 ^ 63 }
    ensures value { IfSome result (λ r. r ≡ make (pos (above.0 * above.1)) (below.0 * below.1)) }
    ensures fits { IsSome result ↔ IsTrue (fits (make (pos (above.0 * above.1)) (below.0 * below.1))) }
{
    if above.0 > LARGEST || below.0 > LARGEST {
        return None;
    }
    narrow((above.0 * above.1) as i128, (below.0 * below.1) as i128)
}

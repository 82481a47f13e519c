ghost use Rattle.std.specs.Prelude.{◌≡◌, ◌≢◌, ◌*◌, ◌^◌, ◌<◌, unsigned_abs, pos};
ghost use Rattle.std.specs.Ordering.{MatchOrdering, nat_cmp};
ghost use Rattle.hys_number.specs.Number.{make};
ghost use Rattle.hys_number.specs.Ops.{◌/ₙ◌, ◌<ₙ◌, int, whole};

use crate::frac::Frac;
use crate::reduce::product;
use std::cmp::Ordering;

impl Frac {
    /// The order of the exact quotients `a / b` and `c / d`, which needn't fit. Neither `b` nor `d` is 0.
    pub fn cmp_quotient(a: Frac, b: Frac, c: Frac, d: Frac) -> Ordering
        requires left { b ≢ whole 0 }
        requires right { d ≢ whole 0 }
        ensures { MatchOrdering result ((a /ₙ b) <ₙ (c /ₙ d)) ((a /ₙ b) ≡ (c /ₙ d)) ((c /ₙ d) <ₙ (a /ₙ b)) }
    {
        let left = signed_above(product(a.num(), b.den()), product(a.den(), b.num()));
        let right = signed_above(product(c.num(), d.den()), product(c.den(), d.num()));
        cmp_signed(left.0, left.1, right.0, right.1)
    }
}

// The same ratio, with the sign above.
fn signed_above(num: i128, den: i128) -> (i128, u128)
    requires above { unsigned_abs num < 2 ^ 127 }
    requires below { den ≢ pos 0 }
    ensures value { make result.0 result.1 ≡ int num /ₙ int den }
    ensures positive { 0 < result.1 }
{
    if den < 0 {
        (-num, den.unsigned_abs())
    } else {
        (num, den.unsigned_abs())
    }
}

// The order of x / y and z / w.
fn cmp_signed(x: i128, y: u128, z: i128, w: u128) -> Ordering
    requires left { 0 < y }
    requires right { 0 < w }
    ensures { MatchOrdering result (make x y <ₙ make z w) (make x y ≡ make z w) (make z w <ₙ make x y) }
{
    if x < 0 && z < 0 {
        cmp_ratios(z.unsigned_abs(), w, x.unsigned_abs(), y)
    } else if x < 0 {
        Ordering::Less
    } else if z < 0 {
        Ordering::Greater
    } else {
        cmp_ratios(x.unsigned_abs(), y, z.unsigned_abs(), w)
    }
}

// The order of x / y and z / w. Where the whole parts are equal, it is that of what is left over, and so the other
// way round that of what is left over turned upside down.
fn cmp_ratios(x: u128, y: u128, z: u128, w: u128) -> Ordering
    requires left { 0 < y }
    requires right { 0 < w }
    ensures { result ≡ nat_cmp (x * w) (z * y) }
{
    let mut left = (x, y);
    let mut right = (z, w);
    'turns: loop {
        let whole = left.0 / left.1;
        let other = right.0 / right.1;
        if whole != other {
            return whole.cmp(&other);
        }
        let rest = left.0 % left.1;
        let other_rest = right.0 % right.1;
        if rest == 0 || other_rest == 0 {
            return rest.cmp(&other_rest);
        }
        (left, right) = ((right.1, other_rest), (left.1, rest));
    }
}

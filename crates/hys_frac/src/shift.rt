ghost use Rattle.std.specs.Prelude.{◌≡◌, ◌+◌, ◌*◌, ◌^◌, ◌<◌, ◌≤◌, ◌↔◌, pos, IsSome, IfSome, IsTrue};
ghost use Rattle.hys_number.specs.Number.{make};
ghost use Rattle.hys_number.specs.Ops.{fits};

use crate::frac::{Frac, narrow};
use crate::reduce::gcd;

const LARGEST: u128 = i64::MAX as u128;

// The number times ten to the `up`, over ten to the `down`, where it fits.
pub fn shifted(number: u128, up: u128, down: u128) -> Option<Frac>
    requires { number < 10 ^ 36 }
    ensures value { IfSome result (λ r. r ≡ make (pos (number * 10 ^ up)) (10 ^ down)) }
    ensures fits { IsSome result ↔ IsTrue (fits (make (pos (number * 10 ^ up)) (10 ^ down))) }
{
    if up >= down {
        raised(number, up - down)
    } else {
        lowered(number, down - up)
    }
}

// The number times ten to the `power`, where it fits.
fn raised(number: u128, power: u128) -> Option<Frac>
    requires { number < 10 ^ 36 }
    ensures value { IfSome result (λ r. r ≡ make (pos (number * 10 ^ power)) 1) }
    ensures fits { IsSome result ↔ IsTrue (fits (make (pos (number * 10 ^ power)) 1)) }
{
    let mut product = number;
    let mut left = power;
    while left > 0 && product > 0 {
        if product > LARGEST {
            return None;
        }
        product *= 10;
        left -= 1;
    }
    narrow(product as i128, 1)
}

// The number over ten to the `power`, where it fits.
fn lowered(number: u128, power: u128) -> Option<Frac>
    requires { number < 10 ^ 36 }
    ensures value { IfSome result (λ r. r ≡ make (pos number) (10 ^ power)) }
    ensures fits { IsSome result ↔ IsTrue (fits (make (pos number) (10 ^ power))) }
{
    let mut num = number;
    let mut den = 1;
    let mut left = power;
    while left > 0 && num > 0 {
        if den > LARGEST {
            return None;
        }
        let common = gcd(num, den * 10);
        num /= common;
        den = den * 10 / common;
        left -= 1;
    }
    narrow(num as i128, den as i128)
}

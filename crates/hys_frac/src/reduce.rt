ghost use Rattle.std.specs.Prelude.{◌≡◌, ◌^◌, ◌<◌, unsigned_abs, ◌*ℤ◌};
ghost use Rattle.hys_number.specs.Gcd.{gcd as gcd_of};

// The product of two numbers of 63 bits, which fits.
pub fn product(a: i64, b: i64) -> i128
    requires left { unsigned_abs a < 2 ^ 63 }
    requires right { unsigned_abs b < 2 ^ 63 }
    ensures value { result ≡ a *ℤ b }
    ensures below { unsigned_abs result < 2 ^ 126 }
{
    a as i128 * b as i128
}

// The greatest common divisor. Once the divisor is short, all that follows is.
pub fn gcd(a: u128, b: u128) -> u128
    ensures { result ≡ gcd_of a b }
{
    let mut x = a;
    let mut y = b;
    while y > u64::MAX as u128 {
        let rest = x % y;
        x = y;
        y = rest;
    }
    if y == 0 {
        return x;
    }
    gcd_short(y as u64, (x % y) as u64) as u128
}

// The greatest common divisor of two short numbers.
pub fn gcd_short(a: u64, b: u64) -> u64
    ensures { result ≡ gcd_of a b }
{
    let mut x = a;
    let mut y = b;
    while y != 0 {
        let rest = x % y;
        x = y;
        y = rest;
    }
    x
}

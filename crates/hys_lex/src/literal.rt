ghost use Rattle.std.specs.Prelude.{◌≡◌, ◌<◌, ◌≤◌, length, true, false, slice_index};
ghost use Rattle.std.specs.List.{prefix_len};
ghost use Rattle.hys_lex.specs.Bytes.{is_digit, is_plus_or_minus};
ghost use Rattle.hys_lex.specs.Pieces.{IsLongest, IsMantissa, IsExponent, IsLiteral};

use crate::byte;

// How many digits the text begins with.
fn digits_len(text: &[u8]) -> usize
    ensures value { result ≡ prefix_len is_digit text.now }
    ensures within { result ≤ length text.now }
{
    for (n, b) in text.iter().enumerate() {
        if !byte::is_digit(*b) {
            return n;
        }
    }
    text.len()
}

fn mantissa_len(text: &[u8]) -> usize
    ensures { IsLongest IsMantissa text.now result }
{
    let whole = digits_len(text);
    if whole == text.len() || text[whole] != b'.' {
        return whole;
    }
    let part = digits_len(&text[whole + 1..]);
    if whole + part == 0 {
        return 0;
    }
    whole + 1 + part
}

// Where the digits of an exponent stand: after the mark, and after at most one sign.
fn power_start(text: &[u8]) -> usize
    requires { 0 < length text.now }
    ensures signed { is_plus_or_minus (slice_index text.now 1) ≡ true → result ≡ 2 }
    ensures plain { is_plus_or_minus (slice_index text.now 1) ≡ false → result ≡ 1 }
    ensures within { result ≤ length text.now }
{
    if text.len() > 1 && byte::is_plus_or_minus(text[1]) {
        2
    } else {
        1
    }
}

fn exponent_len(text: &[u8]) -> usize
    ensures { IsLongest IsExponent text.now result }
{
    if text.is_empty() || !byte::is_exponent_mark(text[0]) {
        return 0;
    }
    let start = power_start(text);
    let digits = digits_len(&text[start..]);
    if digits == 0 {
        return 0;
    }
    start + digits
}

/// The length of the longest literal that the text begins with, 0 for none.
pub fn literal_len(text: &[u8]) -> usize
    ensures { IsLongest IsLiteral text.now result }
{
    let mantissa = mantissa_len(text);
    if mantissa == 0 {
        return 0;
    }
    mantissa + exponent_len(&text[mantissa..])
}

ghost use Rattle.std.specs.Prelude.{◌≡◌, ◌+◌, ◌*◌, ◌^◌, ◌<◌, ◌≤◌, length, drop, slice_index, nat_lt, IsTrue, ◌↔◌};
ghost use Rattle.std.specs.Str.Parse.{AllDigits, digits_value, digits_value_after};
ghost use Rattle.std.specs.Float.Numeral.{digits_end as end_of_digits};

// The byte at the index, or 0 past the end.
pub fn byte_at(text: &[u8], at: usize) -> u8
    ensures { result ≡ slice_index text.now at }
{
    if at < text.len() { text[at] } else { 0 }
}

// Where the digits that begin at `from` end.
pub fn digits_end(text: &[u8], from: usize) -> usize
    requires { from ≤ length text.now }
    ensures end { result ≡ end_of_digits text.now from }
    ensures within { result ≤ length text.now }
{
    let mut at = from;
    while at < text.len() {
        if !text[at].is_ascii_digit() {
            return at;
        }
        at += 1;
    }
    at
}

// The number that the digits write after those of `before`.
pub fn number(before: u128, digits: &[u8]) -> u128
    requires digits { AllDigits 10 digits.now }
    requires room { (before + 1) * 10 ^ length digits.now ≤ 10 ^ 36 }
    ensures { result ≡ digits_value_after 10 before digits.now }
{
    let mut value = before;
    for digit in digits {
        value = value * 10 + (*digit - b'0') as u128;
    }
    value
}

// Whether each byte is `0`.
pub fn all_zero(digits: &[u8]) -> bool
    requires { AllDigits 10 digits.now }
    ensures { IsTrue result ↔ (digits_value 10 digits.now ≡ 0) }
{
    for digit in digits {
        if *digit != b'0' {
            return false;
        }
    }
    true
}

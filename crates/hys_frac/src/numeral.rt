ghost use Rattle.std.specs.Prelude.{◌≡◌, ◌+◌, ◌*◌, ◌^◌, ◌<◌, ◌≤◌, ◌&&◌, ◌==◌, ◌++◌, ◌↔◌, [], false, length, if◌then◌else◌, slice_index, slice_range, nat_lt, pos, IsSome, IfSome, IsTrue};
ghost use Rattle.std.specs.Str.Parse.{AllDigits};
ghost use Rattle.std.specs.Float.Numeral.{minus, scan_numeral, digits_end as end_of_digits, exponent_start, has_exponent, has_digits as has_any_digits};
ghost use Rattle.hys_number.specs.Number.{make};
ghost use Rattle.hys_number.specs.Ops.{fits};
ghost use Rattle.hys_frac.specs.Read.{literal_value};
ghost use Rattle.hys_frac.specs.Numerals.{exponent_digits, exponent_end};

use crate::digits::{byte_at, digits_end, number};
use crate::frac::Frac;
use crate::shift::shifted;
use std::marker::Model;

// The longest literal at the front of a text, cut into its parts.
#[derive(Drop)]
pub struct Numeral<'a> {
    whole: &'a [u8],
    point: bool,
    fraction: &'a [u8],
    exponent_negative: bool,
    exponent: &'a [u8],
    len: usize,
}

impl<'a> Model for Numeral<'a> {
    ghost use Rattle.std.specs.Float.Numeral.{Parts};
    ghost use Rattle.hys_frac.specs.Read.{parts_code};
    ghost use Rattle.hys_frac.specs.Numerals.{AreParts};

    ghost Value = { Parts };

    ghost coded = { parts_code };

    ghost view = { λ n. record {
      whole = n.whole.now;
      point = n.point;
      fraction = n.fraction.now;
      exponent_negative = n.exponent_negative;
      exponent = n.exponent.now;
      len = n.len;
    } };

    ghost invariant = { λ n. AreParts n.whole.now n.fraction.now n.exponent.now n.len };
}

// Where the digits of the exponent at the index begin, or 0 where there is none.
fn find_exponent(text: &[u8], at: usize) -> usize
    requires { at ≤ length text.now }
    ensures found { nat_lt 0 result ≡ has_exponent text.now at }
    ensures start { 0 < result → (result ≡ exponent_start text.now at) × (at < result) × (result < length text.now) }
{
    let mark = byte_at(text, at);
    if mark != b'e' && mark != b'E' {
        return 0;
    }
    let sign = byte_at(text, at + 1);
    let start = if sign == b'-' || sign == b'+' {
        at + 2
    } else {
        at + 1
    };
    if byte_at(text, start).is_ascii_digit() {
        start
    } else {
        0
    }
}

impl<'a> Numeral<'a> {
    // The longest literal at the front of the text. It may have no digit.
    pub fn scan(text: &'a [u8]) -> Numeral<'a>
        ensures parts { result ≡ scan_numeral text.now }
        ensures within { result.len ≤ length text.now }
    {
        let whole_end = digits_end(text, 0);
        let whole = &text[..whole_end];
        if byte_at(text, whole_end) != b'.' {
            return Numeral::with_exponent(text, whole_end, whole, false, &[]);
        }
        let end = digits_end(text, whole_end + 1);
        Numeral::with_exponent(text, end, whole, true, &text[whole_end + 1..end])
    }

    fn with_exponent(
        text: &'a [u8],
        at: usize,
        whole: &'a [u8],
        point: bool,
        fraction: &'a [u8],
    ) -> Numeral<'a>
        requires at { at ≤ length text.now }
        requires digits { AllDigits 10 whole.now × AllDigits 10 fraction.now }
        requires taken { length whole.now + length fraction.now ≤ at }
        ensures whole { result.whole ≡ whole.entry.now }
        ensures point { result.point ≡ point }
        ensures fraction { result.fraction ≡ fraction.entry.now }
        ensures sign { result.exponent_negative ≡ (has_exponent text.now at && slice_index text.now (at + 1) == minus) }
        ensures exponent { result.exponent ≡ exponent_digits text.now at }
        ensures len { result.len ≡ exponent_end text.now at }
        ensures within { result.len ≤ length text.now }
    {
        let start = find_exponent(text, at);
        if start == 0 {
            return Numeral {
                whole,
                point,
                fraction,
                exponent_negative: false,
                exponent: &[],
                len: at,
            };
        }
        let len = digits_end(text, start);
        let exponent_negative = byte_at(text, at + 1) == b'-';
        Numeral {
            whole,
            point,
            fraction,
            exponent_negative,
            exponent: &text[start..len],
            len,
        }
    }

    // How many bytes the literal takes.
    pub fn len(&self) -> usize
        ensures { result ≡ self.now.len }
    {
        self.len
    }

    // Whether a digit stands before the exponent.
    pub fn has_digits(&self) -> bool
        ensures { result ≡ has_any_digits self.now }
    {
        !self.whole.is_empty() || !self.fraction.is_empty()
    }

    // The number, where it fits.
    pub fn value(&self) -> Option<Frac>
        requires { self.now.len ≤ 32 }
        ensures value { IfSome result (λ r. r ≡ literal_value self.now) }
        ensures fits { IsSome result ↔ IsTrue (fits (literal_value self.now)) }
    {
        let digits = number(number(0, self.whole), self.fraction);
        let exponent = number(0, self.exponent);
        let places = self.fraction.len() as u128;
        if self.exponent_negative {
            shifted(digits, 0, places + exponent)
        } else {
            shifted(digits, exponent, places)
        }
    }
}

ghost use Rattle.std.specs.Prelude.{◌≡◌, ◌+◌, ◌<◌, ◌≤◌, length, take, drop};
ghost use Rattle.std.specs.Str.Parse.{AllDigits};
ghost use Rattle.hys_frac.specs.Read.{reading, unsigned_reading, ratio_reading, literal_reading, without_sign};

use crate::digits::{all_zero, byte_at, digits_end, number};
use crate::frac::{Frac, reduce};
use crate::numeral::Numeral;

/// Why a text was not read as a number.
#[derive(Clone, Copy, Debug, PartialEq, Eq)]
pub enum FracFault {
    /// It is no number text.
    Form,
    /// The literal, or one of the two digit parts, has more than 32 characters.
    Long,
    /// The number doesn't fit.
    Range,
}

impl Frac {
    /// Reads a number text: an optional `+` or `-`, then a literal, or digits `/` digits of which
    /// the second aren't all 0. A literal is digits with a point or none, at least one digit, and
    /// then `e` or `E`, a sign or none, and digits, or no exponent.
    pub fn read(text: &[u8]) -> Result<Frac, FracFault>
        ensures { result ≡ reading text.now }
    {
        let number = read_unsigned(unsigned(text));
        if byte_at(text, 0) != b'-' {
            return number;
        }
        match number {
            Ok(number) => Ok(number.neg()),
            Err(fault) => Err(fault),
        }
    }
}

// The text after its sign.
fn unsigned(text: &[u8]) -> &[u8]
    ensures { result.now ≡ without_sign text.now }
{
    let first = byte_at(text, 0);
    if first == b'-' || first == b'+' {
        &text[1..]
    } else {
        text
    }
}

fn read_unsigned(text: &[u8]) -> Result<Frac, FracFault>
    ensures { result ≡ unsigned_reading text.now }
{
    let end = digits_end(text, 0);
    if byte_at(text, end) == b'/' {
        read_ratio(&text[..end], &text[end + 1..])
    } else {
        read_literal(text)
    }
}

fn read_ratio(above: &[u8], below: &[u8]) -> Result<Frac, FracFault>
    requires { AllDigits 10 above.now }
    ensures { result ≡ ratio_reading above.now below.now }
{
    if above.is_empty() || digits_end(below, 0) != below.len() || all_zero(below) {
        return Err(FracFault::Form);
    }
    if above.len() > 32 || below.len() > 32 {
        return Err(FracFault::Long);
    }
    match reduce(number(0, above) as i128, number(0, below) as i128) {
        Some(number) => Ok(number),
        None => Err(FracFault::Range),
    }
}

fn read_literal(text: &[u8]) -> Result<Frac, FracFault>
    ensures { result ≡ literal_reading text.now }
{
    let numeral = Numeral::scan(text);
    if !numeral.has_digits() || numeral.len() != text.len() {
        return Err(FracFault::Form);
    }
    if text.len() > 32 {
        return Err(FracFault::Long);
    }
    match numeral.value() {
        Some(number) => Ok(number),
        None => Err(FracFault::Range),
    }
}

ghost use Rattle.std.specs.Prelude.{◌≡◌};
ghost use Rattle.hys_lex.specs.Bytes as class;

pub fn is_blank(b: u8) -> bool
    ensures { result ≡ class.is_blank b }
{
    b == b' ' || b == b'\t' || b == b'\r' || b == b'\n'
}

pub fn is_letter(b: u8) -> bool
    ensures { result ≡ class.is_letter b }
{
    b'A' <= b && b <= b'Z' || b'a' <= b && b <= b'z' || b == b'_'
}

pub fn is_digit(b: u8) -> bool
    ensures { result ≡ class.is_digit b }
{
    b'0' <= b && b <= b'9'
}

pub fn is_name_byte(b: u8) -> bool
    ensures { result ≡ class.is_name_byte b }
{
    is_letter(b) || is_digit(b)
}

pub fn is_exponent_mark(b: u8) -> bool
    ensures { result ≡ class.is_exponent_mark b }
{
    b == b'e' || b == b'E'
}

pub fn is_plus_or_minus(b: u8) -> bool
    ensures { result ≡ class.is_plus_or_minus b }
{
    b == b'+' || b == b'-'
}

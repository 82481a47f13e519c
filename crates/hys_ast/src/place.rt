ghost use Rattle.std.specs.Prelude.{◌≡◌, ◌<◌, ◌≤◌, ◌-◌, ◌^◌, length};
ghost use Rattle.hys_ast.specs.Places.{place_at};

/// A place in a text: the number of bytes before it, its line and its column, both from 1. A line
/// ends at a line feed, and each byte is a column.
#[derive(Clone, Copy, Debug, PartialEq, Eq)]
pub struct Place {
    pub byte: u32,
    pub line: u32,
    pub col: u32,
}

/// The place where a text begins.
#[tactic(auto, unfolding(crate::specs::Places::place_at))]
pub fn start(text: &[u8]) -> Place
    ensures place { result ≡ place_at text.now 0 }
    ensures first { result.byte ≡ 0 }
{
    Place {
        byte: 0,
        line: 1,
        col: 1,
    }
}

/// The place of the byte, found from a place that stands at it or before it.
pub fn advance(text: &[u8], place: Place, byte: u32) -> Place
    requires known { place ≡ place_at text.now place.byte }
    requires ahead { place.byte ≤ byte }
    requires within { byte ≤ length text.now }
    requires small { length text.now < 2 ^ 32 - 1 }
    ensures { result ≡ place_at text.now byte }
{
    let mut line = place.line;
    let mut col = place.col;
    for at in place.byte..byte {
        if text[at as usize] == b'\n' {
            line += 1;
            col = 1;
        } else {
            col += 1;
        }
    }
    Place { byte, line, col }
}

/// The place of the byte in the text.
pub fn place_of(text: &[u8], byte: u32) -> Place
    requires within { byte ≤ length text.now }
    requires small { length text.now < 2 ^ 32 - 1 }
    ensures { result ≡ place_at text.now byte }
{
    advance(text, start(text), byte)
}

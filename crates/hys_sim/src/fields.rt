ghost use Rattle.std.specs.Prelude.{◌≡◌};
ghost use Rattle.hys_sim.specs.Fields.{from_first, is_blank as blank, stripped, up_to_last};

// Whether the byte is a space or a tab.
fn is_blank(byte: u8) -> bool
    ensures { result ≡ blank byte }
{
    byte == b' ' || byte == b'\t'
}

// The text from its first byte that is no blank on.
fn without_first(text: &[u8]) -> &[u8]
    ensures { result.now ≡ from_first text.now }
{
    let mut start = 0usize;
    while start < text.len() && is_blank(text[start]) {
        start += 1;
    }
    &text[start..]
}

// The text up to its last byte that is no blank.
fn without_last(text: &[u8]) -> &[u8]
    ensures { result.now ≡ up_to_last text.now }
{
    let mut end = text.len();
    while end > 0 && is_blank(text[end - 1]) {
        end -= 1;
    }
    &text[..end]
}

/// The field without the blanks round it.
pub fn strip(field: &[u8]) -> &[u8]
    ensures { result.now ≡ stripped field.now }
{
    without_last(without_first(field))
}

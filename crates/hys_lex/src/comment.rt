ghost use Rattle.std.specs.Prelude.{◌≡◌, ◌≢◌, ◌<◌, ◌≤◌, ℕ, length, take, slice_index, MatchOption};
ghost use Rattle.hys_lex.specs.Pieces.{IsBlock, IsUnclosed, Opens};

/// The length of the comment that a `/*` at the front of the text begins, up to the next `*/`.
pub fn block_len(text: &[u8]) -> Option<usize>
    requires { Opens text.now }
    ensures { MatchOption result (IsUnclosed text.now) (λ n. (n ≤ length text.now) × IsBlock (take n text.now)) }
{
    for i in 3..text.len() {
        if text[i - 1] == b'*' && text[i] == b'/' {
            return Some(i + 1);
        }
    }
    None
}

/// The place of the first LF, or the length of the text where it has none.
pub fn line_len(text: &[u8]) -> usize
    ensures within { result ≤ length text.now }
    ensures before { (i : ℕ) → i < result → slice_index text.now i ≢ 10 }
    ensures stops { result < length text.now → slice_index text.now result ≡ 10 }
{
    for (i, b) in text.iter().enumerate() {
        if *b == b'\n' {
            return i;
        }
    }
    text.len()
}

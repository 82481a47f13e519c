ghost use Rattle.std.specs.Prelude.{◌<◌, ◌≤◌, ℕ, MatchOption, length, take};
ghost use Rattle.hys_lex.specs.Words.{keywords, signs, IsAt, IsNowhere, lent};

const KEYWORDS: [&[u8]; 24] = [
    b"SYSTEM",
    b"INTERFACE",
    b"IMPLEMENTATION",
    b"STATE",
    b"INPUT",
    b"OUTPUT",
    b"PARAMETER",
    b"AUX",
    b"AD",
    b"DA",
    b"LOGIC",
    b"LINEAR",
    b"AUTOMATA",
    b"CONTINUOUS",
    b"MUST",
    b"REAL",
    b"BOOL",
    b"IF",
    b"THEN",
    b"ELSE",
    b"TRUE",
    b"true",
    b"FALSE",
    b"false",
];

const SIGNS: [&[u8]; 25] = [
    b"{", b"}", b"(", b")", b"[", b"]", b",", b";", b"=", b"<=", b">=", b"==", b"+", b"-", b"*",
    b"/", b"~", b"!", b"&", b"&&", b"|", b"||", b"->", b"<-", b"<->",
];

// The place of the word in the list.
fn place(words: &[&[u8]], word: &[u8]) -> Option<u8>
    requires { length words.now ≤ 256 }
    ensures { MatchOption result (IsNowhere (lent words.now) word.now) (λ k. IsAt (lent words.now) k word.now) }
{
    for (k, candidate) in words.iter().enumerate() {
        if *candidate == word {
            return Some(k as u8);
        }
    }
    None
}

// The place and the length of the longest word of the list that the text begins with; the length is 0
// for none.
fn longest(words: &[&[u8]], text: &[u8]) -> (u8, usize)
    requires few { length words.now ≤ 256 }
    requires some { 0 < length text.now }
    ensures most { (k size : ℕ) → size ≤ length text.now → IsAt (lent words.now) k (take size text.now) → size ≤ result.1 }
    ensures within { result.1 ≤ length text.now }
    ensures found { 0 < result.1 → IsAt (lent words.now) result.0 (take result.1 text.now) }
{
    let first = text[0];
    let mut best = (0, 0);
    for (k, candidate) in words.iter().enumerate() {
        if best.1 < candidate.len() && candidate[0] == first && text.starts_with(candidate) {
            best = (k as u8, candidate.len());
        }
    }
    best
}

/// The place of the word among the keywords.
pub fn keyword(word: &[u8]) -> Option<u8>
    ensures { MatchOption result ((k : ℕ) → IsAt keywords k word.now → ⊥) (λ k. IsAt keywords k word.now) }
{
    place(&KEYWORDS, word)
}

/// The place and the length of the longest sign that the text begins with; the length is 0 for none.
pub fn sign(text: &[u8]) -> (u8, usize)
    requires { 0 < length text.now }
    ensures most { (k : ℕ) (size : ℕ) → size ≤ length text.now → IsAt signs k (take size text.now) → size ≤ result.1 }
    ensures within { result.1 ≤ length text.now }
    ensures found { 0 < result.1 → IsAt signs result.0 (take result.1 text.now) }
{
    longest(&SIGNS, text)
}

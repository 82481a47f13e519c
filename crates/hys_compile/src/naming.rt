//! The words of the faults.

ghost use Rattle.std.specs.Prelude.{◌≡◌, [], map, slice_index_or};
ghost use Rattle.hys_compile.specs.Faults.{listed, words_of};

// The words of each fault stand at its number.
const WORDS: [&str; 21] = [
    "",
    "byte",
    "comment",
    "long",
    "syntax",
    "twice",
    "unknown",
    "kind",
    "not linear",
    "zero divisor",
    "no bounds",
    "empty bounds",
    "no value",
    "missing",
    "defined twice",
    "wrong section",
    "cycle",
    "range",
    "limit",
    "not yet",
    "tolerance",
];

// The words at a place of the list.
fn find_words(words: &[&'static str], place: usize) -> &'static str
    ensures { result.now ≡ slice_index_or (map (λ w. w.now) words.now) place [] }
{
    match words.get(place) {
        Some(found) => found,
        None => "",
    }
}

/// The words of the fault with this number, or none where no fault has it.
pub fn name_fault(number: u8) -> &'static str
    ensures { result.now ≡ words_of number }
{
    find_words(&WORDS, number as usize)
}

//! What texts are read as numbers, as calls that do nothing.

ghost use Rattle.std.specs.Prelude.{◌≡◌, ◌≢◌, ◌↔◌, ◌≤◌, ℕ, List, All, length, false, Err};
ghost use Rattle.hys_frac.specs.Read.{judged, literal_reading, reading};
ghost use Rattle.hys_frac.specs.declared.read.FracFault.TheVariants.{Form};
ghost use Rattle.hys_lex.specs.Pieces.{IsLiteral};
ghost use Rattle.hys_spelling.specs.Spelling.{written_number, literal_number, IsNumberText, text_number, some_number_texts, other_texts};

/// The text of a literal token, however long, is read as the number that it writes, or refused as too long
/// or for a number that doesn't fit.
pub fn literals_are_read()
    ensures any { (text : List ℕ) → IsLiteral text → reading text ≡ literal_number text }
    ensures short { (t : List ℕ) → IsLiteral t → length t ≤ 32 → reading t ≡ judged false (written_number t) }
{}

/// Where no sign and no `/` is read, a text has the form of a number exactly where it is a literal.
pub fn read_texts_are_literals()
    ensures { (text : List ℕ) → (literal_reading text ≢ Err Form) ↔ IsLiteral text }
{}

/// A text has the form of a number exactly where it is at most one sign and then a literal, or digits, `/`
/// and digits that aren't all 0. It is then read as the number that it writes, or refused as too long or for
/// a number that doesn't fit.
pub fn number_texts()
    ensures form { (text : List ℕ) → (reading text ≢ Err Form) ↔ IsNumberText text }
    ensures value { (text : List ℕ) → (n : IsNumberText text) → reading text ≡ text_number text n }
{}

/// Texts that have the form of a number, and texts that don't.
pub fn examples()
    ensures numbers { All IsNumberText some_number_texts }
    ensures others { All (λ t. IsNumberText t → ⊥) other_texts }
{}

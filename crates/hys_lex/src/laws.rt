//! What holds of every cut, as calls that do nothing.

ghost use Rattle.std.specs.Prelude.{◌≡◌, ◌⊎◌, ℕ, List, All, AllPairs, IsAscii, length, map, slice_range};
ghost use Rattle.hys_lex.specs.Words.{keywords, signs, IsAt};
ghost use Rattle.hys_lex.specs.Named.{named_keywords, named_signs};
ghost use Rattle.hys_lex.specs.Cut.{Cut, IsFirstFault, IsTokenOf, Precedes};
ghost use Rattle.hys_lex.specs.Spaced.{Spelling, IsSpelled, spelling, spaced, spaced_tokens};
ghost use Rattle.hys_lex.specs.declared.token.Token.{Token as CutToken};
ghost use Rattle.hys_lex.specs.declared.cut.LexFault.{LexFault as Fault};

use crate::token::Token;

/// A text has at most one cut or one first fault, and never both.
pub fn one_cut()
    ensures cut { (text : List ℕ) (a b : List CutToken) → Cut text a → Cut text b → a ≡ b }
    ensures fault { (text : List ℕ) (a b : Fault) → IsFirstFault text a → IsFirstFault text b → a ≡ b }
    ensures apart { (text : List ℕ) (f : Fault) (tokens : List CutToken) → IsFirstFault text f → Cut text tokens → ⊥ }
{}

/// A text has a cut or a first fault: with the law above, exactly one of the two.
pub fn cut_or_fault()
    ensures { (text : List ℕ) → ((tokens : List CutToken) × Cut text tokens) ⊎ ((fault : Fault) ×
        IsFirstFault text fault) }
{}

/// The spans of the tokens of a cut rise within the text, and the bytes of each are a token of its kind,
/// in ASCII.
pub fn spans(tokens: &[Token], text: &[u8])
    requires { Cut text.now tokens.now }
    ensures each { All (IsTokenOf text.now) tokens.now }
    ensures rising { AllPairs Precedes tokens.now }
    ensures ascii { All (λ t. IsAscii (slice_range text.now t.from t.to)) tokens.now }
    ensures spelled { All (λ t. IsSpelled (spelling text.now t)) tokens.now }
{}

/// A text of tokens that are each followed by a space has these tokens, and they read as they were written.
pub fn spaced_text()
    ensures cut { (words : List Spelling) → All IsSpelled words → Cut (spaced words) (spaced_tokens 0 words) }
    ensures read { (words : List Spelling) → map (spelling (spaced words)) (spaced_tokens 0 words) ≡ words }
{}

/// How many keywords and signs there are, and that each constant of the modules `keyword` and `sign` is
/// the place of the word that it names.
pub fn listed()
    ensures keywords { length keywords ≡ 24 }
    ensures signs { length signs ≡ 25 }
    ensures named_keywords { All (λ p. IsAt keywords p.0 p.1) named_keywords }
    ensures named_signs { All (λ p. IsAt signs p.0 p.1) named_signs }
{}

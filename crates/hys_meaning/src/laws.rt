//! What holds of the meaning of sources, as calls that do nothing.

ghost use Rattle.std.specs.Prelude.{◌≡◌, []};
ghost use Rattle.hys_ast.specs.Tree.{Source};
ghost use Rattle.hys_meaning.specs.Unfolded.{guards, unfolded};

/// A source without unnamed guards is its own unfolded source.
pub fn unfolds_to_itself()
    ensures { (s : Source) → guards s ≡ [] → unfolded s ≡ s }
{}

//! What holds of the words of prints, as calls that do nothing.

ghost use Rattle.std.specs.Prelude.{◌≡◌, ℕ, ◌≤◌, true};
ghost use Rattle.hys_ast.specs.Tree.{Tree};
ghost use Rattle.hys_ast.specs.Printed.{NeedsParentheses, is_loose};

/// An operand that stands in parentheses needs them: at its place nothing that begins without a
/// parenthesis has its tree, places aside.
pub fn parentheses()
    ensures { (least : ℕ) (e : Tree) → least ≤ 8 → is_loose least e ≡ true → NeedsParentheses least e }
{}

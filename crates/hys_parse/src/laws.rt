//! What holds of the trees of tokens and of their faults, as calls that do nothing.

ghost use Rattle.std.specs.Prelude.{◌≡◌, ◌↔◌, ◌⊎◌, ℕ, List};
ghost use Rattle.hys_lex.specs.declared.token.Token.{Token};
ghost use Rattle.hys_ast.specs.Tree.{Source as Tree};
ghost use Rattle.hys_ast.specs.Grammar.{IsTreeOf};
ghost use Rattle.hys_parse.specs.Depth.{depth, IsDepth, IsShallow};
ghost use Rattle.hys_parse.specs.Cause.{IsUngrammatical, HasTree, HasSyntaxFault};

/// At most one tree derives the tokens of a text.
pub fn one_tree()
    ensures { (text : List ℕ) (tokens : List Token) (a b : Tree) → IsTreeOf text tokens a → IsTreeOf text tokens b →
        a ≡ b }
{}

/// Tokens with a tree have no syntax fault, and others have at most one.
pub fn one_fault()
    ensures apart { (bs : List ℕ) (ts : List Token) (k : ℕ) (t : Tree) → IsUngrammatical bs ts k → IsTreeOf bs ts t → ⊥ }
    ensures one { (bs : List ℕ) (ts : List Token) (j k : ℕ) → IsUngrammatical bs ts j → IsUngrammatical bs ts k → j ≡ k }
{}

/// Tokens none of which is deep have a tree or a syntax fault: with the law above, exactly one of the two.
pub fn tree_or_fault()
    ensures { (text : List ℕ) (tokens : List Token) → IsShallow tokens → HasTree text tokens ⊎ HasSyntaxFault text tokens }
{}

/// The depth that is counted from token to token is what depth is.
pub fn depth_counted()
    ensures { (tokens : List Token) (k d : ℕ) → IsDepth tokens k d ↔ (d ≡ depth tokens k) }
{}

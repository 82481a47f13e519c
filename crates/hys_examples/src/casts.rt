//! Casts, numbers and connectives; what cancels; parameters.

ghost use Rattle.std.specs.Prelude.{◌≡◌, [], ◌∷◌, codes, List, pos, map};
ghost use Rattle.hys_number.specs.Number.{Number, make};
ghost use Rattle.hys_number.specs.Ops.{whole};
ghost use Rattle.hys_ast.specs.declared.tree.BinaryOp.TheVariants as binary;
ghost use Rattle.hys_ast.specs.Tree.{Tree};
ghost use Rattle.hys_meaning.specs.Values.{Assignment, truth};
ghost use Rattle.hys_meaning.specs.Names.{names};
ghost use Rattle.hys_meaning.specs.Typed.{Typed};
ghost use Rattle.hys_meaning.specs.Circular.{Circular};
ghost use Rattle.hys_meaning.specs.Steps.{Stuck};
ghost use Rattle.hys_meaning.specs.Accepted.{Accepted};
ghost use Rattle.hys_examples.specs.Trees.{both, negated, number};
ghost use Rattle.hys_examples.specs.Sources.{casting, choosing, boxed_by, cancelled, kept, too_early, bounded_later, tolerance, n_over};
ghost use Rattle.hys_examples.specs.OneStep.{OneStep};
ghost use Rattle.hys_examples.specs.Worked.{tenths};

/// A cast is 0 or 1. With `MUST { 3*(REAL a) + 2*(REAL b) <= 4; }` not both may be on, and nothing
/// lies between off and on.
pub fn casts()
    ensures accepted { Accepted casting }
    ensures one { OneStep tolerance casting (whole 0 ∷ []) (whole 1 ∷ whole 0 ∷ []) [] (whole 3 ∷ []) [] }
    ensures both { Stuck tolerance casting (whole 0 ∷ []) (whole 1 ∷ whole 1 ∷ []) }
    ensures between { Stuck tolerance choosing (whole 3 ∷ []) (n_over 1 2 ∷ whole 0 ∷ []) }
{}

/// The ends of boxes are exact.
pub fn numbers()
    ensures sum { map (λ n. n.high) (names (boxed_by tenths)) ≡ n_over 3 10 ∷ [] }
    ensures small { map (λ n. n.high) (names (boxed_by (number (codes "1e-18")))) ≡ n_over 1 1000000000000000000 ∷ [] }
{}

/// `a -> b` is `~a | b`, and `a <- b` is `a | ~b`.
pub fn arrows()
    ensures then { (w : Assignment) (a b : Tree) →
        truth w (both binary.Then a b) ≡ truth w (both binary.Or (negated a) b) }
    ensures from { (w : Assignment) (a b : Tree) →
        truth w (both binary.From a b) ≡ truth w (both binary.Or a (negated b)) }
{}

/// A name whose factors cancel isn't mentioned.
pub fn factors()
    ensures cancelled { Accepted cancelled }
    ensures kept { Circular kept (codes "z" ∷ []) }
{}

/// A parameter's value uses those before it, a bound any.
pub fn parameters()
    ensures early { ¬ (Typed too_early) }
    ensures later { Accepted bounded_later }
{}

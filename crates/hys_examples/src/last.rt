//! Guards with a tolerance of their own, and guards without a name.

ghost use Rattle.std.specs.Prelude.{[], ◌∷◌};
ghost use Rattle.hys_number.specs.Ops.{whole};
ghost use Rattle.hys_meaning.specs.Steps.{Stuck};
ghost use Rattle.hys_meaning.specs.Unfolded.{unfolded};
ghost use Rattle.hys_examples.specs.Sources.{tolerance, n_over};
ghost use Rattle.hys_examples.specs.Last.{own, inner, LastForm};
ghost use Rattle.hys_examples.specs.OneStep.{OneStep};
ghost use Rattle.hys_examples.specs.Worked.{both_on};

/// How guards are named, what they weigh, and which tolerances and circles there are.
pub fn named_guards()
    ensures { LastForm }
{}

/// The guard `d = x >= 5 [1/2]` is true at 5 and false at 4.5; no step is legal at 4.75.
pub fn own_tolerance()
    ensures edge { OneStep tolerance (unfolded own) (whole 5 ∷ []) [] (whole 1 ∷ []) (whole 5 ∷ []) [] }
    ensures gap { Stuck tolerance (unfolded own) (n_over 19 4 ∷ []) [] }
    ensures far { OneStep tolerance (unfolded own) (n_over 9 2 ∷ []) [] (whole 0 ∷ []) (n_over 9 2 ∷ []) [] }
{}

/// With `d = a & x <= 4` and a true, at 4 both d and the unnamed guard are true, and no step is legal
/// a little above.
pub fn unnamed_guard()
    ensures edge { OneStep tolerance (unfolded inner) (whole 4 ∷ []) (whole 1 ∷ []) both_on (whole 4 ∷ []) [] }
    ensures gap { Stuck tolerance (unfolded inner) (n_over 8001 2000 ∷ []) (whole 1 ∷ []) }
{}

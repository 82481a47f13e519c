//! A guard at its edge, in its gap and at the tolerance.

ghost use Rattle.std.specs.Prelude.{[], ◌∷◌, List};
ghost use Rattle.hys_number.specs.Ops.{whole};
ghost use Rattle.hys_meaning.specs.Steps.{Stuck};
ghost use Rattle.hys_examples.specs.Sources.{guarded, always, tolerance, n_over};
ghost use Rattle.hys_examples.specs.OneStep.{OneStep};
ghost use Rattle.hys_examples.specs.Worked.{IsOnInEachStep};

/// The guard `d = x >= 5` is true at 5, and no step is legal a little below.
pub fn at_the_edge()
    ensures edge { OneStep tolerance guarded (whole 5 ∷ []) [] (whole 1 ∷ []) (whole 5 ∷ []) [] }
    ensures gap { Stuck tolerance guarded (n_over 9999 2000 ∷ []) [] }
    ensures far { OneStep tolerance guarded (n_over 4999 1000 ∷ []) [] (whole 0 ∷ []) (n_over 4999 1000 ∷ []) [] }
{}

/// The guard `d = x <= 20` is true wherever x lies in its box.
pub fn always_on()
    ensures three { OneStep tolerance always (whole 3 ∷ []) [] (whole 1 ∷ []) (whole 3 ∷ []) [] }
    ensures everywhere { IsOnInEachStep always }
{}

//! Steps that leave a box, and a demand that breaks.

ghost use Rattle.std.specs.Prelude.{[], ◌∷◌};
ghost use Rattle.hys_number.specs.Ops.{whole};
ghost use Rattle.hys_meaning.specs.Steps.{Stuck};
ghost use Rattle.hys_meaning.specs.Accepted.{Accepted};
ghost use Rattle.hys_examples.specs.Sources.{summed, demanding, tolerance};
ghost use Rattle.hys_examples.specs.OneStep.{OneStep, RunsTo};

/// A next state may lie outside its box, and no step is legal from there.
pub fn at_the_end_of_a_box()
    ensures accepted { Accepted summed }
    ensures leaves { OneStep tolerance summed (whole 10 ∷ []) (whole 1 ∷ []) [] (whole 11 ∷ []) [] }
    ensures outside { Stuck tolerance summed (whole 11 ∷ []) (whole 0 ∷ []) }
{}

/// A demand is judged on the state that a step begins with.
pub fn a_broken_demand()
    ensures accepted { Accepted demanding }
    ensures first { OneStep tolerance demanding (whole 4 ∷ []) (whole 1 ∷ []) [] (whole 5 ∷ []) [] }
    ensures second { OneStep tolerance demanding (whole 5 ∷ []) (whole 1 ∷ []) [] (whole 6 ∷ []) [] }
    ensures broken { Stuck tolerance demanding (whole 6 ∷ []) (whole 1 ∷ []) }
    ensures run { RunsTo tolerance demanding (whole 4 ∷ []) ((whole 1 ∷ []) ∷ (whole 1 ∷ []) ∷ []) (whole 6 ∷ []) }
{}

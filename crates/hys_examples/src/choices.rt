//! A choice without ELSE, and a thermostat.

ghost use Rattle.std.specs.Prelude.{[], ◌∷◌};
ghost use Rattle.hys_number.specs.Ops.{whole};
ghost use Rattle.hys_meaning.specs.Accepted.{Accepted};
ghost use Rattle.hys_examples.specs.Sources.{choosing, thermostat, tolerance};
ghost use Rattle.hys_examples.specs.OneStep.{OneStep, RunsTo};
ghost use Rattle.hys_examples.specs.Worked.{cool_and_on, warm_and_on, warm_and_off, fair_and_heated, hot_and_heated};

/// `z = { IF a <-> ~b THEN 2*x }` is 2*x where the condition holds, and else 0.
pub fn without_else()
    ensures accepted { Accepted choosing }
    ensures holds { OneStep tolerance choosing (whole 3 ∷ []) (whole 1 ∷ whole 0 ∷ []) (whole 6 ∷ []) (whole 3 ∷
        []) [] }
    ensures fails { OneStep tolerance choosing (whole 3 ∷ []) (whole 1 ∷ whole 1 ∷ []) (whole 0 ∷ []) (whole 3 ∷
        []) [] }
{}

/// A thermostat that is on heats from 20 to 22, and is then switched off.
pub fn a_thermostat()
    ensures accepted { Accepted thermostat }
    ensures first { OneStep tolerance thermostat cool_and_on (whole 0 ∷ []) fair_and_heated warm_and_on (whole 20 ∷ []) }
    ensures second { OneStep tolerance thermostat warm_and_on (whole 0 ∷ []) hot_and_heated warm_and_off (whole 22 ∷ []) }
    ensures run { RunsTo tolerance thermostat cool_and_on ((whole 0 ∷ []) ∷ (whole 0 ∷ []) ∷ []) warm_and_off }
{}

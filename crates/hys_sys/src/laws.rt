//! Laws of exactness, as calls that do nothing.

ghost use Rattle.hys_sys.specs.Exact.{Steps, Exact, AreSameSteps, IsExactAlike};
ghost use Rattle.hys_sys.specs.Sum.{sum_automaton, SumStep, sum_system};

/// A relation of legal steps, from a state with an input by an assignment to the names to the
/// next state and the outputs.
pub trait Stepping {
    ghost legal: { Steps };
}

/// A system that is exact for a relation of legal steps is exact for each relation with the same
/// steps.
pub fn exact_for_same_steps<A: Stepping, B: Stepping>()
    ensures { AreSameSteps A.legal B.legal → IsExactAlike A.legal B.legal }
{}

/// A system without rows of a state and an input is exact for the automaton whose next state is
/// their sum.
pub fn exact_sum()
    ensures { Exact sum_automaton SumStep sum_system }
{}

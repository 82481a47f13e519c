//! Systems that are exact for their sources, worked out by hand.

ghost use Rattle.hys_number.specs.Number.{Number};
ghost use Rattle.hys_sys.specs.System.{IsSystem};
ghost use Rattle.hys_compile.specs.Automaton.{IsExactFor};
ghost use Rattle.hys_examples.specs.Sources.{summed, casting, guarded, tolerance};
ghost use Rattle.hys_examples.specs.Systems.{casting_system, guarded_system, summed_system};

/// A state x and an input u, where the next x is their sum: a system without rows is exact for its
/// source at every tolerance.
pub fn of_a_sum()
    ensures system { IsSystem summed_system }
    ensures exact { (t : Number) → IsExactFor t summed summed_system }
{}

/// Two switches that are weighed by 3 and 2, of at most 4 together: a system with one row is exact
/// for its source at every tolerance.
pub fn of_two_switches()
    ensures system { IsSystem casting_system }
    ensures exact { (t : Number) → IsExactFor t casting casting_system }
{}

/// A guard `d = x >= 5` over a box of 0 to 10: a system with two rows is exact for its source at
/// the tolerance 1/1000.
pub fn of_a_guard()
    ensures system { IsSystem guarded_system }
    ensures exact { IsExactFor tolerance guarded guarded_system }
{}

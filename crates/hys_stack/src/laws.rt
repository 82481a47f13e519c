//! Laws of stacked problems, as calls that do nothing.

ghost use Rattle.hys_sys.specs.Exact.{Automaton};
ghost use Rattle.hys_relax.specs.Worked.{worked};
ghost use Rattle.hys_stack.specs.Stacking.{IsStacked};
ghost use Rattle.hys_stack.specs.Worked.{worked_system, worked_request};
ghost use Rattle.hys_stack.specs.Laws.{SolutionsAreTrajectories, LeastIsCheapest, BoundBounds, NoneIsNone, NoneIsBoth, StandForOne};

use hys_sys::laws::Stepping;

/// Of a system that is exact for a relation of legal steps, which keep Boolean states 0 or 1, the
/// solutions of the stacked problem stand one to one for the trajectories, with the same costs.
pub fn solutions_are_trajectories<A: Stepping>()
    ensures { (automaton : Automaton) → SolutionsAreTrajectories automaton A.legal }
{}

/// A solution of least cost stands for a trajectory than which none is cheaper.
pub fn least_is_cheapest<A: Stepping>()
    ensures { (automaton : Automaton) → LeastIsCheapest automaton A.legal }
{}

/// What no solution costs less than, no trajectory does.
pub fn bounds_hold<A: Stepping>()
    ensures { (automaton : Automaton) → BoundBounds automaton A.legal }
{}

/// Without a solution there is no trajectory.
pub fn none_is_none<A: Stepping>()
    ensures { (automaton : Automaton) → NoneIsNone automaton A.legal }
{}

/// A worked problem is the stacked one of its system and its request.
pub fn worked_problem()
    ensures { IsStacked worked_system worked_request worked }
{}

/// A text that stands for a request for a system has no cause to be refused.
pub fn not_both()
    ensures { NoneIsBoth }
{}

/// A text stands for at most one request for a system.
pub fn one_request()
    ensures { StandForOne }
{}

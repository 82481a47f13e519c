//! What holds of programs, as calls that do nothing.

ghost use Rattle.std.specs.Prelude.{◌≡◌, ◌<◌, [], ◌∷◌, List, IsTrue, None, Some, ℕ, ◌↔◌};
ghost use Rattle.hys_number.specs.Number.{Number};
ghost use Rattle.hys_number.specs.Ops.{whole, ◌<ₙ◌};
ghost use Rattle.hys_prog.specs.Programs.{IsProgram};
ghost use Rattle.hys_prog.specs.Orders.{IsOrder};
ghost use Rattle.hys_prog.specs.Exactness.{HasAssignments, HasOneAssignment, HasOneStep, IsLegalExactly, PassesExactly, PassesWhereLegal, StepsAsGiven};
ghost use Rattle.hys_prog.specs.Fitting.{IsFirstStop, NothingStops};
ghost use Rattle.hys_prog.specs.Stops.{Check, IsLawful, IsValued, demand_checks, first_stop, in_box, no_gap, number_in, stops};
ghost use Rattle.hys_lin.specs.Sums.{Assignment};
ghost use Rattle.hys_prog.specs.Steps.{DemandOf, InBox};
ghost use Rattle.hys_prog.specs.declared.program.Body.{Body};
ghost use Rattle.hys_prog.specs.declared.program.Name.{Name};
ghost use Rattle.hys_prog.specs.declared.program.Program.{Program};
ghost use Rattle.hys_prog.specs.declared.program.Order.{Order};
ghost use Rattle.hys_prog.specs.declared.stop.Stop.TheVariants.{Bounds, Gap, Must, Range};
ghost use Rattle.hys_prog.specs.Example.{example, crossed as two_auxiliaries};
ghost use Rattle.hys_prog.specs.Guarded.{at_tolerance, both, d_first, demanding, guarded, in_gap, least, five_less_least};

/// The program of one state x that keeps its value is a lawful program.
pub fn smallest()
    ensures { IsProgram example }
{}

/// The program of two auxiliaries is a lawful program, whichever name the second one mentions.
pub fn crossed()
    ensures { (c : ℕ) → c < 3 → IsProgram (two_auxiliaries c) }
{}

/// Where there is an order of definition, each choice of the states' and the inputs' values has an
/// assignment of exact numbers. Two of them agree on all names that aren't outputs, and their steps
/// on the next values and the outputs.
pub fn one_assignment()
    ensures exists { (p : Program) (o : Order) → IsProgram p → IsOrder p o → HasAssignments p }
    ensures same { (p : Program) (o : Order) → IsProgram p → IsOrder p o → HasOneAssignment p }
    ensures step { (p : Program) (o : Order) → IsProgram p → IsOrder p o → HasOneStep p }
{}

/// No check fails exactly where those of boxes, gaps and demands pass and all numbers fit. The
/// former do exactly where the assignment is a legal step with the next values and the outputs that
/// the items give; every legal step has these.
pub fn no_stop_is_legal()
    ensures none { (cs : List Check) → PassesExactly cs }
    ensures legal { (p : Program) (o : Order) → IsProgram p → IsOrder p o → IsLegalExactly p o }
    ensures passes { (p : Program) (o : Order) → IsProgram p → PassesWhereLegal p o }
    ensures step { (p : Program) → IsProgram p → StepsAsGiven p }
{}

/// Nothing stops a step exactly where there is a legal one all of whose partial values fit, whatever
/// assignment the checks are read over.
pub fn nothing_stops()
    ensures { (p : Program) (o : Order) → IsProgram p → IsOrder p o → NothingStops p o }
{}

/// The first stop is that of the check that fails where all before it pass; there is none exactly
/// where all pass.
pub fn first_stops()
    ensures { (cs : List Check) → IsFirstStop cs }
{}

/// The checks are those of a legal step: a name's passes exactly where the number is in its box, a
/// guard's exactly where its number isn't in the gap, and a demand's exactly where it holds, numbers
/// that don't fit aside.
pub fn checks_mean()
    ensures boxed { (k : Name) (a : Number) → IsTrue (in_box k a) ↔ InBox k a }
    ensures gap { (k : ℕ) (e g : Number) → IsLawful (no_gap k e g) ↔ ¬ ((whole 0 <ₙ g) × (g <ₙ e)) }
    ensures demand { (w : Assignment) (k : ℕ) (b : Body) → IsLawful (demand_checks w k b) ↔ DemandOf w b }
{}

/// The guard program is lawful and has an order. Its first stop and its auxiliary at the edge of
/// the guard, in the gap, at the tolerance, outside the box, and where a partial sum doesn't fit.
pub fn guard_stops()
    ensures program { IsProgram guarded }
    ensures order { IsOrder guarded d_first }
    ensures valued { IsValued guarded (whole 5 ∷ []) [] (both (whole 5) (whole 1)) }
    ensures edge { first_stop (stops guarded d_first (both (whole 5) (whole 1))) ≡ None }
    ensures edge_value { number_in (both (whole 5) (whole 1)) 1 guarded.items ≡ whole 1 }
    ensures gap { first_stop (stops guarded d_first (both in_gap (whole 0))) ≡ Some (Gap 0) }
    ensures tolerance { first_stop (stops guarded d_first (both at_tolerance (whole 0))) ≡ None }
    ensures tolerance_value { number_in (both at_tolerance (whole 0)) 1 guarded.items ≡ whole 0 }
    ensures outside { first_stop (stops guarded d_first (both (whole 11) (whole 1))) ≡ Some (Bounds 0) }
    ensures range { first_stop (stops guarded d_first (both least (whole 0))) ≡ Some (Range 0 five_less_least) }
{}

/// With a demand that stands first in the source the gap comes before it all the same; a demand
/// that doesn't hold stops the step.
pub fn demand_stops()
    ensures holds { first_stop (stops demanding d_first (both (whole 5) (whole 1))) ≡ None }
    ensures gap { first_stop (stops demanding d_first (both in_gap (whole 0))) ≡ Some (Gap 1) }
    ensures demand { first_stop (stops demanding d_first (both at_tolerance (whole 0))) ≡ Some (Must 0) }
{}

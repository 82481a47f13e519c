//! Laws of the ruled dual simplex method with bounds, as calls that do nothing.

ghost use Rattle.hys_simplex.specs.Laws.{PivotKeeps, PathReaches, RuledReaches, OneRuled};
ghost use Rattle.hys_simplex.specs.Laws.{CostRow, RuledRises, RuledIsLawful, BoundAfterPath};
ghost use Rattle.hys_simplex.specs.Laws.{PathBelow, PathGoesOn, NoStatusTwice, RunEnds};
ghost use Rattle.hys_simplex.specs.Laws.{BlockedRow, AllInsideIsLeast, LostIsUnfit, WorkedPaths};
ghost use Rattle.hys_simplex.specs.Laws.{StrandedShowsNone, UnfitIsRuled, UpwardPath, WorkedUnfit, EquationSlack};
ghost use Rattle.hys_simplex.specs.Laws.{AlikePivots, AlikeSay};

/// A pivot keeps the solutions of the rows, in both directions.
pub fn pivot_keeps()
    ensures { PivotKeeps }
{}

/// A ruled path pivots at cells that are not 0, and reaches a tableau of the problem whose raised
/// multipliers are lawful.
pub fn path_reaches()
    ensures { PathReaches }
{}

/// A pivot of the rule keeps that a tableau is the problem's and that its raised multipliers are
/// lawful.
pub fn ruled_reaches()
    ensures { RuledReaches }
{}

/// The rule picks at most one pivot: no two columns that may enter have the same raised ratio.
pub fn one_ruled()
    ensures { OneRuled }
{}

/// The multipliers that are read off the cost row are lawful, and their bound is the cost of the
/// status.
pub fn cost_row()
    ensures { CostRow }
{}

/// A pivot of the rule raises the raised bound strictly, and doesn't lower the bound.
pub fn ruled_rises()
    ensures { RuledRises }
{}

/// A ruled path is lawful: the cost row's multipliers are lawful all along, each row that leaves is
/// outside its range, and no pivot lowers the bound.
pub fn ruled_is_lawful()
    ensures { RuledIsLawful }
{}

/// After a ruled path at a node the bound of the cost row's multipliers there is at least the plain
/// bound.
pub fn bound_after_path()
    ensures { BoundAfterPath }
{}

/// A ruled path at a node is a ruled path at each node below.
pub fn path_below()
    ensures { PathBelow }
{}

/// A ruled path at a node goes on by pivots of the rule over the node's boxes.
pub fn path_goes_on()
    ensures { PathGoesOn }
{}

/// Among pivots of the rule over the same boxes no status comes twice.
pub fn no_status_twice()
    ensures { NoStatusTwice }
{}

/// There are fewer pivots of the rule over the same boxes than statuses.
pub fn run_ends()
    ensures { RunEnds }
{}

/// Where no column may enter, the multipliers of the leaving row are lawful, their bound with cost 0
/// is above 0, and no values of the other variables bring the row's to its range.
pub fn blocked_row()
    ensures { BlockedRow }
{}

/// Where every basic value is inside its range, the point of the status is a relaxed point of least
/// cost, and its cost is the bound of the cost row's multipliers.
pub fn all_inside_is_least()
    ensures { AllInsideIsLeast }
{}

/// A row whose basic value can't be brought to its range shows that the node has no relaxed point.
pub fn stranded_shows_none()
    ensures { StrandedShowsNone }
{}

/// Which rows are inside their ranges where a number doesn't fit.
pub fn unfit_is_ruled()
    ensures { UnfitIsRuled }
{}

/// Tableaux that agree at their places do so after the same pivot.
pub fn alike_pivots()
    ensures { AlikePivots }
{}

/// Tableaux that agree at their places have the same statuses, pivots and numbers that don't fit.
pub fn alike_say()
    ensures { AlikeSay }
{}

/// What a sum shows as lost is one of its operations that doesn't fit.
pub fn lost_is_unfit()
    ensures { LostIsUnfit }
{}

/// The ruled paths of a worked problem at its root and at the two nodes below.
pub fn worked_paths()
    ensures { WorkedPaths }
{}

/// A path that goes back up to the boxes of a node above is not ruled, and why it must not be.
pub fn upward_path()
    ensures { UpwardPath }
{}

/// Numbers of worked problems that don't fit, and that do.
pub fn worked_unfit()
    ensures { WorkedUnfit }
{}

/// The slack of an equation never enters, though its ratio is the least.
pub fn equation_slack()
    ensures { EquationSlack }
{}

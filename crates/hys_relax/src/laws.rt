//! Laws of nodes and bounds, as calls that do nothing.

ghost use Rattle.hys_relax.specs.Laws.{BoundIsLeast, WeakDuality, NoRelaxedPoint, BoundOfPrefix};
ghost use Rattle.hys_relax.specs.Laws.{PlainBound, SolutionRelaxes, SumIsBound, WorkedBounds};
ghost use Rattle.hys_relax.specs.Laws.{ChildIsNode, ChildrenCover, PointAbove, BranchWithin};
ghost use Rattle.hys_relax.specs.Laws.{PointSolves, ZerosLoseNothing};

/// The bound of multipliers at a node is the least value, over the node's boxes, of the cost plus
/// the sum over the rows of multiplier times (sum minus bound).
pub fn bound_is_least()
    ensures { BoundIsLeast }
{}

/// Weak duality: no relaxed point of a node costs less than the bound of lawful multipliers.
pub fn weak_duality()
    ensures { WeakDuality }
{}

/// The easy half of Farkas' lemma: where the bound of lawful multipliers with cost 0 is above 0,
/// the node has no relaxed point.
pub fn no_relaxed_point()
    ensures { NoRelaxedPoint }
{}

/// A bound at a node above is at most the bound at the node.
pub fn bound_of_prefix()
    ensures { BoundOfPrefix }
{}

/// No solution costs less than the plain bound.
pub fn plain_bound()
    ensures { PlainBound }
{}

/// A solution that agrees with the fixings of a node is a relaxed point of the node.
pub fn solution_relaxes()
    ensures { SolutionRelaxes }
{}

/// The operations of a bound's sum come to the bound.
pub fn sum_is_bound()
    ensures { SumIsBound }
{}

/// A node with one more branch column fixed is a node.
pub fn child_is_node()
    ensures { ChildIsNode }
{}

/// A solution at a node is one at one of its two children.
pub fn children_cover()
    ensures { ChildrenCover }
{}

/// A relaxed point of a node is one of each node above.
pub fn point_above()
    ensures { PointAbove }
{}

/// In a relaxed point the branch columns lie between 0 and 1, and the fixed ones are 0 or 1.
pub fn branch_within()
    ensures { BranchWithin }
{}

/// A relaxed point whose branch columns are 0 or 1 is a solution.
pub fn point_solves()
    ensures { PointSolves }
{}

/// A sum of terms loses the same operation without the terms whose number is 0.
pub fn zeros_lose_nothing()
    ensures { ZerosLoseNothing }
{}

/// The bounds of a worked problem.
pub fn worked_bounds()
    ensures { WorkedBounds }
{}

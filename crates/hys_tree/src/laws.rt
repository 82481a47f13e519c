//! What trees that show a claim mean, as calls that do nothing.

ghost use Rattle.std.specs.Prelude.{List};
ghost use Rattle.hys_tree.specs.Laws.{LeastIsLeast, NoneIsThere, BoundHolds, OneTree, WorkedTree};

/// Where a tree shows a claim of least cost, no solution of the problem costs less, whatever fractions its numbers
/// are; under a claim that none exists there is none; under a bound each costs at least the bound.
pub fn shown_claims()
    ensures least { LeastIsLeast }
    ensures none { NoneIsThere }
    ensures at_least { BoundHolds }
{}

/// A list of places is the preorder of at most one tree.
pub fn one_tree()
    ensures { OneTree }
{}

/// The tree of a worked problem shows its least cost, and all numbers of its sums fit.
pub fn worked_tree()
    ensures { WorkedTree }
{}

use crate::tree::Tree;
use hys_frac::Frac;
use hys_lin::Point;
use hys_relax::RangeAt;

/// A solution of a problem, and its cost.
#[derive(Clone, Debug, PartialEq, Eq, Drop)]
pub struct Best {
    pub point: Point,
    pub cost: Frac,
}

/// Why a search ended before its end.
#[derive(Clone, Debug, PartialEq, Eq, Drop)]
pub enum Why {
    /// So many nodes were expanded, as many as were allowed.
    Spent(u32),
    /// At the leaf that stands at this place of the tree a number doesn't fit.
    Range { node: u32, at: RangeAt },
}

/// What is said of a problem.
#[derive(Clone, Debug, PartialEq, Eq, Drop)]
pub enum Claim {
    /// A solution than which none costs less.
    Least(Best),
    /// The problem has no solution.
    NoneExists,
    /// No solution costs less than the bound; the best solution that was found.
    AtLeast {
        bound: Frac,
        best: Option<Best>,
        why: Why,
    },
}

/// A claim with the tree that shows it, and the number of nodes that were expanded for it.
#[derive(Clone, Debug, PartialEq, Eq, Drop)]
pub struct Answer {
    pub claim: Claim,
    pub tree: Tree,
    pub expanded: u32,
}

use hys_lin::Point;
use hys_relax::{Multipliers, TablePlace};

/// How the pivots at a node end.
#[derive(Debug, Drop)]
pub enum Finish {
    /// Every basic value is inside its range: the point of the status, and the multipliers of the cost row.
    Least {
        point: Point,
        multipliers: Multipliers,
    },
    /// No column may enter: the multipliers of the row that leaves.
    Never {
        multipliers: Multipliers,
    },
    /// The place of a number that doesn't fit.
    Stuck(TablePlace),
}

/// What the rule does with a tableau: the row and the column of its pivot, or the end.
#[derive(Debug, Drop)]
pub enum Choice {
    Pivot(u32, u32),
    Done(Finish),
}

/// The point of a status, or the first row whose basic value doesn't fit.
#[derive(Debug, Drop)]
pub enum Pointed {
    At(Point),
    Unfit(u32),
}

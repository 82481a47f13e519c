use hys_frac::List;

/// A variable of a tableau: a column of the problem, or the slack of a row.
#[derive(Clone, Copy, Debug, PartialEq, Eq)]
pub enum Var {
    Column(u32),
    Slack(u32),
}

/// A number of a tableau: the new number of a cell under the next pivot, the basic value of a row,
/// or the bound of its multipliers. The row after those of the problem is the cost's, the column
/// after those of the problem that of the constants.
#[derive(Clone, Copy, Debug, PartialEq, Eq)]
pub enum TablePlace {
    Cell { row: u32, col: u32 },
    Value { row: u32 },
    Sum,
}

/// The number that didn't fit, after the pivots of the path. A pivot is its row and its column.
#[derive(Clone, Debug, PartialEq, Eq, Drop)]
pub struct RangeAt {
    pub path: List<(u32, u32)>,
    pub at: TablePlace,
}

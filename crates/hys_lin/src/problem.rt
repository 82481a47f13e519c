use crate::form::{Affine, Interval, Row};
use hys_base::List;

/// A linear problem: a box for each column, rows, a cost to be made least, and the columns with
/// box 0 to 1 that have to be 0 or 1, in strictly rising order. Each column that the rows, the
/// cost or `branch` name is below the number of boxes.
#[derive(Clone, Debug, PartialEq, Eq, Drop)]
pub struct Problem {
    pub boxes: List<Interval>,
    pub rows: List<Row>,
    pub cost: Affine,
    pub branch: List<u32>,
}

use hys_frac::{Frac, List};

/// A column with its factor. In a list of terms the columns rise strictly and no factor is 0.
#[derive(Clone, Copy, Debug, PartialEq, Eq)]
pub struct Term {
    pub column: u32,
    pub factor: Frac,
}

/// The sum of the terms and a constant.
#[derive(Clone, Debug, PartialEq, Eq, Drop)]
pub struct Affine {
    pub terms: List<Term>,
    pub constant: Frac,
}

/// A row says that the sum of its terms is at most the bound, or equals it where `eq`.
#[derive(Clone, Debug, PartialEq, Eq, Drop)]
pub struct Row {
    pub terms: List<Term>,
    pub bound: Frac,
    pub eq: bool,
}

/// A number for each column, in the order of the columns.
#[derive(Clone, Debug, PartialEq, Eq, Drop)]
pub struct Point {
    pub values: List<Frac>,
}

/// The numbers from `low` to `high`, both ends included; `low` is at most `high`.
#[derive(Clone, Copy, Debug, PartialEq, Eq)]
pub struct Interval {
    pub low: Frac,
    pub high: Frac,
}

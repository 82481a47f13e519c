use hys_frac::Frac;
use hys_lin::Lost;

/// Where a test failed.
#[derive(Clone, Copy, Debug, PartialEq, Eq)]
pub enum At {
    /// At the place of the tree with this number, counted from 0; the number past the last place
    /// where the tree ends early.
    Node(u32),
    /// At the point of the claim, or at its best.
    Claim,
}

/// Why a test failed.
#[derive(Clone, Copy, Debug, PartialEq, Eq)]
pub enum CheckWhy {
    /// An inner place names no branch column, or one that is fixed on its path; a leaf's depth is over
    /// its path's length, a row of it isn't there, or it bounds a cost where no solution is claimed;
    /// the tree ends early, or a place is left over.
    Shape,
    /// A multiplier on a row that is no equation is below 0.
    Sign,
    /// The first number, a leaf's bound, is below the claimed cost or bound; or at a leaf without a
    /// point it isn't above 0, which is then the second number.
    Below(Frac, Frac),
    /// The point has a wrong length, is no solution or hasn't the stated cost, or the best is below
    /// the bound.
    Point,
    /// The operation on two numbers whose outcome doesn't fit.
    Range(Lost),
}

/// The first test that fails, or Yes where none does.
#[derive(Clone, Copy, Debug, PartialEq, Eq)]
pub enum Verdict {
    Yes,
    No(At, CheckWhy),
}

/// How a run ended.
#[derive(Clone, Copy, Debug, PartialEq, Eq)]
pub enum Status {
    /// All was done.
    Done = 0,
    /// No trajectory exists, or a check says no.
    NoTrajectory = 1,
    /// The words match no form.
    Usage = 2,
    /// A read failed.
    Read = 3,
    /// A put or a write failed.
    Write = 4,
    /// The source is refused.
    Source = 5,
    /// Another file is refused.
    Input = 6,
    /// A step isn't legal.
    Stopped = 7,
    /// The nodes of a plan are spent.
    Spent = 8,
    /// A number doesn't fit.
    Range = 9,
    /// Memory was wanting.
    Memory = 10,
}

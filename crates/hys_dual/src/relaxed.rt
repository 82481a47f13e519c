use hys_lin::Point;
use hys_relax::{Multipliers, RangeAt};

/// What is known of the relaxed points of a node.
#[derive(Clone, Debug, PartialEq, Eq, Drop)]
pub enum Relaxed {
    /// A relaxed point of least cost, and multipliers whose bound is that cost.
    Least {
        point: Point,
        multipliers: Multipliers,
    },
    /// Multipliers that show that there is no relaxed point.
    Never {
        multipliers: Multipliers,
    },
    /// A number that doesn't fit, and multipliers whose bound is at least the plain bound.
    Stuck {
        at: RangeAt,
        multipliers: Multipliers,
    },
}

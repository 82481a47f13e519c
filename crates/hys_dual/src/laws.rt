//! Laws of answers and of tableaux that are kept, as calls that do nothing.

ghost use Rattle.hys_dual.specs.Laws.{WarmBelow, ReadMultipliers, LeastAbove};

/// A tableau that was reached at a node serves each node below.
pub fn warm_below()
    ensures { WarmBelow }
{}

/// The multipliers that are read off a tableau of a problem are the multipliers of its cost row.
pub fn read_multipliers()
    ensures { ReadMultipliers }
{}

/// The bound of the multipliers of a least point at its node is at least the plain bound.
pub fn least_above()
    ensures { LeastAbove }
{}

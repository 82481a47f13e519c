use hys_dual::Warm;
use hys_frac::Frac;
use hys_lin::Problem;
use hys_relax::{Fixing, Multipliers, RangeAt};
use hys_tree::Best;

/// What became of a node.
#[derive(Clone, Copy, Debug, PartialEq, Eq)]
pub enum Standing {
    Waits,
    /// Two children stand one after the other from the place on, the one with the column at 0 first.
    Inner(u32, usize),
    /// It has no relaxed point.
    Never,
    /// Its bound isn't below the best cost.
    Closed,
    /// A number didn't fit and every branch column is fixed; the place of the fault.
    Kept(usize),
}

/// A node: the place of its parent, what it fixes below it, and the place of its certificate.
#[derive(Clone, Copy, Debug, PartialEq, Eq)]
pub struct Node {
    pub parent: usize,
    pub fixing: Fixing,
    pub held: usize,
    pub standing: Standing,
}

/// Multipliers, how many fixings of the path their boxes have, and their bound there.
#[derive(Debug, Drop)]
pub struct Certificate {
    pub multipliers: Multipliers,
    pub depth: u32,
    pub bound: Frac,
}

/// A waiting node: the length of its path from the root, and a lower bound on the costs below it.
#[derive(Clone, Copy, Debug, PartialEq, Eq)]
pub struct Waiting {
    pub depth: u32,
    pub bound: Frac,
}

/// The lists of a search.
#[derive(Debug, Drop)]
pub struct Table {
    pub problem: Problem,
    pub limit: u32,
    pub nodes: Vec<Node>,
    pub certificates: Vec<Certificate>,
    pub faults: Vec<RangeAt>,
    pub queue: Vec<usize>,
    pub waiting: Vec<Waiting>,
    pub expanded: u32,
    pub found: Option<Best>,
    pub warm: Warm,
    pub warm_at: usize,
}

use hys_frac::{Frac, List};

/// Which waiting node a search works on next: the one of least bound, or the deepest.
#[derive(Clone, Copy, Debug, PartialEq, Eq)]
pub enum Pick {
    Bound,
    Depth,
}

/// What is asked of a planner, for a system.
///
/// From the numbers of `start`, one for each state, `horizon` steps are taken, of least cost. The
/// cost is the sum, over the steps, of `step_cost` times the columns and `output_cost` times the
/// outputs, and of `final_cost` times the states after the last step. A search expands at most
/// `nodes` nodes.
#[derive(Clone, Debug, PartialEq, Eq, Drop)]
pub struct Request {
    pub horizon: u32,
    pub start: List<Frac>,
    pub step_cost: List<Frac>,
    pub output_cost: List<Frac>,
    pub final_cost: List<Frac>,
    pub nodes: u32,
    pub pick: Pick,
}

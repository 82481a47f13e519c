ghost use Rattle.std.specs.Prelude.{◌<◌, ◌+◌, length};
ghost use Rattle.hys_search.specs.Picks.{IsLeastOf, IsDeepestOf};

use crate::columns::is_at_most;
use crate::nodes::Waiting;

/// Picks the waiting node to be worked on next.
pub trait Picker {
    /// A place of the list, which isn't empty.
    fn pick(&mut self, waiting: &[Waiting]) -> usize
        requires { 0 < length waiting.now }
        ensures { result < length waiting.now };
}

/// The first waiting node of least bound.
#[derive(Clone, Copy, Debug, PartialEq, Eq)]
pub struct BestBound;

/// The last waiting node of greatest depth.
#[derive(Clone, Copy, Debug, PartialEq, Eq)]
pub struct DepthFirst;

impl Picker for BestBound {
    fn pick(&mut self, waiting: &[Waiting]) -> usize
        requires { 0 < length waiting.now }
        ensures there { result < length waiting.now }
        ensures least { IsLeastOf waiting.now (length waiting.now) result }
    {
        let mut best = 0;
        for i in 1..waiting.len() {
            best = better(waiting, i, best);
        }
        best
    }
}

// The better of two places.
fn better(waiting: &[Waiting], i: usize, best: usize) -> usize
    requires there { i < length waiting.now }
    requires least { IsLeastOf waiting.now i best }
    ensures { IsLeastOf waiting.now (i + 1) result }
{
    if is_at_most(waiting[best].bound, waiting[i].bound) {
        best
    } else {
        i
    }
}

impl Picker for DepthFirst {
    fn pick(&mut self, waiting: &[Waiting]) -> usize
        requires { 0 < length waiting.now }
        ensures there { result < length waiting.now }
        ensures deepest { IsDeepestOf waiting.now (length waiting.now) result }
    {
        let mut deepest = 0;
        for i in 1..waiting.len() {
            deepest = deeper(waiting, i, deepest);
        }
        deepest
    }
}

// The deeper of two places, the later of equals.
fn deeper(waiting: &[Waiting], i: usize, deepest: usize) -> usize
    requires there { i < length waiting.now }
    requires deepest { IsDeepestOf waiting.now i deepest }
    ensures { IsDeepestOf waiting.now (i + 1) result }
{
    if waiting[deepest].depth <= waiting[i].depth {
        i
    } else {
        deepest
    }
}

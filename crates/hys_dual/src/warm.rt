ghost use Rattle.std.specs.Prelude.{◌≡◌, List, [], IfOk};
ghost use Rattle.hys_lin.specs.Problem.{IsProblem};
ghost use Rattle.hys_relax.specs.declared.fixing.Fixing.{Fixing};
ghost use Rattle.hys_dual.specs.Relaxing.{IsWarm};

use hys_frac::List;
use hys_lin::Problem;
use hys_tab::{Tableau, start};
use std::alloc::{AllocError, Global};

/// A tableau of a problem, with the pivots by which it was reached from the slack basis.
#[derive(Debug, Drop)]
pub struct Warm {
    pub tableau: Tableau,
    pub path: List<(u32, u32)>,
}

impl Warm {
    /// The tableau after the path.
    pub fn tableau(&self) -> &Tableau
        ensures { result.now ≡ self.now.tableau }
    {
        &self.tableau
    }

    /// The pivots from the slack basis on, each its row and its column.
    pub fn path(&self) -> &[(u32, u32)]
        ensures { result.now ≡ self.now.path }
    {
        self.path.items()
    }
}

/// The tableau of the slack basis, with which every node can begin.
pub fn first(alloc: Global, problem: &Problem) -> Result<Warm, AllocError>
    requires { IsProblem problem.now }
    ensures path { IfOk result (λ w. w.path ≡ []) }
    ensures warm { IfOk result (λ w. (fixings : List Fixing) → IsWarm problem.now fixings w) }
{
    let tableau = start(alloc, problem)?;
    Ok(Warm {
        tableau,
        path: List::of(Vec::new(alloc)),
    })
}

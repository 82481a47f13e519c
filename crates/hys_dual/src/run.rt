ghost use Rattle.std.specs.Prelude.{◌≡◌, ℕ, length, IfOk};
ghost use Rattle.hys_lin.specs.Problem.{IsProblem};
ghost use Rattle.hys_lin.specs.Ranges.{box_at};
ghost use Rattle.hys_relax.specs.Node.{node_boxes as node_boxes_of};
ghost use Rattle.hys_dual.specs.Choosing.{IsFinishAfter};
ghost use Rattle.hys_dual.specs.Relaxing.{IsWarmAt, GoesOn};

use crate::choice::choose;
use crate::finish::{Choice, Finish};
use hys_lin::{Interval, Problem};
use hys_relax::{Fixing, TablePlace};
use hys_tab::Tableau;
use std::alloc::{AllocError, Global};

/// Pivots by the rule over the boxes of a node until the end, and appends each pivot to the path.
pub fn run(
    alloc: Global,
    problem: &Problem,
    fixings: &[Fixing],
    boxes: &[Interval],
    tableau: &mut Tableau,
    path: &mut Vec<(u32, u32)>,
) -> Result<Finish, AllocError>
    requires problem { IsProblem problem.now }
    requires boxes { length boxes.now ≡ length problem.now.boxes }
    requires each { (j : ℕ) → box_at boxes.now j ≡ node_boxes_of problem.now fixings.now j }
    requires warm { IsWarmAt problem.now fixings.now tableau.old path.old.items }
    ensures path { IfOk result (λ _. GoesOn problem.now fixings.now path.old.items path.new.items) }
    ensures warm { IfOk result (λ _. IsWarmAt problem.now fixings.now tableau.new path.new.items) }
    ensures finish { IfOk result (λ f. IsFinishAfter problem.now fixings.now path.new.items f) }
{
    loop {
        match choose(alloc, problem, boxes, tableau)? {
            Choice::Done(finish) => return Ok(finish),
            Choice::Pivot(row, column) => match tableau.pivot(row, column) {
                Ok(()) => path.push((row, column))?,
                Err(cell) => {
                    return Ok(Finish::Stuck(TablePlace::Cell {
                        row: cell.row,
                        col: cell.col,
                    }));
                }
            },
        }
    }
}

ghost use Rattle.std.specs.Prelude.{◌≡◌, ◌+◌, ◌<◌, ◌≤◌, length, IfOk, IfErr, IfSome, IsNone};
ghost use Rattle.hys_number.specs.Ops.{fits};
ghost use Rattle.hys_lin.specs.Problem.{IsProblem};
ghost use Rattle.hys_lin.specs.Ranges.{box_at};
ghost use Rattle.hys_lin.specs.Sums.{at};
ghost use Rattle.hys_relax.specs.LinearProgram.{linear_program};
ghost use Rattle.hys_simplex.specs.Tableau.{IsOf};
ghost use Rattle.hys_simplex.specs.Unfit.{SomeUnfit, point_operations};
ghost use Rattle.hys_tab.specs.Table.{tableau_of};
ghost use Rattle.hys_dual.specs.Choosing.{IsPointed};
ghost use Rattle.hys_dual.specs.Relaxing.{PointFits};
ghost use Rattle.hys_dual.specs.Standing.{AllStand};
ghost use Rattle.hys_dual.specs.Tables.{ends_in, status_value_in, IsRowUnfitIn};

use crate::end::End;
use crate::finish::Pointed;
use crate::off_range::basic_value;
use crate::stand::Stand;
use hys_frac::{Frac, List};
use hys_lin::{Interval, Point, Problem, dot, value};
use hys_tab::Tableau;
use std::alloc::{AllocError, Global};

/// The point of the status, or the first row of a column whose basic value doesn't fit.
pub fn point(
    alloc: Global,
    problem: &Problem,
    boxes: &[Interval],
    tableau: &Tableau,
    stands: &[Stand],
    ends: &[End],
) -> Result<Pointed, AllocError>
    requires of { IsOf (linear_program problem.now) (tableau_of tableau.now) }
    requires boxes { length boxes.now ≡ length problem.now.boxes }
    requires stands { AllStand (tableau_of tableau.now) stands.now }
    requires long { length stands.now ≡ length tableau.now.outsides + length tableau.now.basics }
    requires ends { ends.now ≡ ends_in problem.now boxes.now tableau.now }
    ensures { IfOk result (λ q. IsPointed (linear_program problem.now) (box_at boxes.now) (tableau_of tableau.now) q) }
{
    let mut values = Vec::new(alloc);
    for column in 0..tableau.columns() {
        match status_value(problem, boxes, tableau, stands, ends, column) {
            Ok(value) => values.push(value)?,
            Err(row) => return Ok(Pointed::Unfit(row)),
        }
    }
    Ok(Pointed::At(Point {
        values: List::of(values),
    }))
}

// The value of a column in the status, or its row where its basic value doesn't fit.
fn status_value(
    problem: &Problem,
    boxes: &[Interval],
    tableau: &Tableau,
    stands: &[Stand],
    ends: &[End],
    column: usize,
) -> Result<Frac, u32>
    requires of { IsOf (linear_program problem.now) (tableau_of tableau.now) }
    requires boxes { length boxes.now ≡ length problem.now.boxes }
    requires stands { AllStand (tableau_of tableau.now) stands.now }
    requires long { length stands.now ≡ length tableau.now.outsides + length tableau.now.basics }
    requires ends { ends.now ≡ ends_in problem.now boxes.now tableau.now }
    requires column { column < length tableau.now.outsides }
    ensures value { IfOk result (λ x. x ≡ status_value_in problem.now boxes.now tableau.now column) }
    ensures unfit { IfErr result (λ i. IsRowUnfitIn problem.now boxes.now tableau.now i) }
{
    match stands[column] {
        Stand::Basic(row) => match basic_value(problem, boxes, tableau, ends, row) {
            Some(value) => Ok(value),
            None => Err(row),
        },
        Stand::Outside(place) => Ok(ends[place as usize].value),
    }
}

/// The first of so many rows whose sum at the point doesn't fit in a product or partial sum; the row
/// after them is that of the cost.
pub fn lost_row(problem: &Problem, rows: u32, point: &Point) -> Option<u32>
    requires problem { IsProblem problem.now }
    requires rows { rows ≡ length problem.now.rows }
    requires long { length point.now.values ≡ length problem.now.boxes }
    ensures none { IsNone result → PointFits problem.now point.now.values }
    ensures within { IfSome result (λ i. i ≤ length problem.now.rows) }
    ensures some { IfSome result (λ i. SomeUnfit fits (point_operations problem.now (at point.now.values) i)) }
{
    let all = problem.rows.items();
    for row in 0..rows {
        match dot(all[row as usize].terms.items(), point) {
            Ok(_) => {}
            Err(_) => return Some(row),
        }
    }
    match value(&problem.cost, point) {
        Ok(_) => None,
        Err(_) => Some(rows),
    }
}

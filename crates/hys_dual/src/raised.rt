ghost use Rattle.std.specs.Prelude.{◌≡◌, ◌+◌, ◌<◌, ◌≤◌, length, IfOk, if◌then◌else◌};
ghost use Rattle.hys_number.specs.Ops.{neg, whole};
ghost use Rattle.hys_relax.specs.LinearProgram.{linear_program};
ghost use Rattle.hys_simplex.specs.Tableau.{IsOf};
ghost use Rattle.hys_simplex.specs.Status.{raised, is_raised_above};
ghost use Rattle.hys_tab.specs.Table.{tableau_of};
ghost use Rattle.hys_dual.specs.Standing.{AllStand};
ghost use Rattle.hys_dual.specs.Tables.{ends_in};

use crate::end::End;
use crate::ranges::end_of;
use crate::stand::{Stand, outside_number};
use hys_frac::Frac;
use hys_lin::{Interval, Problem};
use hys_tab::Tableau;
use std::alloc::{AllocError, Global};

/// The raised cost cell of a column in a place: place 0 is that of the cost, then come the columns.
pub fn raised_cell(
    problem: &Problem,
    tableau: &Tableau,
    stands: &[Stand],
    column: u32,
    place: usize,
) -> Frac
    requires of { IsOf (linear_program problem.now) (tableau_of tableau.now) }
    requires stands { AllStand (tableau_of tableau.now) stands.now }
    requires long { length stands.now ≡ length tableau.now.outsides + length tableau.now.basics }
    requires column { column < length tableau.now.outsides }
    requires place { place ≤ length tableau.now.outsides }
    ensures { result ≡ raised (linear_program problem.now) (tableau_of tableau.now) column place }
{
    if place == 0 {
        return tableau.cell(tableau.rows() as u32, column);
    }
    match stands[place - 1] {
        Stand::Basic(row) => tableau.cell(row, column),
        Stand::Outside(other) => own(other == column),
    }
}

// The raised cost cell of a column in its own place, and in that of another outside the basis.
fn own(same: bool) -> Frac
    ensures { result ≡ (if same then neg (whole 1) else whole 0) }
{
    if same {
        Frac::whole(1).neg()
    } else {
        Frac::whole(0)
    }
}

/// Whether the raised cost cell of a column is above 0.
pub fn is_above(problem: &Problem, tableau: &Tableau, stands: &[Stand], column: u32) -> bool
    requires of { IsOf (linear_program problem.now) (tableau_of tableau.now) }
    requires stands { AllStand (tableau_of tableau.now) stands.now }
    requires long { length stands.now ≡ length tableau.now.outsides + length tableau.now.basics }
    requires column { column < length tableau.now.outsides }
    ensures { result ≡ is_raised_above (linear_program problem.now) (tableau_of tableau.now) column }
{
    for place in 0..tableau.columns() + 1 {
        let cell = raised_cell(problem, tableau, stands, column, place);
        if cell.is_positive() {
            return true;
        }
        if cell.is_negative() {
            return false;
        }
    }
    false
}

/// The ends at which the variables outside the basis stand.
pub fn ends(
    alloc: Global,
    problem: &Problem,
    boxes: &[Interval],
    tableau: &Tableau,
    stands: &[Stand],
) -> Result<Vec<End>, AllocError>
    requires of { IsOf (linear_program problem.now) (tableau_of tableau.now) }
    requires boxes { length boxes.now ≡ length problem.now.boxes }
    requires stands { AllStand (tableau_of tableau.now) stands.now }
    requires long { length stands.now ≡ length tableau.now.outsides + length tableau.now.basics }
    ensures { IfOk result (λ es. es.items ≡ ends_in problem.now boxes.now tableau.now) }
{
    let mut ends = Vec::new(alloc);
    for column in 0..tableau.columns() {
        let above = is_above(problem, tableau, stands, column as u32);
        let variable = outside_number(tableau, column as u32);
        let value = end_of(problem, boxes, variable, above);
        ends.push(End { above, value })?;
    }
    Ok(ends)
}

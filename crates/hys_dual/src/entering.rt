ghost use Rattle.std.specs.Prelude.{◌≡◌, ◌≢◌, ◌+◌, ◌<◌, ◌≤◌, ◌↔◌, length, IsTrue};
ghost use Rattle.hys_number.specs.Ops.{◌<ₙ◌, ◌*ₙ◌, whole};
ghost use Rattle.hys_lin.specs.Ranges.{box_at};
ghost use Rattle.hys_relax.specs.LinearProgram.{linear_program};
ghost use Rattle.hys_simplex.specs.Tableau.{IsOf};
ghost use Rattle.hys_simplex.specs.Rule.{IsMovable};
ghost use Rattle.hys_tab.specs.Table.{tableau_of};
ghost use Rattle.hys_dual.specs.Standing.{AllStand};
ghost use Rattle.hys_dual.specs.Ranging.{side_of};
ghost use Rattle.hys_dual.specs.Tables.{ends_in, MayEnterIn, IsLessIn, IsRatioOrderIn, IsBestIn, IsPickedIn};

use crate::end::End;
use crate::raised::raised_cell;
use crate::ranges::{lower, upper};
use crate::stand::{Stand, outside_number};
use hys_frac::Frac;
use hys_lin::{Interval, Problem};
use hys_tab::Tableau;
use std::cmp::Ordering;

/// The column that enters for a row that is off its range: of those that may enter the one of least
/// raised ratio.
pub fn entering(
    problem: &Problem,
    boxes: &[Interval],
    tableau: &Tableau,
    stands: &[Stand],
    ends: &[End],
    row: u32,
    under: bool,
) -> Option<u32>
    requires of { IsOf (linear_program problem.now) (tableau_of tableau.now) }
    requires boxes { length boxes.now ≡ length problem.now.boxes }
    requires stands { AllStand (tableau_of tableau.now) stands.now }
    requires long { length stands.now ≡ length tableau.now.outsides + length tableau.now.basics }
    requires ends { ends.now ≡ ends_in problem.now boxes.now tableau.now }
    requires row { row < length tableau.now.basics }
    ensures { IsPickedIn problem.now boxes.now tableau.now row under result }
{
    let mut best = None;
    for column in 0..tableau.columns() {
        best = better(
            problem,
            boxes,
            tableau,
            stands,
            ends,
            row,
            under,
            best,
            column as u32,
        );
    }
    best
}

// The best of the columns up to this one, where the best of those before it is known.
fn better(
    problem: &Problem,
    boxes: &[Interval],
    tableau: &Tableau,
    stands: &[Stand],
    ends: &[End],
    row: u32,
    under: bool,
    best: Option<u32>,
    column: u32,
) -> Option<u32>
    requires of { IsOf (linear_program problem.now) (tableau_of tableau.now) }
    requires boxes { length boxes.now ≡ length problem.now.boxes }
    requires stands { AllStand (tableau_of tableau.now) stands.now }
    requires long { length stands.now ≡ length tableau.now.outsides + length tableau.now.basics }
    requires ends { ends.now ≡ ends_in problem.now boxes.now tableau.now }
    requires row { row < length tableau.now.basics }
    requires column { column < length tableau.now.outsides }
    requires best { IsBestIn problem.now boxes.now tableau.now row under column best }
    ensures { IsBestIn problem.now boxes.now tableau.now row under (column + 1) result }
{
    if !may_enter(problem, boxes, tableau, ends, row, under, column) {
        return best;
    }
    match best {
        None => Some(column),
        Some(least) => {
            if is_less(problem, tableau, stands, row, under, column, least) {
                return Some(column);
            }
            Some(least)
        }
    }
}

// Whether a column may enter: its variable's range isn't one number, and its move from its end
// brings the basic value of the row towards its range.
fn may_enter(
    problem: &Problem,
    boxes: &[Interval],
    tableau: &Tableau,
    ends: &[End],
    row: u32,
    under: bool,
    column: u32,
) -> bool
    requires of { IsOf (linear_program problem.now) (tableau_of tableau.now) }
    requires boxes { length boxes.now ≡ length problem.now.boxes }
    requires ends { ends.now ≡ ends_in problem.now boxes.now tableau.now }
    requires row { row < length tableau.now.basics }
    requires column { column < length tableau.now.outsides }
    ensures { IsTrue result ↔ MayEnterIn problem.now boxes.now tableau.now row under column }
{
    let cell = tableau.cell(row, column);
    is_toward(under, ends[column as usize].above, cell)
        && is_movable(problem, boxes, outside_number(tableau, column))
}

// Whether the side, the sign of the end and the cell have a product above 0.
fn is_toward(under: bool, above: bool, cell: Frac) -> bool
    ensures { IsTrue result ↔ (whole 0 <ₙ side_of under *ₙ side_of above *ₙ cell) }
{
    if under == above {
        return cell.is_positive();
    }
    cell.is_negative()
}

// Whether the range of the variable isn't one number.
fn is_movable(problem: &Problem, boxes: &[Interval], variable: usize) -> bool
    requires boxes { length boxes.now ≡ length problem.now.boxes }
    requires variable { variable < length problem.now.boxes + length problem.now.rows }
    ensures { IsTrue result ↔ IsMovable (linear_program problem.now) (box_at boxes.now) variable }
{
    match upper(problem, boxes, variable) {
        None => true,
        Some(high) => high != lower(problem, boxes, variable),
    }
}

// Whether the raised ratio of the first column is below that of the second, both of which may enter.
fn is_less(
    problem: &Problem,
    tableau: &Tableau,
    stands: &[Stand],
    row: u32,
    under: bool,
    first: u32,
    second: u32,
) -> bool
    requires of { IsOf (linear_program problem.now) (tableau_of tableau.now) }
    requires stands { AllStand (tableau_of tableau.now) stands.now }
    requires long { length stands.now ≡ length tableau.now.outsides + length tableau.now.basics }
    requires row { row < length tableau.now.basics }
    requires first { first < length tableau.now.outsides }
    requires second { second < length tableau.now.outsides }
    requires first_cell { (tableau_of tableau.now).cell row first ≢ whole 0 }
    requires second_cell { (tableau_of tableau.now).cell row second ≢ whole 0 }
    ensures { IsTrue result ↔ IsLessIn problem.now tableau.now row under first second }
{
    for place in 0..tableau.columns() + 1 {
        match cmp_at(problem, tableau, stands, row, under, first, second, place) {
            Ordering::Less => return true,
            Ordering::Equal => {}
            Ordering::Greater => return false,
        }
    }
    false
}

// The order of the raised ratios of two columns in one place.
fn cmp_at(
    problem: &Problem,
    tableau: &Tableau,
    stands: &[Stand],
    row: u32,
    under: bool,
    first: u32,
    second: u32,
    place: usize,
) -> Ordering
    requires of { IsOf (linear_program problem.now) (tableau_of tableau.now) }
    requires stands { AllStand (tableau_of tableau.now) stands.now }
    requires long { length stands.now ≡ length tableau.now.outsides + length tableau.now.basics }
    requires row { row < length tableau.now.basics }
    requires first { first < length tableau.now.outsides }
    requires second { second < length tableau.now.outsides }
    requires place { place ≤ length tableau.now.outsides }
    requires first_cell { (tableau_of tableau.now).cell row first ≢ whole 0 }
    requires second_cell { (tableau_of tableau.now).cell row second ≢ whole 0 }
    ensures { IsRatioOrderIn problem.now tableau.now row under first second place result }
{
    let over_first = raised_cell(problem, tableau, stands, first, place);
    let over_second = raised_cell(problem, tableau, stands, second, place);
    let under_first = tableau.cell(row, first);
    let under_second = tableau.cell(row, second);
    if under {
        return Frac::cmp_quotient(over_first, under_first, over_second, under_second);
    }
    Frac::cmp_quotient(over_second, under_second, over_first, under_first)
}

ghost use Rattle.std.specs.Prelude.{◌≡◌, ◌<◌, length, IfSome, IsNone};
ghost use Rattle.hys_number.specs.Ops.{fits};
ghost use Rattle.hys_lin.specs.Ranges.{box_at};
ghost use Rattle.hys_relax.specs.LinearProgram.{linear_program};
ghost use Rattle.hys_simplex.specs.Tableau.{IsOf};
ghost use Rattle.hys_simplex.specs.Unfit.{SomeUnfit};
ghost use Rattle.hys_tab.specs.Table.{tableau_of};
ghost use Rattle.hys_dual.specs.Leave.{IsRowState, IsLeft};
ghost use Rattle.hys_dual.specs.Tables.{ends_in, basic_value_in, value_operations_in};

use crate::end::End;
use crate::products::less_product;
use crate::ranges::judged;
use crate::stand::basic_number;
use hys_frac::Frac;
use hys_lin::{Interval, Problem};
use hys_tab::Tableau;

/// A row whose basic value is off its range, below it or above, with the end that it is off.
#[derive(Clone, Copy, Debug)]
pub struct OffRange {
    pub row: u32,
    pub under: bool,
    pub near: Frac,
}

/// What the basic values say: all are inside their ranges, or the first row that isn't, or the first
/// whose value doesn't fit.
#[derive(Clone, Copy, Debug)]
pub enum Leaving {
    Inside,
    Off(OffRange),
    Unfit(u32),
}

/// The first row whose basic value is off its range, or doesn't fit.
pub fn first_off(problem: &Problem, boxes: &[Interval], tableau: &Tableau, ends: &[End]) -> Leaving
    requires of { IsOf (linear_program problem.now) (tableau_of tableau.now) }
    requires boxes { length boxes.now ≡ length problem.now.boxes }
    requires ends { ends.now ≡ ends_in problem.now boxes.now tableau.now }
    ensures { IsLeft (linear_program problem.now) (box_at boxes.now) (tableau_of tableau.now) result }
{
    for row in 0..tableau.rows() {
        match row_state(problem, boxes, tableau, ends, row as u32) {
            Leaving::Inside => {}
            Leaving::Off(off) => return Leaving::Off(off),
            Leaving::Unfit(row) => return Leaving::Unfit(row),
        }
    }
    Leaving::Inside
}

// What the basic value of one row says.
fn row_state(
    problem: &Problem,
    boxes: &[Interval],
    tableau: &Tableau,
    ends: &[End],
    row: u32,
) -> Leaving
    requires of { IsOf (linear_program problem.now) (tableau_of tableau.now) }
    requires boxes { length boxes.now ≡ length problem.now.boxes }
    requires ends { ends.now ≡ ends_in problem.now boxes.now tableau.now }
    requires row { row < length tableau.now.basics }
    ensures { IsRowState (linear_program problem.now) (box_at boxes.now) (tableau_of tableau.now) row result }
{
    match basic_value(problem, boxes, tableau, ends, row) {
        None => Leaving::Unfit(row),
        Some(value) => match judged(problem, boxes, basic_number(tableau, row), value) {
            None => Leaving::Inside,
            Some((under, near)) => Leaving::Off(OffRange { row, under, near }),
        },
    }
}

/// The basic value of a row: its constant less, in the order of the columns, each cell times the end
/// of its variable; none where a product or a partial sum doesn't fit.
pub fn basic_value(
    problem: &Problem,
    boxes: &[Interval],
    tableau: &Tableau,
    ends: &[End],
    row: u32,
) -> Option<Frac>
    requires row { row < length tableau.now.basics }
    requires ends { ends.now ≡ ends_in problem.now boxes.now tableau.now }
    ensures value { IfSome result (λ x. x ≡ basic_value_in problem.now boxes.now tableau.now row) }
    ensures unfit { IsNone result → SomeUnfit fits (value_operations_in problem.now boxes.now tableau.now row) }
{
    let mut sum = tableau.cell(row, tableau.columns() as u32);
    for column in 0..tableau.columns() {
        match less_product(sum, tableau.cell(row, column as u32), ends[column].value) {
            Ok(less) => sum = less,
            Err(_) => return None,
        }
    }
    Some(sum)
}

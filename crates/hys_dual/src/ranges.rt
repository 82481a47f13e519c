ghost use Rattle.std.specs.Prelude.{◌≡◌, ◌+◌, ◌<◌, ◌↔◌, length, IsTrue};
ghost use Rattle.hys_number.specs.Ops.{◌<ₙ◌};
ghost use Rattle.hys_lin.specs.Ranges.{box_at};
ghost use Rattle.hys_relax.specs.LinearProgram.{linear_program};
ghost use Rattle.hys_simplex.specs.Status.{lower as lower_of, upper as upper_of};
ghost use Rattle.hys_dual.specs.Ranging.{range_end, IsJudged};

use hys_frac::Frac;
use hys_lin::{Interval, Problem};
use std::cmp::Ordering;

/// The least number of a variable: the low end of a column's box, 0 of a slack.
pub fn lower(problem: &Problem, boxes: &[Interval], variable: usize) -> Frac
    requires { length boxes.now ≡ length problem.now.boxes }
    ensures { result ≡ lower_of (linear_program problem.now) (box_at boxes.now) variable }
{
    if variable < boxes.len() {
        return boxes[variable].low;
    }
    Frac::whole(0)
}

/// The greatest number of a variable: the high end of a column's box, 0 of the slack of an equation.
pub fn upper(problem: &Problem, boxes: &[Interval], variable: usize) -> Option<Frac>
    requires boxes { length boxes.now ≡ length problem.now.boxes }
    requires variable { variable < length problem.now.boxes + length problem.now.rows }
    ensures { result ≡ upper_of (linear_program problem.now) (box_at boxes.now) variable }
{
    if variable < boxes.len() {
        return Some(boxes[variable].high);
    }
    let rows = problem.rows.items();
    if rows[variable - boxes.len()].eq {
        return Some(Frac::whole(0));
    }
    None
}

/// The upper end of a variable's range where `above`, and where there is one, else the lower.
pub fn end_of(problem: &Problem, boxes: &[Interval], variable: usize, above: bool) -> Frac
    requires boxes { length boxes.now ≡ length problem.now.boxes }
    requires variable { variable < length problem.now.boxes + length problem.now.rows }
    ensures { result ≡ range_end (linear_program problem.now) (box_at boxes.now) variable above }
{
    let low = lower(problem, boxes, variable);
    if above {
        return match upper(problem, boxes, variable) {
            Some(high) => high,
            None => low,
        };
    }
    low
}

/// Whether a value is below a variable's range, or above it, with the end that it is off; none where
/// it is inside.
pub fn judged(
    problem: &Problem,
    boxes: &[Interval],
    variable: usize,
    value: Frac,
) -> Option<(bool, Frac)>
    requires boxes { length boxes.now ≡ length problem.now.boxes }
    requires variable { variable < length problem.now.boxes + length problem.now.rows }
    ensures { IsJudged (linear_program problem.now) (box_at boxes.now) variable value result }
{
    let low = lower(problem, boxes, variable);
    if is_below(value, low) {
        return Some((true, low));
    }
    match upper(problem, boxes, variable) {
        None => None,
        Some(high) => {
            if is_below(high, value) {
                return Some((false, high));
            }
            None
        }
    }
}

// Whether the first number is below the second.
fn is_below(left: Frac, right: Frac) -> bool
    ensures { IsTrue result ↔ (left <ₙ right) }
{
    match left.cmp(right) {
        Ordering::Less => true,
        Ordering::Equal | Ordering::Greater => false,
    }
}

ghost use Rattle.std.specs.Prelude.{◌≡◌, ◌<◌, All, length};
ghost use Rattle.hys_lin.specs.Problem.{IsProblem};
ghost use Rattle.hys_lin.specs.Sums.{EachColumn};
ghost use Rattle.hys_check.specs.Testing.{first_failing};
ghost use Rattle.hys_check.specs.ClaimTests.{is_inside as is_inside_by, is_bit as is_bit_by, box_tests, bit_tests};
ghost use Rattle.hys_check.specs.ClaimTests.{row_tests, stated_tests, solved_tests, best_tests, claim_tests};
ghost use Rattle.hys_check.specs.ClaimTests.{columns_tests, point_by};

use crate::verdict::{At, CheckWhy, Verdict};
use hys_frac::Frac;
use hys_lin::{Interval, Point, Problem, Row, row_holds, value};
use hys_tree::{Best, Claim};

/// The first test of a claim's point, or of its best, that fails.
pub fn judge_claim(problem: &Problem, claim: &Claim) -> Verdict
    requires { IsProblem problem.now }
    ensures { result ≡ first_failing (claim_tests problem.now claim.now) }
{
    match claim {
        Claim::Least(best) => judge_solved(problem, best),
        Claim::NoneExists => Verdict::Yes,
        Claim::AtLeast { bound, best, .. } => judge_best(problem, *bound, best),
    }
}

// The first test of a best that fails; last, it isn't below the bound.
fn judge_best(problem: &Problem, bound: Frac, best: &Option<Best>) -> Verdict
    requires { IsProblem problem.now }
    ensures { result ≡ first_failing (best_tests problem.now bound best.now) }
{
    match best {
        None => Verdict::Yes,
        Some(best) => match judge_solved(problem, best) {
            Verdict::Yes => judged(bound <= best.cost),
            failed => failed,
        },
    }
}

// Yes, or that the point is wrong.
fn judged(is_right: bool) -> Verdict
    ensures { result ≡ point_by is_right }
{
    if is_right {
        Verdict::Yes
    } else {
        Verdict::No(At::Claim, CheckWhy::Point)
    }
}

// The first test that fails of a solution with its cost.
fn judge_solved(problem: &Problem, best: &Best) -> Verdict
    requires { IsProblem problem.now }
    ensures { result ≡ first_failing (solved_tests problem.now best.now) }
{
    let values = best.point.values.items();
    let boxes = problem.boxes.items();
    if values.len() != boxes.len() {
        return judged(false);
    }
    if !has_columns(problem, values) {
        return judged(false);
    }
    match judge_rows(problem.rows.items(), &best.point) {
        Verdict::Yes => judge_stated(problem, best),
        failed => failed,
    }
}

// Whether each number is in its box, and each branch column is 0 or 1.
fn has_columns(problem: &Problem, values: &[Frac]) -> bool
    requires problem { IsProblem problem.now }
    requires long { length values.now ≡ length problem.now.boxes }
    ensures { first_failing (columns_tests problem.now values.now) ≡ point_by result }
{
    are_inside(problem.boxes.items(), values) && are_bits(values, problem.branch.items())
}

// Whether each number is in its box.
fn are_inside(boxes: &[Interval], values: &[Frac]) -> bool
    requires { length values.now ≡ length boxes.now }
    ensures { first_failing (box_tests boxes.now values.now) ≡ point_by result }
{
    for k in 0..boxes.len() {
        if !is_inside(boxes[k], values[k]) {
            return false;
        }
    }
    true
}

// Whether the number is in the box.
fn is_inside(range: Interval, number: Frac) -> bool
    ensures { result ≡ is_inside_by range number }
{
    range.low <= number && number <= range.high
}

// Whether each branch column is 0 or 1.
fn are_bits(values: &[Frac], branch: &[u32]) -> bool
    requires { All (λ c. c < length values.now) branch.now }
    ensures { first_failing (bit_tests values.now branch.now) ≡ point_by result }
{
    for k in 0..branch.len() {
        let column = branch[k];
        if !is_bit(values[column as usize]) {
            return false;
        }
    }
    true
}

// Whether the number is 0 or 1.
fn is_bit(number: Frac) -> bool
    ensures { result ≡ is_bit_by number }
{
    number == Frac::whole(0) || number == Frac::whole(1)
}

// The first row whose sum doesn't fit, or which doesn't hold.
fn judge_rows(rows: &[Row], point: &Point) -> Verdict
    requires { All (λ r. EachColumn (λ c. c < length point.now.values) r.terms) rows.now }
    ensures { result ≡ first_failing (row_tests point.now.values rows.now) }
{
    for row in rows {
        match row_holds(row, point) {
            Err(lost) => return Verdict::No(At::Claim, CheckWhy::Range(lost)),
            Ok(holds) => {
                if !holds {
                    return judged(false);
                }
            }
        }
    }
    Verdict::Yes
}

// Whether the point has the stated cost, or which number of its cost doesn't fit.
fn judge_stated(problem: &Problem, best: &Best) -> Verdict
    requires { EachColumn (λ c. c < length best.now.point.values) problem.now.cost.terms }
    ensures { result ≡ first_failing (stated_tests problem.now best.now) }
{
    match value(&problem.cost, &best.point) {
        Err(lost) => Verdict::No(At::Claim, CheckWhy::Range(lost)),
        Ok(cost) => judged(cost == best.cost),
    }
}

ghost use Rattle.std.specs.Prelude.{◌≡◌, true, false, MatchOption};
ghost use Rattle.hys_number.specs.Ops.{◌≤ₙ◌, ◌<ₙ◌, whole};
ghost use Rattle.hys_lin.specs.Bits.{IsBit};
ghost use Rattle.hys_relax.specs.Node.{is_fixed as fixes};
ghost use Rattle.hys_tree.specs.Shows.{InnerHolds};
ghost use Rattle.hys_search.specs.Branching.{AllFixed, EachFixed, IsFreeAmong, IsBetween, column_of};
ghost use Rattle.hys_search.specs.Standings.{IsSettledBy, Beats};

use hys_frac::Frac;
use hys_lin::{Point, Problem};
use hys_relax::Fixing;
use hys_tree::Best;
use std::cmp::Ordering;

/// Whether the best cost is at most a bound.
#[tactic(auto, using(hys_number::proofs::Order::le_of_lt))]
pub fn is_settled(found: &Option<Best>, bound: Frac) -> bool
    ensures settled { result ≡ true → IsSettledBy found.now bound }
    ensures beats { result ≡ false → Beats found.now bound }
{
    match found {
        None => false,
        Some(best) => is_at_most(best.cost, bound),
    }
}

/// Whether a number is at most another.
pub fn is_at_most(left: Frac, right: Frac) -> bool
    ensures holds { result ≡ true → left ≤ₙ right }
    ensures fails { result ≡ false → right <ₙ left }
{
    match left.cmp(right) {
        Ordering::Less => true,
        Ordering::Equal => true,
        Ordering::Greater => false,
    }
}

/// Whether a fixing fixes the column.
pub fn is_fixed(fixings: &[Fixing], column: u32) -> bool
    ensures { result ≡ fixes fixings.now column }
{
    for fixing in fixings {
        if fixing.column == column {
            return true;
        }
    }
    false
}

/// The first of the branch columns that no fixing fixes.
pub fn free_column(problem: &Problem, fixings: &[Fixing]) -> Option<u32>
    ensures { MatchOption result (AllFixed problem.now fixings.now) (λ c. InnerHolds problem.now fixings.now c) }
{
    free_among(problem.branch.items(), fixings)
}

fn free_among(columns: &[u32], fixings: &[Fixing]) -> Option<u32>
    ensures { MatchOption result (EachFixed columns.now fixings.now) (IsFreeAmong columns.now fixings.now) }
{
    for column in columns {
        if !is_fixed(fixings, *column) {
            return Some(*column);
        }
    }
    None
}

/// The point's number in a column.
pub fn number_at(point: &Point, column: u32) -> Frac
    ensures { result ≡ column_of point.now column }
{
    match point.values.items().get(column as usize) {
        Some(value) => *value,
        None => Frac::whole(0),
    }
}

/// Whether a number from 0 to 1 lies strictly between them.
pub fn is_between(value: Frac) -> bool
    requires above { whole 0 ≤ₙ value }
    requires below { value ≤ₙ whole 1 }
    ensures between { result ≡ true → IsBetween value }
    ensures bit { result ≡ false → IsBit value }
{
    if is_at_most(value, Frac::whole(0)) {
        return false;
    }
    !is_at_most(Frac::whole(1), value)
}

ghost use Rattle.std.specs.Prelude.{◌≡◌, ◌<◌, IfOk, MatchOption, length};
ghost use Rattle.hys_search.specs.Branching.{AreUnits, EachUnit, EachBit, IsSplitColumn, IsChosen};

use crate::columns::{is_between, is_fixed, number_at};
use hys_frac::Frac;
use hys_lin::{Point, Problem};
use hys_relax::{Fixing, Var};
use hys_tab::Tableau;
use std::alloc::{AllocError, Global};

/// The column to be branched at a node with this least relaxed point and its tableau; none where
/// each branch column is 0 or 1. Of the branch columns strictly between 0 and 1 it is the first
/// with the greatest product of penalties (N. Driebeek, Management Science 12, 1966): by how much
/// the bound rises at least where the column is moved to 0, and where it is moved to 1.
pub fn branch_column(
    alloc: Global,
    problem: &Problem,
    fixings: &[Fixing],
    point: &Point,
    tableau: &Tableau,
) -> Result<Option<u32>, AllocError>
    requires { AreUnits problem.now point.now }
    ensures { IfOk result (λ o. IsChosen problem.now point.now o) }
{
    match split_among(problem.branch.items(), point) {
        None => Ok(None),
        Some(first) => {
            let moves = moves(alloc, problem, fixings, point, tableau)?;
            let columns = problem.branch.items();
            Ok(Some(dearest(columns, point, tableau, moves.as_slice(), first)))
        }
    }
}

// The first of the columns in which the point is strictly between 0 and 1.
fn split_among(columns: &[u32], point: &Point) -> Option<u32>
    requires { EachUnit columns.now point.now }
    ensures { MatchOption result (EachBit columns.now point.now) (λ c. IsSplitColumn columns.now point.now c) }
{
    for column in columns {
        if is_between(number_at(point, *column)) {
            return Some(*column);
        }
    }
    None
}

// The first of these columns with the greatest product of penalties.
fn dearest(columns: &[u32], point: &Point, tableau: &Tableau, moves: &[Move], first: u32) -> u32
    requires units { EachUnit columns.now point.now }
    requires first { IsSplitColumn columns.now point.now first }
    requires moves { length moves.now ≡ length tableau.now.outsides }
    ensures { IsSplitColumn columns.now point.now result }
{
    let mut best = first;
    let mut most = 0;
    for column in columns {
        let value = number_at(point, *column);
        if is_between(value) {
            let product = penalties(tableau, moves, *column, value);
            if most < product {
                most = product;
                best = *column;
            }
        }
    }
    best
}

// ---- penalties
// How a variable outside the basis may move from its end.
#[derive(Clone, Copy, Debug, PartialEq, Eq)]
enum Move {
    Still,
    Up,
    Down,
}

// How the variable that stands in each column of the tableau may move.
fn moves(
    alloc: Global,
    problem: &Problem,
    fixings: &[Fixing],
    point: &Point,
    tableau: &Tableau,
) -> Result<Vec<Move>, AllocError>
    ensures { IfOk result (λ v. length v.items ≡ length tableau.now.outsides) }
{
    let mut moves = Vec::new(alloc);
    for place in 0..tableau.columns() {
        let outside = tableau.outside(place as u32);
        moves.push(move_of(problem, fixings, point, outside))?;
    }
    Ok(moves)
}

fn move_of(problem: &Problem, fixings: &[Fixing], point: &Point, outside: Var) -> Move {
    match outside {
        Var::Slack(row) => match problem.rows.items().get(row as usize) {
            Some(row) => slack_move(row.eq),
            None => Move::Still,
        },
        Var::Column(column) => {
            if is_fixed(fixings, column) {
                return Move::Still;
            }
            match problem.boxes.items().get(column as usize) {
                Some(range) => end_move(range.low, range.high, number_at(point, column)),
                None => Move::Still,
            }
        }
    }
}

// The slack of an equation is 0, that of another row at least 0.
fn slack_move(eq: bool) -> Move {
    if eq { Move::Still } else { Move::Up }
}

fn end_move(low: Frac, high: Frac, value: Frac) -> Move {
    if low == high {
        return Move::Still;
    }
    if value == low { Move::Up } else { Move::Down }
}

// The product of one more than each of the two penalties of a column that is basic.
fn penalties(tableau: &Tableau, moves: &[Move], column: u32, value: Frac) -> u128
    requires { length moves.now ≡ length tableau.now.outsides }
{
    match row_of(tableau, column) {
        None => 1,
        Some(row) => {
            let down = penalty(tableau, moves, row, value, Move::Down);
            let up = match Frac::whole(1).sub(value) {
                Some(rest) => penalty(tableau, moves, row, rest, Move::Up),
                None => 0,
            };
            product(down, up)
        }
    }
}

// The product of one more than each.
fn product(down: u64, up: u64) -> u128 {
    (down as u128 + 1).saturating_mul(up as u128 + 1)
}

// The row in which a column is basic.
fn row_of(tableau: &Tableau, column: u32) -> Option<u32>
    ensures { MatchOption result (Unit {0}) (λ i. i < length tableau.now.basics) }
{
    for row in 0..tableau.rows() {
        if tableau.basic(row as u32) == Var::Column(column) {
            return Some(row as u32);
        }
    }
    None
}

// A penalty that stands for a child without a point.
const MOST: u64 = 8589934592;

// By how much the bound rises at least where the row's basic value moves by the distance: the dual
// ratio test, in units of 2^-20.
fn penalty(tableau: &Tableau, moves: &[Move], row: u32, distance: Frac, toward: Move) -> u64
    requires row { row < length tableau.now.basics }
    requires moves { length moves.now ≡ length tableau.now.outsides }
{
    let mut least = MOST;
    for place in 0..tableau.columns() {
        let cell = tableau.cell(row, place as u32);
        if enters(cell, moves[place], toward) {
            let cost = tableau.cell(tableau.rows() as u32, place as u32);
            let rise = rise(cost, cell, distance);
            if rise < least {
                least = rise;
            }
        }
    }
    least
}

// Whether the move of a variable with this cell moves the basic value of the row so.
fn enters(cell: Frac, outside: Move, toward: Move) -> bool {
    match outside {
        Move::Still => false,
        Move::Up => is_toward(cell, toward),
        Move::Down => is_toward(cell.neg(), toward),
    }
}

// A basic value falls by the cell times what the variable rises.
fn is_toward(cell: Frac, toward: Move) -> bool {
    match toward {
        Move::Still => false,
        Move::Down => cell.is_positive(),
        Move::Up => cell.is_negative(),
    }
}

// The distance times the ratio of the cells without their signs, in units of 2^-20; 0 where it
// doesn't fit.
fn rise(cost: Frac, cell: Frac, distance: Frac) -> u64 {
    match distance.mul_div(cost, cell) {
        None => 0,
        Some(rise) => units(rise.num().unsigned_abs(), rise.den().unsigned_abs()),
    }
}

// The whole part of 2^20 times a fraction, and at most as much as stands for no point.
fn units(num: u64, den: u64) -> u64 {
    if den == 0 {
        return 0;
    }
    let whole = num as u128 * 1048576 / den as u128;
    if whole < MOST as u128 {
        whole as u64
    } else {
        MOST
    }
}

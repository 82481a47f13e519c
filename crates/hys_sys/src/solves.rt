ghost use Rattle.std.specs.Prelude.{◌≡◌, ◌<◌, length, IfOk, IsTrue, ◌↔◌, Err, All};
ghost use Rattle.hys_lin.specs.Sums.{HoldAll, EachColumn, at};
ghost use Rattle.hys_lin.specs.declared.lost.Lost.{Lost as Loss};
ghost use Rattle.hys_sys.specs.Solution.{Solution, LostAt, AreOfKinds};
ghost use Rattle.hys_lin.specs.Bits.{IsBit};

use crate::system::{Column, Kind2, System};
use hys_frac::Frac;
use hys_lin::{Lost, Point, Row, row_holds};

/// Whether the point is a solution of the system: each row holds, and each Boolean column has 0
/// or 1. Or the first product or partial sum of a row that doesn't fit, where each row before
/// that one holds. The rows are tried in their order, then the Boolean columns.
///
/// The point has one number for each column, and no row names another column.
pub fn holds(system: &System, point: &Point) -> Result<bool, Lost>
    requires long { length point.now.values ≡ length system.now.columns }
    requires rows { All (λ r. EachColumn (λ c. c < length system.now.columns) r.terms) system.now.rows }
    ensures value { IfOk result (λ r. IsTrue r ↔ Solution system.now point.now.values) }
    ensures lost { (l : Loss) → (result ≡ Err l) ↔ LostAt system.now.rows point.now.values l }
{
    if !rows_hold(system.rows.items(), point)? {
        return Ok(false);
    }
    Ok(are_of_kinds(system.columns.items(), point.values.items()))
}

// Whether each row holds.
fn rows_hold(rows: &[Row], point: &Point) -> Result<bool, Lost>
    requires { All (λ r. EachColumn (λ c. c < length point.now.values) r.terms) rows.now }
    ensures value { IfOk result (λ r. IsTrue r ↔ HoldAll (at point.now.values) rows.now) }
    ensures lost { (l : Loss) → (result ≡ Err l) ↔ LostAt rows.now point.now.values l }
{
    for row in rows {
        if !row_holds(row, point)? {
            return Ok(false);
        }
    }
    Ok(true)
}

// Whether each Boolean column has 0 or 1.
fn are_of_kinds(columns: &[Column], values: &[Frac]) -> bool
    requires { length values.now ≡ length columns.now }
    ensures { IsTrue result ↔ AreOfKinds columns.now values.now }
{
    for i in 0..columns.len() {
        if columns[i].kind == Kind2::Bool && !is_bit(values[i]) {
            return false;
        }
    }
    true
}

// Whether the number is 0 or 1.
fn is_bit(number: Frac) -> bool
    ensures { IsTrue result ↔ IsBit number }
{
    number == Frac::whole(0) || number == Frac::whole(1)
}

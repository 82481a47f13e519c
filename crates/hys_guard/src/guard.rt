ghost use Rattle.std.specs.Prelude.{◌≡◌, IfOk};
ghost use Rattle.hys_number.specs.Ops.{whole, ◌<ₙ◌};
ghost use Rattle.hys_lin.specs.Sums.{AreTerms, EachColumn};
ghost use Rattle.hys_guard.specs.Numbers.{Judged, guard_numbers};
ghost use Rattle.hys_lin.specs.Stated.{AreRows, IsRow};
ghost use Rattle.hys_guard.specs.Stated.{guard_stated, guarded_by};
ghost use Rattle.hys_guard.specs.Meanings.{MeanGuard, BelowWith, TermsBelow};

use crate::fault::GuardFault;
use crate::numbers::difference;
use crate::terms::{Side, row_with, signed};
use hys_frac::Frac;
use hys_lin::{Affine, Interval, Row};
use std::alloc::{AllocError, Global};

/// The two rows of a guard. For each value of the number within `range` and 0 or 1 in the column
/// they hold exactly where the number is at most 0 and the column is 1, or the number is at least
/// the tolerance `eps` and the column is 0.
///
/// # Errors
/// `Lost` exactly where `low - eps`, `high - constant` or `constant - eps` doesn't fit, with the
/// first of these.
pub fn guard_rows(
    alloc: Global,
    number: &Affine,
    range: Interval,
    eps: Frac,
    column: u32,
) -> Result<Vec<Row>, GuardFault>
    requires tolerance { whole 0 <ₙ eps }
    requires terms { AreTerms number.now.terms }
    requires apart { EachColumn (λ c. ¬ (c ≡ column)) number.now.terms }
    ensures meaning { IfOk result (λ rows. MeanGuard number.now range eps column rows.items) }
    ensures stated { IfOk result (λ rows. AreRows rows.items (guard_stated number.now range eps column)) }
    ensures below { IfOk result (λ rows. BelowWith column number.now.terms rows.items) }
    ensures judged { Judged (guard_numbers number.now range eps) result }
{
    let drop = difference(range.low, eps)?;
    let top = difference(range.high, number.constant)?;
    let rest = difference(number.constant, eps)?;
    let mut rows = Vec::new(alloc);
    rows.push(guard_row(alloc, Side::Lower, number, column, range.high, top)?)?;
    rows.push(guard_row(alloc, Side::Upper, number, column, drop, rest)?)?;
    Ok(rows)
}

// The row of the number's terms, with their signs, and the column.
fn guard_row(
    alloc: Global,
    side: Side,
    number: &Affine,
    column: u32,
    factor: Frac,
    bound: Frac,
) -> Result<Row, AllocError>
    requires terms { AreTerms number.now.terms }
    requires apart { EachColumn (λ c. ¬ (c ≡ column)) number.now.terms }
    ensures stated { IfOk result (λ r. IsRow r (guarded_by side number.now factor column bound)) }
    ensures below { IfOk result (λ r. TermsBelow column number.now.terms r.terms) }
{
    let terms = signed(alloc, side, number.terms.items())?;
    Ok(row_with(terms, column, factor, bound)?)
}

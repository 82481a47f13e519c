ghost use Rattle.std.specs.Prelude.{◌≡◌, ◌<◌, ◌≤◌, ◌↔◌, ◌⊎◌, IfOk, length, ℕ, []};
ghost use Rattle.hys_number.specs.Ops.{whole, ◌≤ₙ◌, ◌<ₙ◌};
ghost use Rattle.hys_lin.specs.Sums.{Assignment, value, AreTerms, EachColumn, HoldAll, Within};
ghost use Rattle.hys_guard.specs.Numbers.{Judged};
ghost use Rattle.hys_lin.specs.Stated.{AreRows, EachBelow, IsRow};
ghost use Rattle.hys_guard.specs.Stated.{copied_by, copy_stated};
ghost use Rattle.hys_guard.specs.Meanings.{BelowWith, TermsBelow};

use crate::fault::GuardFault;
use crate::terms::{Side, row_with, signed};
use hys_lin::{Affine, Row};
use std::alloc::{AllocError, Global};

/// The two rows that hold exactly where the column has the form's value.
///
/// # Errors
/// `Memory` alone: no number is lost.
pub fn copy_rows(alloc: Global, form: &Affine, column: u32) -> Result<Vec<Row>, GuardFault>
    requires terms { AreTerms form.now.terms }
    requires apart { EachColumn (λ c. ¬ (c ≡ column)) form.now.terms }
    ensures meaning { IfOk result (λ rows. (v : Assignment) → HoldAll v rows.items ↔ (v column ≡ value form.now v)) }
    ensures stated { IfOk result (λ rows. AreRows rows.items (copy_stated form.now column)) }
    ensures below { IfOk result (λ rows. BelowWith column form.now.terms rows.items) }
    ensures judged { Judged [] result }
{
    let mut rows = Vec::new(alloc);
    rows.push(copy_row(alloc, Side::Upper, form, column)?)?;
    rows.push(copy_row(alloc, Side::Lower, form, column)?)?;
    Ok(rows)
}

// The row that bounds the column by the form.
fn copy_row(alloc: Global, side: Side, form: &Affine, column: u32) -> Result<Row, AllocError>
    requires terms { AreTerms form.now.terms }
    requires apart { EachColumn (λ c. ¬ (c ≡ column)) form.now.terms }
    ensures stated { IfOk result (λ r. IsRow r (copied_by side form.now column)) }
    ensures below { IfOk result (λ r. TermsBelow column form.now.terms r.terms) }
{
    let terms = signed(alloc, side, form.terms.items())?;
    Ok(row_with(terms, column, side.unit(), side.constant(form.constant))?)
}

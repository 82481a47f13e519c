ghost use Rattle.std.specs.Prelude.{◌≡◌, ◌++◌, if◌then◌else◌, is_ok, IfOk};
ghost use Rattle.std.specs.Ordering.{nat_cmp};
ghost use Rattle.hys_number.specs.Ops.{◌+ₙ◌, ◌*ₙ◌};
ghost use Rattle.hys_lin.specs.Sums.{Assignment, value as value_of, AreTerms};
ghost use Rattle.hys_lin.specs.Scaled.{AnswersLost, scaling, scaling_form, adding, AddsMultiple, LosesMultiple, TakesNext, kept, scaled, taking, merged};

use crate::checked::{add_product, multiply};
use crate::form::{Affine, Term};
use crate::lost::LinFault;
use hys_frac::{Frac, List};
use std::alloc::{AllocFailed, Global};
use std::cmp::Ordering;

/// The form times `by`, or the first product that doesn't fit. The constant comes last.
pub fn scale(alloc: Global, form: &Affine, by: Frac) -> Result<Affine, LinFault>
    ensures value { IfOk result (λ r. (v : Assignment) → value_of r v ≡ by *ₙ value_of form.now v) }
    ensures terms { IfOk result (λ r. AreTerms form.now.terms → AreTerms r.terms) }
    ensures lost { AnswersLost result (scaling_form by form.now) }
{
    let mut terms = Vec::new(alloc);
    push_scaled(&mut terms, by, form.terms.items())?;
    let constant = multiply(by, form.constant)?;
    Ok(Affine {
        terms: List::of(terms),
        constant,
    })
}

/// The form with `by` times the other added, or the first product or sum that doesn't fit. Each
/// column takes its product, then its sum, and the constant comes last.
pub fn add_scaled(
    alloc: Global,
    form: &Affine,
    by: Frac,
    other: &Affine,
) -> Result<Affine, LinFault>
    ensures value { IfOk result (λ r. AddsMultiple form.now by other.now r) }
    ensures terms { IfOk result (λ r. AreTerms form.now.terms → AreTerms other.now.terms → AreTerms r.terms) }
    ensures lost { LosesMultiple form.now by other.now result }
{
    let mut terms = Vec::new(alloc);
    merge(&mut terms, form.terms.items(), by, other.terms.items())?;
    let constant = add_product(form.constant, by, other.constant)?;
    Ok(Affine {
        terms: List::of(terms),
        constant,
    })
}

// Appends the terms on the left with `by` times those on the right.
fn merge(out: &mut Vec<Term>, left: &[Term], by: Frac, right: &[Term]) -> Result<(), LinFault>
    ensures items { IfOk result (λ _. out.new.items ≡ out.old.items ++ merged left.now by right.now) }
    ensures lost { AreTerms left.now → AreTerms right.now → AnswersLost result (adding left.now by right.now) }
{
    let mut i = 0;
    let mut j = 0;
    while i < left.len() && j < right.len() {
        match take_next(out, left[i], by, right[j])? {
            Ordering::Less => i += 1,
            Ordering::Equal => {
                i += 1;
                j += 1;
            }
            Ordering::Greater => j += 1,
        }
    }
    out.extend_from_slice(&left[i..])?;
    push_scaled(out, by, &right[j..])
}

// Appends of two terms the one with the lower column, or both as one.
fn take_next(out: &mut Vec<Term>, left: Term, by: Frac, right: Term) -> Result<Ordering, LinFault>
    ensures order { IfOk result (λ o. o ≡ nat_cmp left.column right.column) }
    ensures items { IfOk result (λ o. TakesNext left by right out.old.items out.new.items) }
    ensures lost { AnswersLost result (taking (nat_cmp left.column right.column) left by right) }
{
    let order = left.column.cmp(&right.column);
    match order {
        Ordering::Less => out.push(left)?,
        Ordering::Equal => {
            let factor = add_product(left.factor, by, right.factor)?;
            push(out, left.column, factor)?;
        }
        Ordering::Greater => {
            let factor = multiply(by, right.factor)?;
            push(out, right.column, factor)?;
        }
    }
    Ok(order)
}

// Appends the terms times `by`.
pub fn push_scaled(out: &mut Vec<Term>, by: Frac, terms: &[Term]) -> Result<(), LinFault>
    ensures items { IfOk result (λ _. out.new.items ≡ out.old.items ++ scaled by terms.now) }
    ensures lost { AnswersLost result (scaling by terms.now) }
{
    for term in terms {
        let factor = multiply(by, term.factor)?;
        push(out, term.column, factor)?;
    }
    Ok(())
}

// Appends the term, unless its factor is 0.
pub fn push(out: &mut Vec<Term>, column: u32, factor: Frac) -> Result<(), AllocFailed<Term>>
    ensures { out.new.items ≡ (if is_ok result then out.old.items ++ kept column factor else out.old.items) }
{
    if factor.is_zero() {
        return Ok(());
    }
    out.push(Term { column, factor })
}

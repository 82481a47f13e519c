ghost use Rattle.std.specs.Prelude.{◌≡◌, ◌≤◌, IfOk, length, [], ◌∷◌};
ghost use Rattle.hys_number.specs.Ops.{whole, ◌-ₙ◌};
ghost use Rattle.hys_lin.specs.Sums.{AreTerms, EachColumn};
ghost use Rattle.hys_lin.specs.Operations.{minus};
ghost use Rattle.hys_guard.specs.Numbers.{Judged, choice_numbers, literal_numbers, opposite_numbers, bound_numbers, joins, own_term as own_term_of};
ghost use Rattle.hys_guard.specs.Set.{JoinedTerms, EachOwn, negated};
ghost use Rattle.hys_guard.specs.Meanings.{MeanChoice, AreChoice, BelowAll, AddsPair, AddsOpposite, IsBound, TermsBelowOwn};

use crate::fault::GuardFault;
use crate::numbers::{difference, joined, product};
use crate::terms::{Side, factor_at, row_with, set_factor, signed};
use hys_frac::{Frac, List};
use hys_lin::{Affine, Interval, Row, Term};
use std::alloc::Global;

// The first term of a form, where it has one.
fn own_term(form: &Affine) -> Option<Term>
    ensures { result ≡ own_term_of form.now.terms }
{
    let terms = form.terms.items();
    if terms.is_empty() {
        None
    } else {
        Some(terms[0])
    }
}

// 1 less the literal.
fn opposite(alloc: Global, literal: &Affine) -> Result<Affine, GuardFault>
    ensures constant { IfOk result (λ r. r.constant ≡ whole 1 -ₙ literal.now.constant) }
    ensures terms { IfOk result (λ r. r.terms ≡ negated literal.now.terms) }
    ensures judged { Judged (minus (whole 1) literal.now.constant ∷ []) result }
{
    let constant = difference(Frac::whole(1), literal.constant)?;
    let terms = signed(alloc, Side::Upper, literal.terms.items())?;
    Ok(Affine {
        terms: List::of(terms),
        constant,
    })
}

/// The four rows of a choice. For each value of the two forms within their intervals and a
/// literal that is 0 or 1 they hold exactly where the column is the value of `hit` if the literal
/// is 1, and that of `other` if it is 0.
///
/// # Errors
/// `Lost` exactly where a number of the rows doesn't fit, with the first: the two big factors
/// `other low - hit high` and `hit low - other high`, then row by row the factor at the literal's
/// column and the bound.
pub fn choice_rows(
    alloc: Global,
    literal: &Affine,
    hit: &Affine,
    hit_range: Interval,
    other: &Affine,
    other_range: Interval,
    column: u32,
) -> Result<Vec<Row>, GuardFault>
    requires one_term { length literal.now.terms ≤ 1 }
    requires hit_terms { AreTerms hit.now.terms }
    requires other_terms { AreTerms other.now.terms }
    requires literal_apart { EachColumn (λ c. ¬ (c ≡ column)) literal.now.terms }
    requires hit_apart { EachColumn (λ c. ¬ (c ≡ column)) hit.now.terms }
    requires other_apart { EachColumn (λ c. ¬ (c ≡ column)) other.now.terms }
    ensures meaning { IfOk result (λ r. MeanChoice literal.now hit.now hit_range other.now other_range column r.items) }
    ensures stated { IfOk result (λ r. AreChoice literal.now hit.now hit_range other.now other_range column r.items) }
    ensures below { IfOk result (λ rows. BelowAll column literal.now hit.now other.now rows.items) }
    ensures judged { Judged (choice_numbers literal.now hit.now hit_range other.now other_range) result }
{
    let other_excess = difference(other_range.low, hit_range.high)?;
    let hit_excess = difference(hit_range.low, other_range.high)?;
    let mut rows = Vec::new(alloc);
    rows_at_zero(
        alloc,
        &mut rows,
        other_excess,
        hit_excess,
        literal,
        other,
        column,
    )?;
    rows_at_one(
        alloc,
        &mut rows,
        hit_excess,
        other_excess,
        literal,
        hit,
        column,
    )?;
    Ok(rows)
}

// Adds the two rows that hold the column to the form where the literal is 0.
fn rows_at_zero(
    alloc: Global,
    rows: &mut Vec<Row>,
    upper: Frac,
    lower: Frac,
    literal: &Affine,
    form: &Affine,
    column: u32,
) -> Result<(), GuardFault>
    requires terms { AreTerms form.now.terms }
    requires apart { EachColumn (λ c. ¬ (c ≡ column)) form.now.terms }
    requires own_apart { EachColumn (λ c. ¬ (c ≡ column)) literal.now.terms }
    ensures added { IfOk result (λ _. AddsPair upper lower literal.now form.now column rows.old.items rows.new.items) }
    ensures judged { Judged (literal_numbers upper lower literal.now form.now) result }
{
    rows.push(choice_row(alloc, Side::Upper, upper, literal, form, column)?)?;
    rows.push(choice_row(alloc, Side::Lower, lower, literal, form, column)?)?;
    Ok(())
}

// Adds the two rows that hold the column to the form where the literal is 1.
fn rows_at_one(
    alloc: Global,
    rows: &mut Vec<Row>,
    upper: Frac,
    lower: Frac,
    literal: &Affine,
    form: &Affine,
    column: u32,
) -> Result<(), GuardFault>
    requires terms { AreTerms form.now.terms }
    requires apart { EachColumn (λ c. ¬ (c ≡ column)) form.now.terms }
    requires own_apart { EachColumn (λ c. ¬ (c ≡ column)) literal.now.terms }
    ensures added { IfOk result (λ _.
        AddsOpposite upper lower literal.now form.now column rows.old.items rows.new.items) }
    ensures judged { Judged (opposite_numbers upper lower literal.now form.now) result }
{
    let opposite = opposite(alloc, literal)?;
    rows_at_zero(alloc, rows, upper, lower, &opposite, form, column)?;
    Ok(())
}

// The row that bounds the column by the form where the literal is 0.
fn choice_row(
    alloc: Global,
    side: Side,
    factor: Frac,
    literal: &Affine,
    form: &Affine,
    column: u32,
) -> Result<Row, GuardFault>
    requires terms { AreTerms form.now.terms }
    requires apart { EachColumn (λ c. ¬ (c ≡ column)) form.now.terms }
    requires own_apart { EachOwn (λ c. ¬ (c ≡ column)) (own_term_of literal.now.terms) }
    ensures stated { IfOk result (λ r. IsBound side factor literal.now form.now column r) }
    ensures below { IfOk result (λ r. TermsBelowOwn column literal.now form.now r.terms) }
    ensures judged { Judged (bound_numbers side factor literal.now form.now) result }
{
    let terms = joined_terms(alloc, side, factor, own_term(literal), form)?;
    let moved = product(factor, literal.constant)?;
    let bound = difference(side.constant(form.constant), moved)?;
    Ok(row_with(terms, column, side.unit(), bound)?)
}

// The form's terms with their signs, and the literal's term times the big factor.
fn joined_terms(
    alloc: Global,
    side: Side,
    factor: Frac,
    literal: Option<Term>,
    form: &Affine,
) -> Result<Vec<Term>, GuardFault>
    requires { AreTerms form.now.terms }
    ensures terms { IfOk result (λ new. AreTerms new.items) }
    ensures joined { IfOk result (λ new. JoinedTerms side factor literal form.now.terms new.items) }
    ensures judged { Judged (joins side factor literal form.now) result }
{
    let mut terms = signed(alloc, side, form.terms.items())?;
    match literal {
        None => Ok(terms),
        Some(term) => {
            let own = product(factor, term.factor)?;
            let shared = factor_at(form.terms.items(), term.column);
            set_factor(&mut terms, term.column, joined(side, own, shared)?)?;
            Ok(terms)
        }
    }
}

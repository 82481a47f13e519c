ghost use Rattle.std.specs.Prelude.{◌≡◌, ◌≤◌, ◌<◌, IfOk, false};
ghost use Rattle.hys_number.specs.Ops.{whole};
ghost use Rattle.hys_lin.specs.Sums.{AreTerms};
ghost use Rattle.hys_lin.specs.Scaled.{coefficient};
ghost use Rattle.hys_guard.specs.Numbers.{constant_by};
ghost use Rattle.hys_guard.specs.declared.terms.Side.TheVariants.{Upper};
ghost use Rattle.hys_guard.specs.Meanings.{IsRowWith};
ghost use Rattle.hys_guard.specs.Set.{Splits, TakenOut, IsSetTo, unit_by, signed as signed_terms};

use hys_frac::{Frac, List};
use hys_lin::{Row, Term};
use std::alloc::{AllocError, Global};

/// Which way a row bounds its column by a form: from above, or from below.
#[derive(Clone, Copy, Debug, PartialEq, Eq)]
pub enum Side {
    Upper,
    Lower,
}

impl Side {
    // The number as a row has it on the right.
    pub fn constant(self, number: Frac) -> Frac
        ensures { result ≡ constant_by self number }
    {
        match self {
            Side::Upper => number,
            Side::Lower => number.neg(),
        }
    }

    // The factor of the row's own column.
    pub fn unit(self) -> Frac
        ensures { result ≡ unit_by self }
    {
        match self {
            Side::Upper => Frac::whole(1),
            Side::Lower => Frac::whole(1).neg(),
        }
    }
}

// The place of the first term whose column isn't below `column`.
fn place_of(terms: &[Term], column: u32) -> usize
    requires { AreTerms terms.now }
    ensures { Splits column result terms.now }
{
    for (i, term) in terms.iter().enumerate() {
        if term.column >= column {
            return i;
        }
    }
    terms.len()
}

// Takes the term at the column out, where there is one, and answers the place for one.
fn take_out(terms: &mut Vec<Term>, column: u32) -> usize
    requires { AreTerms terms.old.items }
    ensures { TakenOut column result (coefficient terms.old.items column) terms.old.items terms.new.items }
{
    let place = place_of(terms, column);
    if place < terms.len() && terms[place].column == column {
        terms.remove(place);
    }
    place
}

/// Sets the factor at a column; a factor 0 leaves no term there.
pub fn set_factor(terms: &mut Vec<Term>, column: u32, factor: Frac) -> Result<(), AllocError>
    requires { AreTerms terms.old.items }
    ensures { IfOk result (λ _. IsSetTo column factor terms.old.items terms.new.items) }
{
    let place = take_out(terms, column);
    if factor.is_zero() {
        return Ok(());
    }
    terms.insert(place, Term { column, factor })?;
    Ok(())
}

/// The factor at a column, 0 where the terms don't name it.
pub fn factor_at(terms: &[Term], column: u32) -> Frac
    ensures { result ≡ coefficient terms.now column }
{
    for term in terms {
        if term.column == column {
            return term.factor;
        }
    }
    Frac::whole(0)
}

/// The form's terms as a row has them that bounds a column by it: negated in one from above.
pub fn signed(alloc: Global, side: Side, terms: &[Term]) -> Result<Vec<Term>, AllocError>
    ensures { IfOk result (λ new. new.items ≡ signed_terms side terms.now) }
{
    match side {
        Side::Upper => negated(alloc, terms),
        Side::Lower => Vec::from_slice(alloc, terms),
    }
}

fn negated(alloc: Global, terms: &[Term]) -> Result<Vec<Term>, AllocError>
    ensures { IfOk result (λ new. new.items ≡ signed_terms Upper terms.now) }
{
    let mut negated = Vec::with_capacity(alloc, terms.len())?;
    for term in terms {
        negated.push(Term {
            column: term.column,
            factor: term.factor.neg(),
        })?;
    }
    Ok(negated)
}

/// The row of these terms with one column's factor set, and this bound.
pub fn row_with(
    mut terms: Vec<Term>,
    column: u32,
    factor: Frac,
    bound: Frac,
) -> Result<Row, AllocError>
    requires { AreTerms terms.items }
    ensures { IfOk result (λ r. IsRowWith column factor bound terms.items r) }
{
    set_factor(&mut terms, column, factor)?;
    Ok(Row {
        terms: List::of(terms),
        bound,
        eq: false,
    })
}

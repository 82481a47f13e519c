ghost use Rattle.std.specs.Prelude.{◌≡◌, IfOk, ℕ, ◌≤◌, ◌<◌, unsigned_abs, false, ◌∷◌, [], ◌+◌, ◌-ℤ◌};
ghost use Rattle.hys_number.specs.Ops.{whole, int};
ghost use Rattle.hys_lin.specs.Sums.{EachColumn};
ghost use Rattle.hys_lin.specs.Bits.{bit as bit_of};
ghost use Rattle.hys_logic.specs.declared.literal.Literal.TheVariants.{Fixed};
ghost use Rattle.hys_logic.specs.declared.row.Sign.TheVariants.{Plus, Minus};
ghost use Rattle.hys_logic.specs.Literals.{LiteralBelow};
ghost use Rattle.hys_logic.specs.Rows.{signed, row_by, pair_by, moved_by, turned, IsSum, AreOf, PairBelow};
ghost use Rattle.hys_lin.specs.Stated.{IsRow};

use crate::literal::Literal;
use crate::small::small;
use hys_frac::{Frac, List};
use hys_lin::{Row, Term};
use std::alloc::{AllocError, Global};

/// The sign of a literal in a row.
#[derive(Clone, Copy, Debug, PartialEq, Eq)]
pub enum Sign {
    Plus,
    Minus,
}

impl Sign {
    // 1 or -1.
    fn unit(self) -> Frac
        ensures { result ≡ signed self (whole 1) }
    {
        match self {
            Sign::Plus => Frac::whole(1),
            Sign::Minus => Frac::whole(1).neg(),
        }
    }

    // 2 or -2.
    fn double(self) -> Frac
        ensures { result ≡ signed self (whole 2) }
    {
        match self {
            Sign::Plus => Frac::whole(2),
            Sign::Minus => Frac::whole(2).neg(),
        }
    }

    // The sign of a column in a literal with this sign.
    pub fn turned(self, negated: bool) -> Sign
        ensures { result ≡ turned self negated }
    {
        match (self, negated) {
            (Sign::Plus, false) | (Sign::Minus, true) => Sign::Plus,
            (Sign::Plus, true) | (Sign::Minus, false) => Sign::Minus,
        }
    }

    // 1 with this sign, or 0.
    fn constant(self, one: bool) -> i8
        ensures value { int result ≡ signed self (bit_of one) }
        ensures small { unsigned_abs result ≤ 1 }
    {
        match (self, one) {
            (_, false) => 0,
            (Sign::Plus, true) => 1,
            (Sign::Minus, true) => -1,
        }
    }
}

/// A literal with a sign.
#[derive(Clone, Copy, Debug, PartialEq, Eq)]
pub struct Part {
    pub sign: Sign,
    pub literal: Literal,
}

// A literal with a sign.
pub fn plus(literal: Literal) -> Part
    ensures { result ≡ record { sign = Plus; literal = literal } }
{
    Part {
        sign: Sign::Plus,
        literal,
    }
}

pub fn minus(literal: Literal) -> Part
    ensures { result ≡ record { sign = Minus; literal = literal } }
{
    Part {
        sign: Sign::Minus,
        literal,
    }
}

/// The part without a literal.
pub fn nothing() -> Part
    ensures { result ≡ record { sign = Plus; literal = Fixed false } }
{
    Part {
        sign: Sign::Plus,
        literal: Literal::Fixed(false),
    }
}

/// The term of a column with a sign.
pub fn term(column: u32, sign: Sign) -> Term
    ensures { result ≡ record { column = column; factor = signed sign (whole 1) } }
{
    Term {
        column,
        factor: sign.unit(),
    }
}

fn twice(column: u32, sign: Sign) -> Term
    ensures { result ≡ record { column = column; factor = signed sign (whole 2) } }
{
    Term {
        column,
        factor: sign.double(),
    }
}

/// The list of one term.
pub fn single(alloc: Global, term: Term) -> Result<Vec<Term>, AllocError>
    ensures { IfOk result (λ ts. ts.items ≡ term ∷ []) }
{
    let mut terms = Vec::new(alloc);
    terms.push(term)?;
    Ok(terms)
}

fn pair(alloc: Global, first: Term, second: Term) -> Result<Vec<Term>, AllocError>
    ensures { IfOk result (λ ts. ts.items ≡ first ∷ second ∷ []) }
{
    let mut terms = Vec::new(alloc);
    terms.push(first)?;
    terms.push(second)?;
    Ok(terms)
}

// The terms of two columns with their signs, joined where they are one column.
fn two_terms(
    alloc: Global,
    left: u32,
    left_sign: Sign,
    right: u32,
    right_sign: Sign,
) -> Result<Vec<Term>, AllocError>
    ensures { IfOk result (λ ts. IsSum left left_sign right right_sign ts.items) }
{
    if left < right {
        Ok(pair(alloc, term(left, left_sign), term(right, right_sign))?)
    } else if right < left {
        Ok(pair(alloc, term(right, right_sign), term(left, left_sign))?)
    } else {
        Ok(doubled(alloc, left, left_sign, right_sign)?)
    }
}

// The terms of one column with two signs.
fn doubled(alloc: Global, column: u32, first: Sign, second: Sign) -> Result<Vec<Term>, AllocError>
    ensures { IfOk result (λ ts. IsSum column first column second ts.items) }
{
    match (first, second) {
        (Sign::Plus, Sign::Plus) => Ok(single(alloc, twice(column, first))?),
        (Sign::Minus, Sign::Minus) => Ok(single(alloc, twice(column, first))?),
        (Sign::Plus, Sign::Minus) => Ok(Vec::new(alloc)),
        (Sign::Minus, Sign::Plus) => Ok(Vec::new(alloc)),
    }
}

// The terms of two literals.
fn literal_terms(alloc: Global, left: Part, right: Part) -> Result<Vec<Term>, AllocError>
    ensures { IfOk result (λ ts. AreOf left.sign left.literal right.sign right.literal ts.items) }
{
    match (left.literal, right.literal) {
        (Literal::Fixed(_), Literal::Fixed(_)) => Ok(Vec::new(alloc)),
        (Literal::Column { column, negated }, Literal::Fixed(_)) => {
            Ok(single(alloc, term(column, left.sign.turned(negated)))?)
        }
        (Literal::Fixed(_), Literal::Column { column, negated }) => {
            Ok(single(alloc, term(column, right.sign.turned(negated)))?)
        }
        (
            Literal::Column { column, negated },
            Literal::Column {
                column: other,
                negated: turned,
            },
        ) => Ok(two_terms(
            alloc,
            column,
            left.sign.turned(negated),
            other,
            right.sign.turned(turned),
        )?),
    }
}

// What two moved constants leave of a base.
fn remaining(base: i8, moved: i8, other: i8) -> i8
    requires base { unsigned_abs base ≤ 1 }
    requires moved { unsigned_abs moved ≤ 1 }
    requires other { unsigned_abs other ≤ 1 }
    ensures value { result ≡ base -ℤ moved -ℤ other }
    ensures small { unsigned_abs result ≤ 3 }
{
    base - moved - other
}

// The bound of a row whose literals' constants are moved from its left.
fn moved(left: Part, right: Part, base: i8) -> Frac
    requires { unsigned_abs base ≤ 1 }
    ensures { result ≡ moved_by left.sign left.literal right.sign right.literal base }
{
    let moved = left.sign.constant(left.literal.constant());
    let other = right.sign.constant(right.literal.constant());
    small(remaining(base, moved, other))
}

/// The row of two literals and a column with their signs, at most `base`. The column is above
/// those of the literals.
pub fn row_of(
    alloc: Global,
    left: Part,
    right: Part,
    own: Sign,
    column: u32,
    base: i8,
) -> Result<Row, AllocError>
    requires base { unsigned_abs base ≤ 1 }
    requires left { LiteralBelow column left.literal }
    requires right { LiteralBelow column right.literal }
    ensures stated { IfOk result (λ r. IsRow r
        (row_by left.sign left.literal right.sign right.literal own column base)) }
    ensures below { IfOk result (λ r. EachColumn (λ c. c < column + 1) r.terms) }
{
    let mut terms = literal_terms(alloc, left, right)?;
    terms.push(term(column, own))?;
    Ok(Row {
        terms: List::of(terms),
        bound: moved(left, right, base),
        eq: false,
    })
}

/// The row of two literals with their signs, at most `base`.
pub fn pair_of(alloc: Global, left: Part, right: Part, base: i8) -> Result<Row, AllocError>
    requires base { unsigned_abs base ≤ 1 }
    ensures stated { IfOk result (λ r. IsRow r (pair_by left.sign left.literal right.sign right.literal base)) }
    ensures below { IfOk result (λ r. PairBelow left.literal right.literal r) }
{
    let terms = literal_terms(alloc, left, right)?;
    Ok(Row {
        terms: List::of(terms),
        bound: moved(left, right, base),
        eq: false,
    })
}

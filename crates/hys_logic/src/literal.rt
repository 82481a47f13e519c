ghost use Rattle.std.specs.Prelude.{◌≡◌, IfOk, ℕ, length, ◌≤◌, ◌<◌};
ghost use Rattle.hys_lin.specs.Sums.{Assignment, value, AreTerms, EachColumn};
ghost use Rattle.hys_logic.specs.Literals.{number_of, constant_part, opposite as opposite_of, LiteralBelow};
ghost use Rattle.hys_logic.specs.Rows.{own_terms, form_of};
ghost use Rattle.hys_lin.specs.Bits.{bit as bit_of};

use crate::row::{Sign, single, term};
use crate::small::bit;
use hys_base::List;
use hys_lin::{Affine, Row, Term};
use std::alloc::{AllocError, Global};

/// The rows of a formula, and the form of at most one term that has the formula's truth, 0 or 1,
/// where the rows hold. `fresh` is the number of fresh columns.
#[derive(Clone, Debug, PartialEq, Eq, Drop)]
pub struct Logic {
    pub rows: List<Row>,
    pub literal: Affine,
    pub fresh: u32,
}

/// A truth value, or the number of a column, or 1 less that.
#[derive(Clone, Copy, Debug, PartialEq, Eq)]
pub enum Literal {
    Fixed(bool),
    Column { column: u32, negated: bool },
}

impl Literal {
    // The literal of the negation.
    pub fn opposite(self) -> Literal
        ensures { result ≡ opposite_of self }
    {
        match self {
            Literal::Fixed(truth) => Literal::Fixed(!truth),
            Literal::Column { column, negated } => Literal::Column {
                column,
                negated: !negated,
            },
        }
    }

    // What the literal has without its column: 1 where it is true or negated.
    pub fn constant(self) -> bool
        ensures { bit_of result ≡ constant_part self }
    {
        match self {
            Literal::Fixed(truth) => truth,
            Literal::Column { negated, .. } => negated,
        }
    }

    // The literal as a form of at most one term.
    pub fn form(self, alloc: Global) -> Result<Affine, AllocError>
        ensures stated { IfOk result (λ f. f ≡ form_of self) }
        ensures value { IfOk result (λ f. (v : Assignment) → value f v ≡ number_of self v) }
        ensures terms { IfOk result (λ f. AreTerms f.terms × (length f.terms ≤ 1)) }
        ensures below { IfOk result (λ f. (n : ℕ) → LiteralBelow n self → EachColumn (λ c. c < n) f.terms) }
    {
        let terms = self.terms(alloc)?;
        Ok(Affine {
            terms: List::of(terms),
            constant: bit(self.constant()),
        })
    }

    fn terms(self, alloc: Global) -> Result<Vec<Term>, AllocError>
        ensures { IfOk result (λ ts. ts.items ≡ own_terms self) }
    {
        match self {
            Literal::Fixed(_) => Ok(Vec::new(alloc)),
            Literal::Column { column, negated } => single(
                alloc,
                term(column, Sign::Plus.turned(negated)),
            ),
        }
    }
}

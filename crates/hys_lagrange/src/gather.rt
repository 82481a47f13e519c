ghost use Rattle.std.specs.Prelude.{◌≡◌, ◌<◌, ℕ, length, IfOk, IfSome, IsTrue};
ghost use Rattle.hys_lin.specs.Over.{AreTermsOver};
ghost use Rattle.hys_lin.specs.Problem.{IsProblem};
ghost use Rattle.hys_lin.specs.Scaled.{coefficient};
ghost use Rattle.hys_lin.specs.Sums.{at, EachColumn, AreTerms};
ghost use Rattle.hys_relax.specs.Bound.{AreLawful};
ghost use Rattle.hys_relax.specs.LinearProgram.{row_at};
ghost use Rattle.hys_lagrange.specs.Costs.{with_cost};
ghost use Rattle.hys_lagrange.specs.Gathered.{AllFit, IsRowAdded, AreGathered};

use crate::products::kept;
use hys_frac::Frac;
use hys_lin::{Affine, Problem, Term, add_product};
use std::alloc::{AllocError, Global};

/// The coefficients of all columns, from the rows that have a multiplier and no others; none where a
/// number doesn't fit.
pub fn gathered(
    alloc: Global,
    problem: &Problem,
    cost: &Affine,
    pairs: &[(u32, Frac)],
) -> Result<Option<Vec<Frac>>, AllocError>
    requires problem { IsProblem problem.now }
    requires cost { AreTermsOver (length problem.now.boxes) cost.now.terms }
    requires lawful { AreLawful problem.now pairs.now }
    ensures { IfOk result (λ o. IfSome o (λ ds. AreGathered (with_cost problem.now cost.now) pairs.now ds.items)) }
{
    let mut sums = factors(alloc, cost.terms.items(), problem.boxes.items().len())?;
    for k in 0..pairs.len() {
        let pair = pairs[k];
        if !add_row(&mut sums, pair.1, row_terms(problem, pair.0)) {
            return Ok(None);
        }
    }
    Ok(Some(sums))
}

// The factors of so many columns, 0 where no term has one.
fn factors(alloc: Global, terms: &[Term], columns: usize) -> Result<Vec<Frac>, AllocError>
    requires { EachColumn (λ c. c < columns) terms.now }
    ensures long { IfOk result (λ ds. length ds.items ≡ columns) }
    ensures each { IfOk result (λ ds. (j : ℕ) → at ds.items j ≡ coefficient terms.now j) }
    ensures fit { IfOk result (λ ds. AllFit ds.items) }
{
    let mut list = vec![in alloc; Frac::whole(0); columns]?;
    let mut left = terms.len();
    while left > 0 {
        left -= 1;
        let term = terms[left];
        list[term.column as usize] = kept(term.factor);
    }
    Ok(list)
}

// The terms of a row.
fn row_terms<'p>(problem: &'p Problem, row: u32) -> &'p [Term]
    requires { row < length problem.now.rows }
    ensures { result.now ≡ (row_at problem.now row).terms }
{
    let rows = problem.rows.items();
    rows[row as usize].terms.items()
}

// Adds a multiple of the terms, each to the sum of its column; false where a number doesn't fit.
fn add_row(sums: &mut Vec<Frac>, by: Frac, terms: &[Term]) -> bool
    requires rise { AreTerms terms.now }
    requires below { EachColumn (λ c. c < length sums.old.items) terms.now }
    requires fit { AllFit sums.old.items }
    ensures long { length sums.new.items ≡ length sums.old.items }
    ensures added { IsTrue result → IsRowAdded by terms.now sums.old.items sums.new.items }
{
    for term in terms {
        let column = term.column as usize;
        match add_product(sums[column], by, term.factor) {
            Ok(sum) => sums[column] = sum,
            Err(_) => return false,
        }
    }
    true
}

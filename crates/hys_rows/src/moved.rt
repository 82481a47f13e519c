ghost use Rattle.std.specs.Prelude.{◌≡◌, ◌<◌, IfOk, length};
ghost use Rattle.hys_lin.specs.Sums.{EachColumn};
ghost use Rattle.hys_rows.specs.Moved.{inserted, moved as moved_form};

use hys_frac::List;
use hys_lin::{Affine, Term};
use std::alloc::{AllocError, Global};

/// The form over the columns of its names.
pub fn moved(alloc: Global, form: &Affine, columns: &[u32]) -> Result<Affine, AllocError>
    requires { EachColumn (λ n. n < length columns.now) form.now.terms }
    ensures { IfOk result (λ f. f ≡ moved_form columns.now form.now) }
{
    let mut terms = Vec::new(alloc);
    for term in form.terms.items() {
        let column = columns[term.column as usize];
        insert(
            &mut terms,
            Term {
                column,
                factor: term.factor,
            },
        )?;
    }
    Ok(Affine {
        terms: List::of(terms),
        constant: form.constant,
    })
}

// Puts a term before the first whose column is above its own.
fn insert(terms: &mut Vec<Term>, own: Term) -> Result<(), AllocError>
    ensures { IfOk result (λ _. terms.new.items ≡ inserted own terms.old.items) }
{
    for place in 0..terms.len() {
        if own.column < terms[place].column {
            terms.insert(place, own)?;
            return Ok(());
        }
    }
    terms.push(own)?;
    Ok(())
}

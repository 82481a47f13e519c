ghost use Rattle.std.specs.Prelude.{◌≡◌, ◌++◌, IfOk};
ghost use Rattle.hys_formula.specs.Formulas.{tree_of};
ghost use Rattle.hys_order.specs.Lists.{standing, columns, mentioned};

use hys_lin::Term;
use hys_prog::{Body, Formula, NameId};
use std::alloc::{AllocError, Global};

// Adds the names of the formula, from left to right.
fn add_standing(formula: &Formula, names: &mut Vec<NameId>) -> Result<(), AllocError>
    ensures { IfOk result (λ _. names.new.items ≡ names.old.items ++ standing (tree_of formula.now)) }
{
    match formula {
        Formula::Const(_) => {}
        Formula::Name(name) => names.push(*name)?,
        Formula::Not(inner) => add_standing(inner, names)?,
        Formula::Join(_, left, right) => {
            add_standing(left, names)?;
            add_standing(right, names)?;
        }
    }
    Ok(())
}

// Adds the names of the terms.
fn add_columns(terms: &[Term], names: &mut Vec<NameId>) -> Result<(), AllocError>
    ensures { IfOk result (λ _. names.new.items ≡ names.old.items ++ columns terms.now) }
{
    for term in terms {
        names.push(term.column)?;
    }
    Ok(())
}

/// The names that the definition of an auxiliary mentions, from left to right.
pub fn mentions(alloc: Global, body: &Body) -> Result<Vec<NameId>, AllocError>
    ensures { IfOk result (λ names. names.items ≡ mentioned body.now) }
{
    let mut names = Vec::new(alloc);
    match body {
        Body::Guard { number, eps: _ } => add_columns(number.terms.items(), &mut names)?,
        Body::Choice { when, hit, other } => {
            add_standing(when, &mut names)?;
            add_columns(hit.terms.items(), &mut names)?;
            add_columns(other.terms.items(), &mut names)?;
        }
        Body::Logic(formula) => add_standing(formula, &mut names)?,
        Body::Linear(form) => add_columns(form.terms.items(), &mut names)?,
        Body::NextBool(_) => {}
        Body::NextReal(_) => {}
        Body::OutBool(_) => {}
        Body::OutReal(_) => {}
        Body::MustHold(_) => {}
        Body::MustMost(_) => {}
        Body::MustZero(_) => {}
    }
    Ok(names)
}

ghost use Rattle.std.specs.Prelude.{◌≡◌, IfOk};
ghost use Rattle.std.specs.Result.{result_err};
ghost use Rattle.hys_number.specs.Ops.{◌+ₙ◌};
ghost use Rattle.hys_lin.specs.Bits.{bit as bit_of, is_one};
ghost use Rattle.hys_lin.specs.Sums.{at, sum_of, value as value_of};
ghost use Rattle.hys_lin.specs.Operations.{first_lost, summing};
ghost use Rattle.hys_formula.specs.Formulas.{tree_of, truth as truth_of, connect};
ghost use Rattle.hys_prog.specs.Stops.{at_most, equals as equal_numbers, of_kind, in_box as in_box_of, evaluating};

use crate::program::Name;
use hys_ast::Kind;
use hys_formula::{Connective, Formula};
use hys_frac::Frac;
use hys_lin::{Affine, Lost, Term, add_product};

// The number at the place of a name; 0 beyond the list.
pub fn number_at(values: &[Frac], place: usize) -> Frac
    ensures { result ≡ at values.now place }
{
    match values.get(place) {
        Some(value) => *value,
        None => Frac::whole(0),
    }
}

// The value of the form, or the first product or partial sum that doesn't fit. The partial sums
// start from the constant.
#[tactic(auto, unfolding(hys_lin::specs::Sums::value), using(crate::proofs::Stopping::from_constant))]
pub fn evaluated(form: &Affine, values: &[Frac]) -> Result<Frac, Lost>
    ensures value { IfOk result (λ r. r ≡ value_of form.now (at values.now)) }
    ensures lost { result_err result ≡ first_lost (evaluating (at values.now) form.now) }
{
    sum_from(form.constant, form.terms.items(), values)
}

// The sum of the terms, from `start`.
fn sum_from(start: Frac, terms: &[Term], values: &[Frac]) -> Result<Frac, Lost>
    ensures value { IfOk result (λ r. r ≡ start +ₙ sum_of terms.now (at values.now)) }
    ensures lost { result_err result ≡ first_lost (summing start terms.now (λ t. at values.now t.column)) }
{
    let mut sum = start;
    for term in terms {
        sum = add_product(sum, term.factor, number_at(values, term.column as usize))?;
    }
    Ok(sum)
}

// The truth of the formula, where a name is true if its number is 1.
pub fn truth(formula: &Formula, values: &[Frac]) -> bool
    ensures { result ≡ truth_of (tree_of formula.now) (at values.now) }
{
    match formula {
        Formula::Const(held) => *held,
        Formula::Name(name) => is_one(number_at(values, *name as usize)),
        Formula::Not(inner) => !truth(inner, values),
        Formula::Join(connective, left, right) => {
            connect(*connective, truth(left, values), truth(right, values))
        }
    }
}

fn connect(connective: Connective, left: bool, right: bool) -> bool
    ensures { result ≡ connect connective left right }
{
    match connective {
        Connective::And => left && right,
        Connective::Or => left || right,
        Connective::Iff => left == right,
        Connective::Then => !left || right,
        Connective::From => left || !right,
    }
}

// Whether the number is 1.
#[tactic(auto, unfolding(hys_lin::specs::Bits::is_one))]
fn is_one(number: Frac) -> bool
    ensures { result ≡ is_one number }
{
    number.num() == 1 && number.den() == 1
}

pub fn bit(held: bool) -> Frac
    ensures { result ≡ bit_of held }
{
    if held { Frac::whole(1) } else { Frac::whole(0) }
}

// Whether the number is in the name's box, and is 0 or 1 where the name is Boolean.
pub fn in_box(name: &Name, number: Frac) -> bool
    ensures { result ≡ in_box_of name.now number }
{
    name.bounds.low <= number && number <= name.bounds.high && is_of_kind(name.kind, number)
}

fn is_of_kind(kind: Kind, number: Frac) -> bool
    ensures { result ≡ of_kind kind number }
{
    match kind {
        Kind::Real => true,
        Kind::Bool => number == Frac::whole(0) || number == Frac::whole(1),
    }
}

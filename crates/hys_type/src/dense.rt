//! Forms with a factor for each declared name, and their operations name by name.

ghost use Rattle.std.specs.Prelude.{◌≡◌, ◌≢◌, [], ◌∷◌, length, IfOk};
ghost use Rattle.std.specs.Result.{result_err};
ghost use Rattle.std.specs.List.{AllByRecursion, list_all};
ghost use Rattle.hys_number.specs.Ops.{◌+ₙ◌, ◌-ₙ◌, ◌*ₙ◌, ◌/ₙ◌, whole};
ghost use Rattle.hys_meaning.specs.Folding.{is_zero};
ghost use Rattle.hys_lin.specs.Operations.{first_lost, over, minus, plus, result_of, times};
ghost use Rattle.hys_lin.specs.declared.lost.Op.TheVariants as operation;
ghost use Rattle.hys_type.specs.Dense.{between, zipped, folded_by, folded_form, spread};

use hys_base::List;
use hys_frac::Frac;
use hys_lin::{Lost, Op, add, divide, multiply, subtract};
use std::alloc::{AllocError, Global};

/// A factor for each declared name in order, and a constant.
#[derive(Debug, Drop)]
pub struct Dense {
    pub factors: List<Frac>,
    pub constant: Frac,
}

// The sum, which is 0 at most names.
#[tactic(auto, using(crate::proofs::Zeros::none_added, crate::proofs::Zeros::nothing_lost))]
#[inline(always)]
fn sum(left: Frac, right: Frac) -> Result<Frac, Lost>
    ensures value { IfOk result (λ r. r ≡ left +ₙ right) }
    ensures lost { result_err result ≡ first_lost (plus left right ∷ []) }
{
    if left.is_zero() && right.is_zero() {
        return Ok(Frac::whole(0));
    }
    add(left, right)
}

// The difference, which is 0 at most names.
#[tactic(auto, using(crate::proofs::Zeros::none_subtracted, crate::proofs::Zeros::nothing_lost))]
#[inline(always)]
fn difference(left: Frac, right: Frac) -> Result<Frac, Lost>
    ensures value { IfOk result (λ r. r ≡ left -ₙ right) }
    ensures lost { result_err result ≡ first_lost (minus left right ∷ []) }
{
    if left.is_zero() && right.is_zero() {
        return Ok(Frac::whole(0));
    }
    subtract(left, right)
}

// The product, which is 0 at most names.
#[tactic(auto, using(crate::proofs::Zeros::none_multiplied, crate::proofs::Zeros::by_none_multiplied, crate::proofs::Zeros::nothing_lost))]
#[inline(always)]
fn product(left: Frac, right: Frac) -> Result<Frac, Lost>
    ensures value { IfOk result (λ r. r ≡ left *ₙ right) }
    ensures lost { result_err result ≡ first_lost (times left right ∷ []) }
{
    if left.is_zero() {
        return Ok(Frac::whole(0));
    }
    if right.is_zero() {
        return Ok(Frac::whole(0));
    }
    multiply(left, right)
}

// The quotient, which is 0 at most names.
#[tactic(auto, using(crate::proofs::Zeros::none_multiplied, crate::proofs::Zeros::nothing_lost))]
#[inline(always)]
fn quotient(left: Frac, right: Frac) -> Result<Frac, Lost>
    requires { right ≢ whole 0 }
    ensures value { IfOk result (λ r. r ≡ left /ₙ right) }
    ensures lost { result_err result ≡ first_lost (over left right ∷ []) }
{
    if left.is_zero() {
        return Ok(Frac::whole(0));
    }
    divide(left, right)
}

// The operation between two numbers, or the two where its result doesn't fit.
#[inline(always)]
fn operate(op: Op, left: Frac, right: Frac) -> Result<Frac, Lost>
    requires { op ≡ operation.Div → right ≢ whole 0 }
    ensures value { IfOk result (λ r. r ≡ result_of op left right) }
    ensures lost { result_err result ≡ first_lost (between op left right ∷ []) }
{
    match op {
        Op::Add => sum(left, right),
        Op::Sub => difference(left, right),
        Op::Mul => product(left, right),
        Op::Div => quotient(left, right),
    }
}

// The operation between the numbers at each place.
#[tactic(auto, using(crate::proofs::Zips::value_set, crate::proofs::Zips::fits_set, crate::proofs::Zips::lost_set, crate::proofs::Zips::all_set))]
fn pointwise(op: Op, left: Vec<Frac>, right: &[Frac]) -> Result<Vec<Frac>, Lost>
    requires same { length left.items ≡ length right.now }
    requires divisors { op ≡ operation.Div → AllByRecursion (λ b. b ≢ whole 0) right.now }
    ensures value { IfOk result (λ v. v.items ≡ zipped (result_of op) left.items right.now) }
    ensures lost { result_err result ≡ first_lost (zipped (between op) left.items right.now) }
{
    let mut results = left;
    for at in 0..right.len() {
        let number = operate(op, results[at], right[at])?;
        results[at] = number;
    }
    Ok(results)
}

/// The operation between two forms, factor by factor and then between the constants, or the first
/// result that doesn't fit.
#[tactic(auto, using(crate::proofs::Zips::lost_factors, crate::proofs::Zips::lost_constant))]
pub fn fold(op: Op, left: Dense, right: &Dense) -> Result<Dense, Lost>
    requires same { length left.factors ≡ length right.now.factors }
    requires divisors { op ≡ operation.Div → AllByRecursion (λ b. b ≢ whole 0) right.now.factors }
    requires divisor { op ≡ operation.Div → right.now.constant ≢ whole 0 }
    ensures value { IfOk result (λ r. r ≡ folded_form op left right.now) }
    ensures lost { result_err result ≡ first_lost (folded_by op left right.now) }
{
    let constant = left.constant;
    match pointwise(op, left.factors.into_vec(), right.factors.items()) {
        Err(lost) => Err(lost),
        Ok(factors) => match operate(op, constant, right.constant) {
            Err(lost) => Err(lost),
            Ok(constant) => Ok(Dense {
                factors: List::of(factors),
                constant,
            }),
        },
    }
}

/// The form whose constant stands at each name too, beside which a product or a quotient goes name
/// by name.
pub fn spread(alloc: Global, form: &Dense) -> Result<Dense, AllocError>
    ensures { IfOk result (λ r. r ≡ spread form.now) }
{
    let mut factors = Vec::with_capacity(alloc, form.factors.items().len())?;
    for _ in form.factors.items() {
        factors.push(form.constant)?;
    }
    Ok(Dense {
        factors: List::of(factors),
        constant: form.constant,
    })
}

// Whether the number is 0.
#[tactic(auto, unfolding(hys_meaning::specs::Folding::is_zero))]
fn is_zero(number: Frac) -> bool
    ensures { result ≡ is_zero number }
{
    number.num() == 0
}

/// Whether no name has a factor.
pub fn is_constant(form: &Dense) -> bool
    ensures { result ≡ list_all is_zero form.now.factors }
{
    form.factors.items().iter().all(|f| is_zero(*f))
}

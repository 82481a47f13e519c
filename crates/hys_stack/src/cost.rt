//! The cost of a stacked problem, and the sum of its plain bound.

ghost use Rattle.std.specs.Prelude.{◌≡◌, ◌<◌, ◌^◌, ◌++◌, if◌then◌else◌, is_ok, length, All, IfOk};
ghost use Rattle.std.specs.Result.{result_err};
ghost use Rattle.hys_number.specs.Ops.{◌+ₙ◌, ◌*ₙ◌, whole};
ghost use Rattle.hys_lin.specs.Over.{AreTermsOver};
ghost use Rattle.hys_lin.specs.Operations.{first_lost};
ghost use Rattle.hys_lin.specs.Scaled.{kept};
ghost use Rattle.hys_relax.specs.Bound.{lesser_end, least_product};
ghost use Rattle.hys_stack.specs.Numbers.{AnswersFirst, term_operations, form_operations, add_form, output_operations, add_outputs, add_constants, step_coefficients, cost_coefficients, cost_constant, one_step_operations, step_operations, plain_operations, least_operations};
ghost use Rattle.hys_stack.specs.Terms.{terms_from};

use crate::fault::StackFault;
use crate::request::Request;
use hys_base::List;
use hys_frac::Frac;
use hys_lin::{Affine, Interval, Lost, Term, add_product};
use hys_sys::{Output, System};
use std::alloc::{AllocError, AllocFailed, Global};

// Adds the weight times each factor to the sum of its column.
fn add_terms(sums: &mut Vec<Frac>, weight: Frac, terms: &[Term]) -> Result<(), Lost>
    requires terms { AreTermsOver (length sums.old.items) terms.now }
    ensures sums { IfOk result (λ _. sums.new.items ≡ add_form weight terms.now 0 sums.old.items) }
    ensures lost { result_err result ≡ first_lost (term_operations weight sums.old.items terms.now) }
{
    for term in terms {
        let column = term.column as usize;
        sums[column] = add_product(sums[column], weight, term.factor)?;
    }
    Ok(())
}

// Adds the weight times a form to the sums of the columns, and answers the constant with its own.
fn add_form(sums: &mut Vec<Frac>, constant: Frac, weight: Frac, form: &Affine) -> Result<Frac, Lost>
    requires terms { AreTermsOver (length sums.old.items) form.now.terms }
    ensures sums { IfOk result (λ _. sums.new.items ≡ add_form weight form.now.terms 0 sums.old.items) }
    ensures constant { IfOk result (λ k. k ≡ constant +ₙ weight *ₙ form.now.constant) }
    ensures lost { result_err result ≡ first_lost (form_operations weight sums.old.items constant form.now) }
{
    add_terms(sums, weight, form.terms.items())?;
    add_product(constant, weight, form.constant)
}

// Adds the weights times the forms of the outputs to the sums of the columns, and answers the constant
// with theirs.
fn add_outputs(
    sums: &mut Vec<Frac>,
    constant: Frac,
    weights: &[Frac],
    outputs: &[Output],
) -> Result<Frac, Lost>
    requires outputs { All (λ o. AreTermsOver (length sums.old.items) o.form.terms) outputs.now }
    requires long { length weights.now ≡ length outputs.now }
    ensures sums { IfOk result (λ _. sums.new.items ≡ add_outputs weights.now outputs.now sums.old.items) }
    ensures constant { IfOk result (λ k. k ≡ add_constants weights.now outputs.now constant) }
    ensures lost { result_err result ≡ first_lost (output_operations sums.old.items constant weights.now outputs.now) }
{
    let mut constant = constant;
    for i in 0..outputs.len() {
        constant = add_form(sums, constant, weights[i], &outputs[i].form)?;
    }
    Ok(constant)
}

// Appends the coefficients of a step's columns, and answers the constant with that of the step.
fn push_step(
    alloc: Global,
    out: &mut Vec<Frac>,
    constant: Frac,
    system: &System,
    request: &Request,
) -> Result<Frac, StackFault>
    requires outputs { All (λ o. AreTermsOver (length request.now.step_cost) o.form.terms) system.now.outputs }
    requires long { length request.now.output_cost ≡ length system.now.outputs }
    ensures sums { IfOk result (λ _. out.new.items ≡ out.old.items ++ step_coefficients system.now request.now 0) }
    ensures constant { IfOk result (λ k. k ≡ add_constants request.now.output_cost system.now.outputs constant) }
    ensures lost { AnswersFirst result (one_step_operations system.now request.now constant) }
{
    let mut sums = Vec::from_slice(alloc, request.step_cost.items())?;
    let constant = add_outputs(
        &mut sums,
        constant,
        request.output_cost.items(),
        system.outputs.items(),
    )?;
    out.extend_from_slice(&sums)?;
    Ok(constant)
}

/// The coefficient of each stacked column, and the constant of the cost.
pub fn sum_cost(
    alloc: Global,
    system: &System,
    request: &Request,
) -> Result<(Vec<Frac>, Frac), StackFault>
    requires outputs { All (λ o. AreTermsOver (length request.now.step_cost) o.form.terms) system.now.outputs }
    requires long { length request.now.output_cost ≡ length system.now.outputs }
    ensures sums { IfOk result (λ s. s.0.items ≡ cost_coefficients system.now request.now) }
    ensures constant { IfOk result (λ s. s.1 ≡ cost_constant system.now request.now) }
    ensures lost { AnswersFirst result (step_operations system.now request.now request.now.horizon (whole 0)) }
{
    let mut sums = Vec::new(alloc);
    let mut constant = Frac::whole(0);
    for step in 0..request.horizon {
        constant = push_step(alloc, &mut sums, constant, system, request)?;
    }
    sums.extend_from_slice(request.final_cost.items())?;
    Ok((sums, constant))
}

// The end of the box that makes the product with the factor less.
fn lesser_end(factor: Frac, bounds: Interval) -> Frac
    ensures { result ≡ lesser_end factor bounds }
{
    if factor.is_negative() {
        bounds.high
    } else {
        bounds.low
    }
}

// Adds the least product of the factor with a number of the box.
fn add_end(bound: Frac, factor: Frac, range: Interval) -> Result<Frac, Lost>
    ensures value { IfOk result (λ r. r ≡ bound +ₙ least_product factor range) }
    ensures lost { result_err result ≡ first_lost (least_operations bound factor range) }
{
    add_product(bound, factor, lesser_end(factor, range))
}

/// Adds up the plain bound: each coefficient times the end of its box that makes the product less.
pub fn check_bound(sums: &[Frac], constant: Frac, boxes: &[Interval]) -> Result<(), Lost>
    requires { length sums.now ≡ length boxes.now }
    ensures { result_err result ≡ first_lost (plain_operations sums.now constant boxes.now) }
{
    let mut bound = constant;
    for i in 0..boxes.len() {
        bound = add_end(bound, sums[i], boxes[i])?;
    }
    Ok(())
}

// Appends the term, unless its factor is 0.
fn push_kept(out: &mut Vec<Term>, column: u32, factor: Frac) -> Result<(), AllocFailed<Term>>
    ensures { out.new.items ≡ (if is_ok result then out.old.items ++ kept column factor else out.old.items) }
{
    if factor.is_zero() {
        return Ok(());
    }
    out.push(Term { column, factor })
}

/// The terms of the columns whose coefficients aren't 0.
#[tactic(auto, using(crate::proofs::Costs::terms_on))]
pub fn terms_of(alloc: Global, sums: &[Frac]) -> Result<List<Term>, AllocError>
    requires { length sums.now < 2 ^ 32 }
    ensures { IfOk result (λ terms. terms ≡ terms_from 0 sums.now) }
{
    let mut terms = Vec::new(alloc);
    for i in 0..sums.len() {
        push_kept(&mut terms, i as u32, sums[i])?;
    }
    Ok(List::of(terms))
}

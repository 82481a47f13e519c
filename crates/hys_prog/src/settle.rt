ghost use Rattle.std.specs.Prelude.{◌≡◌, IfOk};
ghost use Rattle.hys_lin.specs.Sums.{at, value as value_of};
ghost use Rattle.hys_lin.specs.Bits.{bit as bit_of};
ghost use Rattle.hys_number.specs.Ops.{whole};
ghost use Rattle.hys_prog.specs.declared.stop.Stop.TheVariants.{Must};
ghost use Rattle.hys_prog.specs.Stops.{Judged, body_checks, form_fits, guard_checks, most_checks, zero_checks, no_gap, one, number_of, at_most};

use crate::number::{bit, evaluated, truth};
use crate::program::Body;
use crate::stop::{StepFault, Stop};
use hys_frac::Frac;
use hys_lin::Affine;

// The number that the body gives its name or demands something of, with the place of its item; or
// the first of its numbers that doesn't fit, and then the gap or the demand that doesn't hold.
pub fn settle(body: &Body, item: u32, values: &[Frac]) -> Result<Frac, StepFault>
    ensures value { IfOk result (λ r. r ≡ number_of (at values.now) body.now) }
    ensures judged { Judged (body_checks (at values.now) item body.now) result }
{
    match body {
        Body::Guard { number, eps } => guard(number, *eps, item, values),
        Body::Choice { when, hit, other } => {
            if truth(when, values) {
                form_at(hit, item, values)
            } else {
                form_at(other, item, values)
            }
        }
        Body::Logic(formula) => Ok(bit(truth(formula, values))),
        Body::Linear(form) => form_at(form, item, values),
        Body::NextBool(formula) => Ok(bit(truth(formula, values))),
        Body::NextReal(form) => form_at(form, item, values),
        Body::OutBool(formula) => Ok(bit(truth(formula, values))),
        Body::OutReal(form) => form_at(form, item, values),
        Body::MustHold(formula) => {
            let held = truth(formula, values);
            demanded(held, bit(held), item)
        }
        Body::MustMost(form) => most(form, item, values),
        Body::MustZero(form) => zero(form, item, values),
    }
}

// The value of the form.
#[tactic(auto, using(crate::proofs::Stopping::fitting_none, crate::proofs::Stopping::fitting_some))]
fn form_at(form: &Affine, item: u32, values: &[Frac]) -> Result<Frac, StepFault>
    ensures value { IfOk result (λ r. r ≡ value_of form.now (at values.now)) }
    ensures judged { Judged (form_fits (at values.now) item form.now) result }
{
    match evaluated(form, values) {
        Ok(number) => Ok(number),
        Err(lost) => Err(StepFault::Stop(Stop::Range(item, lost))),
    }
}

// The number, where the demand on it holds.
fn demanded(held: bool, number: Frac, item: u32) -> Result<Frac, StepFault>
    ensures value { IfOk result (λ r. r ≡ number) }
    ensures judged { Judged (one held (Must item)) result }
{
    if held {
        Ok(number)
    } else {
        Err(StepFault::Stop(Stop::Must(item)))
    }
}

// The truth of the guard: 1 where its number is at most 0, and 0 where it is at least `eps`.
fn guard(form: &Affine, eps: Frac, item: u32, values: &[Frac]) -> Result<Frac, StepFault>
    ensures value { IfOk result (λ r. r ≡ bit_of (at_most (value_of form.now (at values.now)) (whole 0))) }
    ensures judged { Judged (guard_checks (at values.now) item form.now eps) result }
{
    match form_at(form, item, values) {
        Ok(number) => sided(number, eps, item),
        Err(fault) => Err(fault),
    }
}

// The truth of the guard number.
fn sided(number: Frac, eps: Frac, item: u32) -> Result<Frac, StepFault>
    ensures value { IfOk result (λ r. r ≡ bit_of (at_most number (whole 0))) }
    ensures judged { Judged (no_gap item eps number) result }
{
    if number <= Frac::whole(0) {
        return Ok(Frac::whole(1));
    }
    if eps <= number {
        return Ok(Frac::whole(0));
    }
    Err(StepFault::Stop(Stop::Gap(item)))
}

// The value of a form that is demanded to be at most 0.
fn most(form: &Affine, item: u32, values: &[Frac]) -> Result<Frac, StepFault>
    ensures value { IfOk result (λ r. r ≡ value_of form.now (at values.now)) }
    ensures judged { Judged (most_checks (at values.now) item form.now) result }
{
    match form_at(form, item, values) {
        Ok(number) => demanded(number <= Frac::whole(0), number, item),
        Err(fault) => Err(fault),
    }
}

// The value of a form that is demanded to be 0.
fn zero(form: &Affine, item: u32, values: &[Frac]) -> Result<Frac, StepFault>
    ensures value { IfOk result (λ r. r ≡ value_of form.now (at values.now)) }
    ensures judged { Judged (zero_checks (at values.now) item form.now) result }
{
    match form_at(form, item, values) {
        Ok(number) => demanded(number == Frac::whole(0), number, item),
        Err(fault) => Err(fault),
    }
}

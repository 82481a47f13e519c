ghost use Rattle.std.specs.Prelude.{◌≡◌, ◌<◌, ◌++◌, IfOk, length};
ghost use Rattle.std.specs.Result.{result_err};
ghost use Rattle.hys_lin.specs.Operations.{first_lost};
ghost use Rattle.hys_lin.specs.Sums.{EachColumn};
ghost use Rattle.hys_lin.specs.Ranges.{ranging};
ghost use Rattle.hys_bound.specs.Ranges.{defined_interval, asked, EachAsked, range, hull as hull_of, unit as unit_interval};

use hys_frac::Frac;
use hys_lin::{Affine, Interval, Lost, range_of};
use hys_prog::Body;

/// The interval of the auxiliary that the body defines, over the intervals of the names; or the
/// first product or partial sum that doesn't fit, of the guard number, the form, or the hit and
/// then the other form.
pub fn interval_of(body: &Body, boxes: &[Interval]) -> Result<Interval, Lost>
    requires { EachAsked (λ c. c < length boxes.now) body.now }
    ensures value { IfOk result (λ r. r ≡ defined_interval boxes.now body.now) }
    ensures lost { result_err result ≡ first_lost (asked boxes.now body.now) }
{
    match body {
        Body::Guard { number, eps: _ } => match range_of(number, boxes) {
            Ok(_) => Ok(unit()),
            Err(lost) => Err(lost),
        },
        Body::Choice {
            when: _,
            hit,
            other,
        } => hull_of_two(hit, other, boxes),
        Body::Logic(_) => Ok(unit()),
        Body::Linear(form) => range_of(form, boxes),
        Body::NextBool(_) => Ok(unit()),
        Body::NextReal(_) => Ok(unit()),
        Body::OutBool(_) => Ok(unit()),
        Body::OutReal(_) => Ok(unit()),
        Body::MustHold(_) => Ok(unit()),
        Body::MustMost(_) => Ok(unit()),
        Body::MustZero(_) => Ok(unit()),
    }
}

// The least interval that holds the ranges of both forms, of which that of `hit` is looked for
// first.
#[tactic(auto, using(crate::proofs::Turns::lost_after, crate::proofs::Turns::lost_before))]
fn hull_of_two(hit: &Affine, other: &Affine, boxes: &[Interval]) -> Result<Interval, Lost>
    requires hit { EachColumn (λ c. c < length boxes.now) hit.now.terms }
    requires other { EachColumn (λ c. c < length boxes.now) other.now.terms }
    ensures value { IfOk result (λ r. r ≡ hull_of (range boxes.now hit.now) (range boxes.now other.now)) }
    ensures lost { result_err result ≡ first_lost (ranging boxes.now hit.now ++ ranging boxes.now other.now) }
{
    let first = match range_of(hit, boxes) {
        Ok(first) => first,
        Err(lost) => return Err(lost),
    };
    match range_of(other, boxes) {
        Ok(second) => Ok(hull(first, second)),
        Err(lost) => Err(lost),
    }
}

// From 0 to 1.
fn unit() -> Interval
    ensures { result ≡ unit_interval }
{
    Interval {
        low: Frac::whole(0),
        high: Frac::whole(1),
    }
}

// The least interval that holds both.
fn hull(first: Interval, second: Interval) -> Interval
    ensures { result ≡ hull_of first second }
{
    Interval {
        low: if first.low <= second.low {
            first.low
        } else {
            second.low
        },
        high: if first.high <= second.high {
            second.high
        } else {
            first.high
        },
    }
}

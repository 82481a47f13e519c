//! The boxes of states and inputs.

ghost use Rattle.std.specs.Prelude.{◌≡◌, IfOk};
ghost use Rattle.std.specs.Result.{result_err};
ghost use Rattle.hys_ast.specs.Seen.{tree_of, decl_of};
ghost use Rattle.hys_meaning.specs.Typed.{has_box};
ghost use Rattle.hys_type.specs.Faults.{first_fault};
ghost use Rattle.hys_type.specs.Constants.{HasLiterals};
ghost use Rattle.hys_type.specs.Declarations.{ends_checks, bounds_checks, AreEnds, box_checks, box_of, usual_box, HasBoundLiterals};

use crate::constant::Known;
use crate::fault::TypeFault;
use crate::kinds::evaluate_as;
use hys_ast::{Decl, Expr, Kind, Place, Section};
use hys_frac::Frac;
use hys_lin::Interval;
use std::cmp::Ordering;

// The interval from the low end to the high one, which isn't below it.
fn interval(low: Frac, high: Frac, place: Place) -> Result<Interval, TypeFault>
    ensures fault { result_err result ≡ first_fault (ends_checks low high place) }
    ensures ends { IfOk result (λ i. (i.low ≡ low) × (i.high ≡ high)) }
{
    match Ord::cmp(&low, &high) {
        Ordering::Less | Ordering::Equal => Ok(Interval { low, high }),
        Ordering::Greater => Err(TypeFault::EmptyBounds(place, low, high)),
    }
}

#[tactic(auto, using(crate::proofs::Ends::low_end, crate::proofs::Ends::high_end, crate::proofs::Ends::both_ends))]
fn between(known: &[Known], low: &Expr, high: &Expr, place: Place) -> Result<Interval, TypeFault>
    requires low { HasLiterals (tree_of low.now) }
    requires high { HasLiterals (tree_of high.now) }
    ensures fault { result_err result ≡
        first_fault (bounds_checks known.now (tree_of low.now) (tree_of high.now) place) }
    ensures ends { IfOk result (AreEnds known.now (tree_of low.now) (tree_of high.now)) }
{
    let low = evaluate_as(known, Kind::Real, low)?;
    let high = evaluate_as(known, Kind::Real, high)?;
    interval(low, high, place)
}

fn has_box(decl: &Decl) -> bool
    ensures { result ≡ has_box (decl_of decl.now) }
{
    matches!(decl.section, Section::State | Section::Input) && matches!(decl.kind, Kind::Real)
}

fn usual_box(kind: Kind) -> Interval
    ensures { result ≡ usual_box kind }
{
    let high = match kind {
        Kind::Real => Frac::whole(0),
        Kind::Bool => Frac::whole(1),
    };
    Interval {
        low: Frac::whole(0),
        high,
    }
}

/// The box of a declared name, or the fault of its bounds. That of a Boolean name is 0 to 1, and 0 to
/// 0 stands for a real name that is no state and no input.
pub fn box_of(known: &[Known], decl: &Decl) -> Result<Interval, TypeFault>
    requires { HasBoundLiterals (decl_of decl.now) }
    ensures fault { result_err result ≡ first_fault (box_checks known.now (decl_of decl.now)) }
    ensures ends { IfOk result (λ i. i ≡ box_of known.now (decl_of decl.now)) }
{
    if !has_box(decl) {
        return Ok(usual_box(decl.kind));
    }
    match &decl.low {
        None => Err(TypeFault::NoBounds(decl.place)),
        Some(low) => match &decl.high {
            None => Err(TypeFault::NoBounds(decl.place)),
            Some(high) => between(known, low, high, decl.place),
        },
    }
}

//! Constant expressions of a wanted kind.

ghost use Rattle.std.specs.Prelude.{◌≡◌, IfOk};
ghost use Rattle.std.specs.Result.{result_err};
ghost use Rattle.hys_lin.specs.Bits.{bit};
ghost use Rattle.hys_ast.specs.Seen.{tree_of};
ghost use Rattle.hys_meaning.specs.Values.{given};
ghost use Rattle.hys_type.specs.Faults.{first_fault};
ghost use Rattle.hys_type.specs.Constants.{known_values, IsNumberOf, HasLiterals};
ghost use Rattle.hys_type.specs.Declarations.{place_of, kind_checks, constant_of_kind};

use crate::constant::{Constant, Known, evaluate};
use crate::fault::TypeFault;
use hys_ast::{Expr, Kind, Place};
use hys_frac::Frac;

pub fn place_of(whole: &Expr) -> Place
    ensures { result ≡ place_of (tree_of whole.now) }
{
    match whole {
        Expr::Number(_, place)
        | Expr::Name(_, place)
        | Expr::Truth(_, place)
        | Expr::Cast(_, place)
        | Expr::Unary(_, _, place)
        | Expr::Binary(_, _, _, place) => *place,
    }
}

fn bit(truth: bool) -> Frac
    ensures { result ≡ bit truth }
{
    if truth {
        Frac::whole(1)
    } else {
        Frac::whole(0)
    }
}

fn number_of(kind: Kind, constant: Constant, place: Place) -> Result<Frac, TypeFault>
    ensures fault { result_err result ≡ first_fault (kind_checks kind constant place) }
    ensures number { IfOk result (λ n. IsNumberOf kind constant n) }
{
    match kind {
        Kind::Real => match constant {
            Constant::Real(number) => Ok(number),
            Constant::Bool(_) => Err(TypeFault::Kind(place)),
        },
        Kind::Bool => match constant {
            Constant::Real(_) => Err(TypeFault::Kind(place)),
            Constant::Bool(truth) => Ok(bit(truth)),
        },
    }
}

/// The number that a constant expression gives to a name of the kind, or the fault of the first of
/// its nodes that has one, or of the whole where it isn't of the kind.
#[tactic(auto, using(crate::proofs::Numbers::before_kind, crate::proofs::Numbers::of_kind, crate::proofs::Numbers::given_is))]
pub fn evaluate_as(known: &[Known], kind: Kind, whole: &Expr) -> Result<Frac, TypeFault>
    requires { HasLiterals (tree_of whole.now) }
    ensures fault { result_err result ≡ first_fault (constant_of_kind kind known.now (tree_of whole.now)) }
    ensures number { IfOk result (λ n. n ≡ given kind (known_values known.now) (tree_of whole.now)) }
{
    let constant = evaluate(known, whole)?;
    number_of(kind, constant, place_of(whole))
}

//! The expressions of items, in their places.

ghost use Rattle.std.specs.Prelude.{◌≡◌, [], ◌∷◌, IfOk, map, cond, true};
ghost use Rattle.hys_ast.specs.Seen.{tree_of};
ghost use Rattle.hys_ast.specs.declared.source.Kind.TheVariants as kind;
ghost use Rattle.hys_meaning.specs.Forms.{form};
ghost use Rattle.hys_meaning.specs.Typed.{is_comparison};
ghost use Rattle.hys_meaning.specs.Unfolded.{is_inequality};
ghost use Rattle.hys_meaning.specs.Values.{value};
ghost use Rattle.hys_type.specs.Sorts.{is_bool, is_real};
ghost use Rattle.hys_type.specs.Faults.{Answers, first_fault, check};
ghost use Rattle.hys_type.specs.Constants.{HasLiterals, known_values};
ghost use Rattle.hys_type.specs.Dense.{IsDense};
ghost use Rattle.hys_type.specs.Checks.{expression, of_kind, demanded, has_top, is_less, above_zero_checks, tolerance_checks};
ghost use Rattle.std.specs.Result.{result_err};
ghost use Rattle.hys_number.specs.Ops.{whole};
ghost use Rattle.hys_frac.specs.Compare.{number_cmp};
ghost use Rattle.hys_type.specs.declared.fault.TypeFault.TheVariants as fault;
ghost use Rattle.hys_type.specs.declared.node.Node.TheVariants as node;
ghost use Rattle.hys_type.specs.Operands.{seen, node_sort};

use crate::constant::Known;
use crate::dense::Dense;
use crate::fault::TypeFault;
use crate::kinds::{evaluate_as, place_of};
use crate::node::{Node, read};
use crate::scope::Scope;
use hys_ast::{BinaryOp, Expr, Kind, Place};
use hys_frac::Frac;
use std::alloc::Global;
use std::cmp::Ordering;

// The form of a real node.
fn form_of(found: Node, place: Place) -> Result<Dense, TypeFault>
    ensures fault { result_err result ≡ first_fault (check (is_real (node_sort found)) (fault.Kind place) ∷ []) }
    ensures form { IfOk result (λ d. found ≡ node.Real d) }
{
    match found {
        Node::Real(form) => Ok(form),
        Node::Bool | Node::Neither => Err(TypeFault::Kind(place)),
    }
}

/// The form of a real expression, or the fault of the first of its nodes that has one, or of the
/// whole where it isn't real.
#[tactic(auto, using(crate::proofs::Rights::nodes_first, crate::proofs::Rights::top_last, crate::proofs::Rights::real_form))]
pub fn read_real(alloc: Global, scope: &Scope, whole: &Expr) -> Result<Dense, TypeFault>
    requires { HasLiterals (tree_of whole.now) }
    ensures fault { Answers result (of_kind kind.Real (map seen scope.now) (tree_of whole.now)) }
    ensures form { IfOk result (λ d. IsDense (map seen scope.now) (form (map seen scope.now) (tree_of whole.now)) d) }
{
    let found = read(alloc, scope, whole)?;
    form_of(found, place_of(whole))
}

// Whether the expression suits its place.
fn check_top(suits: bool, place: Place) -> Result<(), TypeFault>
    ensures { result_err result ≡ first_fault (check suits (fault.Kind place) ∷ []) }
{
    if suits {
        Ok(())
    } else {
        Err(TypeFault::Kind(place))
    }
}

fn is_formula(found: &Node) -> bool
    ensures { result ≡ is_bool (node_sort found.now) }
{
    matches!(found, Node::Bool)
}

/// The fault of a formula: of the first of its nodes that has one, or of the whole where it is none.
#[tactic(auto, using(crate::proofs::Rights::nodes_first, crate::proofs::Rights::top_last))]
pub fn check_formula(alloc: Global, scope: &Scope, whole: &Expr) -> Result<(), TypeFault>
    requires { HasLiterals (tree_of whole.now) }
    ensures { Answers result (of_kind kind.Bool (map seen scope.now) (tree_of whole.now)) }
{
    let found = read(alloc, scope, whole)?;
    check_top(is_formula(&found), place_of(whole))
}

pub fn is_inequality(op: BinaryOp) -> bool
    ensures { result ≡ is_inequality op }
{
    matches!(op, BinaryOp::Most | BinaryOp::Least)
}

/// Whether a comparison by `<=` or `>=` stands at the top.
pub fn is_guard(whole: &Expr) -> bool
    ensures { result ≡ has_top is_inequality (tree_of whole.now) }
{
    match whole {
        Expr::Binary(op, _, _, _) => is_inequality(*op),
        Expr::Number(_, _)
        | Expr::Name(_, _)
        | Expr::Truth(_, _)
        | Expr::Cast(_, _)
        | Expr::Unary(_, _, _) => false,
    }
}

fn is_comparison(op: BinaryOp) -> bool
    ensures { result ≡ is_comparison op }
{
    matches!(op, BinaryOp::Most | BinaryOp::Least | BinaryOp::Equal)
}

/// Whether a comparison stands at the top.
pub fn compares(whole: &Expr) -> bool
    ensures { result ≡ has_top is_comparison (tree_of whole.now) }
{
    match whole {
        Expr::Binary(op, _, _, _) => is_comparison(*op),
        Expr::Number(_, _)
        | Expr::Name(_, _)
        | Expr::Truth(_, _)
        | Expr::Cast(_, _)
        | Expr::Unary(_, _, _) => false,
    }
}

/// The fault of a guard's comparison.
#[tactic(auto, using(crate::proofs::Rights::nodes_first, crate::proofs::Rights::top_last))]
pub fn check_guard(alloc: Global, scope: &Scope, whole: &Expr) -> Result<(), TypeFault>
    requires { HasLiterals (tree_of whole.now) }
    ensures { Answers result (expression (map seen scope.now) (has_top is_inequality) (tree_of whole.now)) }
{
    read(alloc, scope, whole)?;
    check_top(is_guard(whole), place_of(whole))
}

fn may_be_demanded(found: &Node, whole: &Expr) -> bool
    ensures { result ≡ cond (has_top is_comparison (tree_of whole.now)) true (is_bool (node_sort found.now)) }
{
    if compares(whole) {
        return true;
    }
    is_formula(found)
}

/// The fault of what a MUST item demands: a formula or a comparison.
#[tactic(auto, using(crate::proofs::Rights::nodes_first, crate::proofs::Rights::top_last))]
pub fn check_demand(alloc: Global, scope: &Scope, whole: &Expr) -> Result<(), TypeFault>
    requires { HasLiterals (tree_of whole.now) }
    ensures { Answers result (expression (map seen scope.now) (demanded (map seen scope.now)) (tree_of whole.now)) }
{
    let found = read(alloc, scope, whole)?;
    check_top(may_be_demanded(&found, whole), place_of(whole))
}

fn is_above_zero(number: Frac) -> bool
    ensures { result ≡ is_less (number_cmp (whole 0) number) }
{
    matches!(Ord::cmp(&Frac::whole(0), &number), Ordering::Less)
}

fn positive(tolerance: Frac, place: Place) -> Result<Frac, TypeFault>
    ensures fault { result_err result ≡ first_fault (above_zero_checks tolerance place) }
    ensures number { IfOk result (λ n. n ≡ tolerance) }
{
    if is_above_zero(tolerance) {
        Ok(tolerance)
    } else {
        Err(TypeFault::Tolerance(place, tolerance))
    }
}

/// The number of a tolerance, which is constant and above 0.
#[tactic(auto, using(crate::proofs::Rights::tolerance_first, crate::proofs::Rights::tolerance_last))]
pub fn read_tolerance(known: &[Known], place: Place, whole: &Expr) -> Result<Frac, TypeFault>
    requires { HasLiterals (tree_of whole.now) }
    ensures fault { result_err result ≡ first_fault (tolerance_checks known.now place (tree_of whole.now)) }
    ensures number { IfOk result (λ n. n ≡ value (known_values known.now) (tree_of whole.now)) }
{
    let tolerance = evaluate_as(known, Kind::Real, whole)?;
    positive(tolerance, place)
}

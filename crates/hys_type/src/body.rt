//! The bodies of a program's items.

ghost use Rattle.std.specs.Prelude.{◌≡◌, map, true, Some, IfOk};
ghost use Rattle.hys_ast.specs.Seen.{tree_of, maybe_tree_of, item_of};
ghost use Rattle.hys_meaning.specs.Unfolded.{is_inequality};
ghost use Rattle.hys_type.specs.Constants.{HasLiterals};
ghost use Rattle.hys_type.specs.Declarations.{HaveLiterals};
ghost use Rattle.hys_type.specs.Checks.{has_top, HasItemLiterals};
ghost use Rattle.hys_type.specs.Operands.{seen};
ghost use Rattle.hys_type.specs.Translation.{left_kind};
ghost use Rattle.hys_type.specs.Scopes.{IsGuardForm, IsElseForm, IsBodyIn, FollowItem, IsOutputIn, FollowOutput, IsDemandIn, FollowDemand, IsComparisonIn, IsPlainIn, FollowPlain, IsWideIn, HasNoGuard, IsChoiceIn, FollowChoice};

use crate::built::{Guard, affine, difference, formula, guard_number};
use crate::constant::Known;
use crate::fault::TypeFault;
use crate::kinds::place_of;
use crate::right::{compares, is_inequality, read_tolerance};
use crate::scope::{Scope, look};
use hys_ast::{BinaryOp, Expr, Item, Kind, Section, Shape};
use hys_base::{List, Text};
use hys_frac::Frac;
use hys_lin::Affine;
use hys_prog::Body;
use std::alloc::Global;

// The guard number of a comparison that stands at the top.
fn top_number(alloc: Global, scope: &Scope, whole: &Expr) -> Result<Affine, TypeFault>
    requires { HasLiterals (tree_of whole.now) }
    ensures top { IfOk result (λ _. has_top is_inequality (tree_of whole.now) ≡ true) }
    ensures number { IfOk result (λ f. IsGuardForm (map seen scope.now) (tree_of whole.now) f) }
{
    match whole {
        Expr::Binary(op, left, right, place) => {
            if !is_inequality(*op) {
                return Err(TypeFault::Kind(*place));
            }
            guard_number(alloc, scope, *op, left, right, *place)
        }
        Expr::Number(_, place)
        | Expr::Name(_, place)
        | Expr::Truth(_, place)
        | Expr::Cast(_, place)
        | Expr::Unary(_, _, place) => Err(TypeFault::Kind(*place)),
    }
}

// The kind of the left name.
fn left_kind(scope: &Scope, left: &Option<Text>) -> Option<Kind>
    ensures { result ≡ left_kind (map seen scope.now) left.now }
{
    match left {
        None => None,
        Some(name) => match look(scope, name) {
            None => None,
            Some(found) => Some(found.kind),
        },
    }
}

#[tactic(auto, using(crate::proofs::Bodies::out_bool_built, crate::proofs::Bodies::out_real_built, crate::proofs::Guards::none_followed))]
fn body_of_kind(
    alloc: Global,
    scope: &Scope,
    known: &[Known],
    eps: Frac,
    first: usize,
    guards: &mut Vec<Guard>,
    kind: Kind,
    whole: &Expr,
) -> Result<Body, TypeFault>
    requires { HasLiterals (tree_of whole.now) }
    ensures body { IfOk result (IsOutputIn scope.now known.now eps first guards.old (Some kind) whole.now) }
    ensures guards { IfOk result (λ _. FollowOutput scope.now guards.old (Some kind) whole.now guards.new) }
{
    match kind {
        Kind::Bool => Ok(Body::OutBool(formula(alloc, scope, first, guards, whole)?)),
        Kind::Real => Ok(Body::OutReal(affine(alloc, scope, whole)?)),
    }
}

fn output_body(
    alloc: Global,
    scope: &Scope,
    known: &[Known],
    eps: Frac,
    first: usize,
    guards: &mut Vec<Guard>,
    kind: Option<Kind>,
    whole: &Expr,
) -> Result<Body, TypeFault>
    requires { HasLiterals (tree_of whole.now) }
    ensures body { IfOk result (IsOutputIn scope.now known.now eps first guards.old kind whole.now) }
    ensures guards { IfOk result (λ _. FollowOutput scope.now guards.old kind whole.now guards.new) }
{
    match kind {
        None => Err(TypeFault::Kind(place_of(whole))),
        Some(kind) => body_of_kind(alloc, scope, known, eps, first, guards, kind, whole),
    }
}

// The body of a comparison that is demanded.
fn comparison_body(
    alloc: Global,
    scope: &Scope,
    known: &[Known],
    eps: Frac,
    kind: Option<Kind>,
    whole: &Expr,
) -> Result<Body, TypeFault>
    requires { HasLiterals (tree_of whole.now) }
    ensures { IfOk result (IsComparisonIn scope.now known.now eps kind whole.now) }
{
    match whole {
        Expr::Binary(op, left, right, place) => {
            if is_inequality(*op) {
                return Ok(Body::MustMost(guard_number(alloc, scope, *op, left, right, *place)?));
            }
            match op {
                BinaryOp::Equal => {
                    Ok(Body::MustZero(difference(alloc, scope, left, right, *place)?))
                }
                BinaryOp::Add
                | BinaryOp::Sub
                | BinaryOp::Mul
                | BinaryOp::Div
                | BinaryOp::And
                | BinaryOp::Or
                | BinaryOp::Iff
                | BinaryOp::Then
                | BinaryOp::From
                | BinaryOp::Most
                | BinaryOp::Least => Err(TypeFault::Kind(*place)),
            }
        }
        Expr::Number(_, place)
        | Expr::Name(_, place)
        | Expr::Truth(_, place)
        | Expr::Cast(_, place)
        | Expr::Unary(_, _, place) => Err(TypeFault::Kind(*place)),
    }
}

#[tactic(auto, using(crate::proofs::Bodies::must_hold_built, crate::proofs::Guards::none_followed))]
fn demand(
    alloc: Global,
    scope: &Scope,
    known: &[Known],
    eps: Frac,
    first: usize,
    guards: &mut Vec<Guard>,
    kind: Option<Kind>,
    whole: &Expr,
) -> Result<Body, TypeFault>
    requires { HasLiterals (tree_of whole.now) }
    ensures body { IfOk result (IsDemandIn scope.now known.now eps first guards.old kind whole.now) }
    ensures guards { IfOk result (λ _. FollowDemand scope.now guards.old kind whole.now guards.new) }
{
    if compares(whole) {
        return comparison_body(alloc, scope, known, eps, kind, whole);
    }
    Ok(Body::MustHold(formula(alloc, scope, first, guards, whole)?))
}

// The body of a right side that is one expression.
#[tactic(auto, using(crate::proofs::Bodies::guard_built, crate::proofs::Bodies::logic_built, crate::proofs::Bodies::linear_built, crate::proofs::Bodies::next_bool_built, crate::proofs::Bodies::next_real_built, crate::proofs::Guards::none_followed))]
fn plain_body(
    alloc: Global,
    scope: &Scope,
    known: &[Known],
    eps: Frac,
    first: usize,
    guards: &mut Vec<Guard>,
    item: &Item,
    whole: &Expr,
) -> Result<Body, TypeFault>
    requires { HasLiterals (tree_of whole.now) }
    ensures body { IfOk result (IsPlainIn scope.now known.now eps first guards.old item.now whole.now) }
    ensures guards { IfOk result (λ _. FollowPlain scope.now guards.old item.now whole.now guards.new) }
{
    match item.section {
        Section::Ad => Ok(Body::Guard {
            number: top_number(alloc, scope, whole)?,
            eps,
        }),
        Section::Logic => Ok(Body::Logic(formula(alloc, scope, first, guards, whole)?)),
        Section::Linear => Ok(Body::Linear(affine(alloc, scope, whole)?)),
        Section::Automata => Ok(Body::NextBool(formula(alloc, scope, first, guards, whole)?)),
        Section::Continuous => Ok(Body::NextReal(affine(alloc, scope, whole)?)),
        Section::OutputItem => {
            let kind = left_kind(scope, &item.name);
            output_body(alloc, scope, known, eps, first, guards, kind, whole)
        }
        Section::Must => {
            let kind = left_kind(scope, &item.name);
            demand(alloc, scope, known, eps, first, guards, kind, whole)
        }
        Section::State
        | Section::Input
        | Section::Output
        | Section::Parameter
        | Section::Aux
        | Section::Da => Err(TypeFault::WrongSection(item.place)),
    }
}

// The body of a comparison with its own tolerance.
#[tactic(auto, using(crate::proofs::Bodies::wide_built))]
fn wide_body(
    alloc: Global,
    scope: &Scope,
    known: &[Known],
    eps: Frac,
    item: &Item,
    whole: &Expr,
    tolerance: &Expr,
) -> Result<Body, TypeFault>
    requires whole { HasLiterals (tree_of whole.now) }
    requires tolerance { HasLiterals (tree_of tolerance.now) }
    ensures body { IfOk result (IsWideIn scope.now known.now eps item.now whole.now tolerance.now) }
    ensures guards { HasNoGuard scope.now item.now whole.now tolerance.now }
{
    match item.section {
        Section::Ad => {
            let number = top_number(alloc, scope, whole)?;
            let own = read_tolerance(known, item.place, tolerance)?;
            Ok(Body::Guard { number, eps: own })
        }
        Section::State
        | Section::Input
        | Section::Output
        | Section::Parameter
        | Section::Aux
        | Section::Da
        | Section::Logic
        | Section::Linear
        | Section::Automata
        | Section::Continuous
        | Section::OutputItem
        | Section::Must => Err(TypeFault::WrongSection(item.place)),
    }
}

// The form of an ELSE, or 0.
#[tactic(auto, using(crate::proofs::Bodies::no_else))]
fn else_affine(alloc: Global, scope: &Scope, other: &Option<Expr>) -> Result<Affine, TypeFault>
    requires { HaveLiterals (maybe_tree_of other.now) }
    ensures { IfOk result (λ f. IsElseForm (map seen scope.now) (maybe_tree_of other.now) f) }
{
    match other {
        None => Ok(Affine {
            terms: List::of(Vec::new(alloc)),
            constant: Frac::whole(0),
        }),
        Some(whole) => affine(alloc, scope, whole),
    }
}

// The body of a choice.
#[tactic(auto, using(crate::proofs::Bodies::choice_built))]
fn choice_body(
    alloc: Global,
    scope: &Scope,
    known: &[Known],
    eps: Frac,
    first: usize,
    guards: &mut Vec<Guard>,
    item: &Item,
    when: &Expr,
    hit: &Expr,
    other: &Option<Expr>,
) -> Result<Body, TypeFault>
    requires when { HasLiterals (tree_of when.now) }
    requires hit { HasLiterals (tree_of hit.now) }
    requires other { HaveLiterals (maybe_tree_of other.now) }
    ensures body { IfOk result
        (IsChoiceIn scope.now known.now eps first guards.old item.now when.now hit.now other.now) }
    ensures guards { IfOk result (λ _.
        FollowChoice scope.now guards.old item.now when.now hit.now other.now guards.new) }
{
    match item.section {
        Section::Da => {
            let when = formula(alloc, scope, first, guards, when)?;
            let hit = affine(alloc, scope, hit)?;
            let other = else_affine(alloc, scope, other)?;
            Ok(Body::Choice { when, hit, other })
        }
        Section::State
        | Section::Input
        | Section::Output
        | Section::Parameter
        | Section::Aux
        | Section::Ad
        | Section::Logic
        | Section::Linear
        | Section::Automata
        | Section::Continuous
        | Section::OutputItem
        | Section::Must => Err(TypeFault::WrongSection(item.place)),
    }
}

/// The body of an item. Its unnamed guards are put behind those before.
#[tactic(auto, using(crate::proofs::Bodies::no_guards))]
pub fn body_of(
    alloc: Global,
    scope: &Scope,
    known: &[Known],
    eps: Frac,
    first: usize,
    guards: &mut Vec<Guard>,
    item: &Item,
) -> Result<Body, TypeFault>
    requires { HasItemLiterals (item_of item.now) }
    ensures body { IfOk result (IsBodyIn scope.now known.now eps first guards.old item.now) }
    ensures guards { IfOk result (λ _. FollowItem scope.now guards.old item.now guards.new) }
{
    match &item.shape {
        Shape::Plain(whole) => plain_body(alloc, scope, known, eps, first, guards, item, whole),
        Shape::Wide(whole, tolerance) => {
            wide_body(alloc, scope, known, eps, item, whole, tolerance)
        }
        Shape::Choice(when, hit, other) => {
            choice_body(
                alloc, scope, known, eps, first, guards, item, when, hit, other,
            )
        }
    }
}

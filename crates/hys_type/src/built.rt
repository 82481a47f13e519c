//! What is built of the expressions of items.

ghost use Rattle.std.specs.Prelude.{◌≡◌, ◌+◌, ◌++◌, map, length, true, IfOk};
ghost use Rattle.hys_lin.specs.Scaled.{kept};
ghost use Rattle.hys_lin.specs.Bits.{is_one};
ghost use Rattle.hys_ast.specs.Seen.{tree_of};
ghost use Rattle.hys_meaning.specs.Forms.{form};
ghost use Rattle.hys_meaning.specs.Unfolded.{is_inequality};
ghost use Rattle.hys_formula.specs.Formulas.{tree_of as formula_of};
ghost use Rattle.hys_formula.specs.Formulas as formulas;
ghost use Rattle.hys_type.specs.Constants.{HasLiterals};
ghost use Rattle.hys_type.specs.Operands.{seen};
ghost use Rattle.hys_type.specs.Translation.{IsFormOf, signed_by, joined_by, connective_of};
ghost use Rattle.hys_type.specs.Built.{sparse, own_formula};
ghost use Rattle.hys_type.specs.Scopes.{IsDifference, IsFormBetween, built_behind, FollowFormula, FollowGuard};

use crate::dense::Dense;
use crate::fault::TypeFault;
use crate::node::folded;
use crate::right::{is_inequality, read_real};
use crate::scope::{Scope, is_parameter, look, place_in};
use hys_ast::{BinaryOp, Expr, Place, UnaryOp};
use hys_base::{List, Text};
use hys_formula::{Connective, Formula};
use hys_frac::Frac;
use hys_lin::{Affine, Op, Term};
use std::alloc::Global;

/// An unnamed guard: its guard number, and the place of its sign.
#[derive(Debug, Drop)]
pub struct Guard {
    pub number: Affine,
    pub place: Place,
}

// ---- forms

/// The column at a place.
pub fn column_at(place: usize) -> Result<u32, TypeFault>
    ensures { IfOk result (λ c. c ≡ place) }
{
    if place < 4294967296 {
        Ok(place as u32)
    } else {
        Err(TypeFault::Limit)
    }
}

// Appends the term, unless its factor is 0.
fn push(out: &mut Vec<Term>, at: usize, factor: Frac) -> Result<(), TypeFault>
    ensures { IfOk result (λ _. out.new.items ≡ out.old.items ++ kept at factor) }
{
    if factor.is_zero() {
        return Ok(());
    }
    out.push(Term {
        column: column_at(at)?,
        factor,
    })?;
    Ok(())
}

/// The form with its terms alone.
#[tactic(auto, using(crate::proofs::SparseForms::sparse_here, crate::proofs::SparseForms::sparse_end))]
pub fn sparse(alloc: Global, form: &Dense) -> Result<Affine, TypeFault>
    ensures { IfOk result (λ f. f ≡ sparse form.now) }
{
    let factors = form.factors.items();
    let mut terms = Vec::new(alloc);
    for at in 0..factors.len() {
        push(&mut terms, at, factors[at])?;
    }
    Ok(Affine {
        terms: List::of(terms),
        constant: form.constant,
    })
}

/// The affine form of a real expression.
#[tactic(auto, using(crate::proofs::SparseForms::sparse_is))]
pub fn affine(alloc: Global, scope: &Scope, whole: &Expr) -> Result<Affine, TypeFault>
    requires { HasLiterals (tree_of whole.now) }
    ensures { IfOk result (λ f. IsFormOf (map seen scope.now) (form (map seen scope.now) (tree_of whole.now)) f) }
{
    let form = read_real(alloc, scope, whole)?;
    sparse(alloc, &form)
}

/// The affine form of the left side minus the right side.
#[tactic(auto, using(crate::proofs::SparseForms::sparse_is, crate::proofs::SparseForms::difference_is, crate::proofs::SparseForms::same_length))]
pub fn difference(
    alloc: Global,
    scope: &Scope,
    left: &Expr,
    right: &Expr,
    place: Place,
) -> Result<Affine, TypeFault>
    requires left { HasLiterals (tree_of left.now) }
    requires right { HasLiterals (tree_of right.now) }
    ensures { IfOk result (λ f. IsDifference (map seen scope.now) (tree_of left.now) (tree_of right.now) f) }
{
    let left = read_real(alloc, scope, left)?;
    let right = read_real(alloc, scope, right)?;
    let form = folded(Op::Sub, left, &right, place)?;
    sparse(alloc, &form)
}

/// The guard number of a comparison.
pub fn guard_number(
    alloc: Global,
    scope: &Scope,
    op: BinaryOp,
    left: &Expr,
    right: &Expr,
    place: Place,
) -> Result<Affine, TypeFault>
    requires op { is_inequality op ≡ true }
    requires left { HasLiterals (tree_of left.now) }
    requires right { HasLiterals (tree_of right.now) }
    ensures { IfOk result (λ f. IsFormBetween (map seen scope.now) op (tree_of left.now) (tree_of right.now) f) }
{
    match op {
        BinaryOp::Least => difference(alloc, scope, right, left, place),
        BinaryOp::Most => difference(alloc, scope, left, right, place),
        BinaryOp::Add
        | BinaryOp::Sub
        | BinaryOp::Mul
        | BinaryOp::Div
        | BinaryOp::And
        | BinaryOp::Or
        | BinaryOp::Iff
        | BinaryOp::Then
        | BinaryOp::From
        | BinaryOp::Equal => Err(TypeFault::Kind(place)),
    }
}

// ---- formulas

// Whether the number is 1.
#[tactic(auto, unfolding(hys_lin::specs::Bits::is_one))]
fn is_one(number: Frac) -> bool
    ensures { result ≡ is_one number }
{
    number.num() == 1 && number.den() == 1
}

fn name_formula(scope: &Scope, name: &Text) -> Result<Formula, TypeFault>
    ensures { IfOk result (λ l. formula_of l ≡ own_formula (map seen scope.now) name.now) }
{
    match look(scope, name) {
        None => Ok(Formula::Const(false)),
        Some(found) => {
            if is_parameter(found.section) {
                return Ok(Formula::Const(is_one(found.value)));
            }
            Ok(Formula::Name(column_at(place_in(scope, name))?))
        }
    }
}

fn signed(alloc: Global, op: UnaryOp, operand: Formula) -> Result<Formula, TypeFault>
    ensures { IfOk result (λ l. formula_of l ≡ signed_by op (formula_of operand)) }
{
    match op {
        UnaryOp::Not => Ok(Formula::Not(Box::new(alloc, operand)?)),
        UnaryOp::Neg | UnaryOp::Plus => Ok(Formula::Const(false)),
    }
}

fn join(
    alloc: Global,
    connective: Connective,
    left: Formula,
    right: Formula,
) -> Result<Formula, TypeFault>
    ensures { IfOk result (λ l. formula_of l ≡ formulas.joined connective (formula_of left) (formula_of right)) }
{
    Ok(Formula::Join(connective, Box::new(alloc, left)?, Box::new(alloc, right)?))
}

fn joined(alloc: Global, op: BinaryOp, left: Formula, right: Formula) -> Result<Formula, TypeFault>
    ensures { IfOk result (λ l. formula_of l ≡ joined_by (connective_of op) (formula_of left) (formula_of right)) }
{
    match op {
        BinaryOp::And => join(alloc, Connective::And, left, right),
        BinaryOp::Or => join(alloc, Connective::Or, left, right),
        BinaryOp::Iff => join(alloc, Connective::Iff, left, right),
        BinaryOp::Then => join(alloc, Connective::Then, left, right),
        BinaryOp::From => join(alloc, Connective::From, left, right),
        BinaryOp::Add
        | BinaryOp::Sub
        | BinaryOp::Mul
        | BinaryOp::Div
        | BinaryOp::Most
        | BinaryOp::Least
        | BinaryOp::Equal => Ok(Formula::Const(false)),
    }
}

// An unnamed guard, whose name stands behind the declared ones.
#[tactic(auto, using(crate::proofs::Guards::one_guard))]
fn name_guard(
    alloc: Global,
    scope: &Scope,
    first: usize,
    guards: &mut Vec<Guard>,
    op: BinaryOp,
    left: &Expr,
    right: &Expr,
    place: Place,
) -> Result<Formula, TypeFault>
    requires op { is_inequality op ≡ true }
    requires left { HasLiterals (tree_of left.now) }
    requires right { HasLiterals (tree_of right.now) }
    ensures formula { IfOk result (λ l. formula_of l ≡ formulas.named (first + length guards.old.items)) }
    ensures guards { IfOk result (λ _.
        FollowGuard scope.now guards.old op left.now right.now place guards.new) }
{
    let number = guard_number(alloc, scope, op, left, right, place)?;
    let name = column_at(first)?
        .checked_add(column_at(guards.len())?)
        .ok_or(TypeFault::Limit)?;
    guards.push(Guard { number, place })?;
    Ok(Formula::Name(name))
}

/// The formula of an expression. Its unnamed guards are put behind those before.
#[tactic(auto, using(crate::proofs::Guards::none_followed, crate::proofs::Guards::both_followed, crate::proofs::Guards::followed_length))]
pub fn formula(
    alloc: Global,
    scope: &Scope,
    first: usize,
    guards: &mut Vec<Guard>,
    whole: &Expr,
) -> Result<Formula, TypeFault>
    requires { HasLiterals (tree_of whole.now) }
    ensures formula { IfOk result (λ l. formula_of l ≡ built_behind scope.now first guards.old whole.now) }
    ensures guards { IfOk result (λ _. FollowFormula scope.now guards.old whole.now guards.new) }
{
    match whole {
        Expr::Truth(truth, _) => Ok(Formula::Const(*truth)),
        Expr::Name(name, _) => name_formula(scope, name),
        Expr::Number(_, _) | Expr::Cast(_, _) => Ok(Formula::Const(false)),
        Expr::Unary(op, operand, _) => {
            let operand = formula(alloc, scope, first, guards, operand)?;
            signed(alloc, *op, operand)
        }
        Expr::Binary(op, left, right, place) => {
            if is_inequality(*op) {
                return name_guard(alloc, scope, first, guards, *op, left, right, *place);
            }
            let left = formula(alloc, scope, first, guards, left)?;
            let right = formula(alloc, scope, first, guards, right)?;
            joined(alloc, *op, left, right)
        }
    }
}

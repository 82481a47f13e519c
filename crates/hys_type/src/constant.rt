//! The values of constant expressions.

ghost use Rattle.std.specs.Prelude.{◌≡◌, [], Some, None, MatchOption, IfOk};
ghost use Rattle.std.specs.Result.{result_err};
ghost use Rattle.hys_number.specs.Ops.{whole};
ghost use Rattle.hys_ast.specs.Seen.{tree_of};
ghost use Rattle.hys_lin.specs.Bits.{is_one};
ghost use Rattle.hys_meaning.specs.Folding.{is_zero};
ghost use Rattle.hys_meaning.specs.Values.{literal, computed, joined};
ghost use Rattle.hys_ast.specs.declared.tree.BinaryOp.TheVariants as binary;
ghost use Rattle.hys_type.specs.Sorts.{Real, Bool'};
ghost use Rattle.hys_type.specs.Faults.{first_fault};
ghost use Rattle.hys_type.specs.Constants.{find_known, name_checks, may_stand, may_be_cast, operator_checks, constant_checks, IsWorth, IsLiteral, HasLiterals, sign_checks, pair_checks, of_kind, signed_constant, joined_constant, shown_as};
ghost use Rattle.hys_type.specs.declared.constant.Constant.TheVariants as constant;
ghost use Rattle.hys_ast.specs.Tree as tree;

use crate::fault::TypeFault;
use hys_ast::{BinaryOp, Expr, Kind, Place, UnaryOp};
use hys_base::Text;
use hys_frac::Frac;
use hys_lin::{Lost, add, divide, multiply, subtract};

/// A name that a constant expression knows. A parameter has a value, which is 0 or 1 where it is
/// Boolean; any other name has none.
#[derive(Debug, Drop)]
pub struct Known {
    pub text: Text,
    pub kind: Kind,
    pub value: Option<Frac>,
}

/// What a constant expression is: a number, or a truth value.
#[derive(Clone, Copy, Debug, PartialEq, Eq)]
pub enum Constant {
    Real(Frac),
    Bool(bool),
}

#[tactic(auto, using(crate::proofs::Constants::unary_operand, crate::proofs::Constants::unary_node, crate::proofs::Constants::left_operand, crate::proofs::Constants::right_operand, crate::proofs::Constants::binary_node))]
/// The value of a constant expression, or the fault of the first of its nodes that has one.
pub fn evaluate(known: &[Known], whole: &Expr) -> Result<Constant, TypeFault>
    requires { HasLiterals (tree_of whole.now) }
    ensures fault { result_err result ≡ first_fault (constant_checks known.now (tree_of whole.now)) }
    ensures worth { IfOk result (λ c. IsWorth known.now (tree_of whole.now) c) }
{
    match whole {
        Expr::Number(digits, place) => literal(digits, *place),
        Expr::Name(name, place) => parameter(known, name, *place),
        Expr::Truth(truth, _) => Ok(Constant::Bool(*truth)),
        Expr::Cast(name, place) => cast(known, name, *place),
        Expr::Unary(op, operand, place) => {
            let operand = evaluate(known, operand)?;
            signed(*op, operand, *place)
        }
        Expr::Binary(op, left, right, place) => {
            let left = evaluate(known, left)?;
            let right = evaluate(known, right)?;
            joined(*op, left, right, *place)
        }
    }
}

fn literal(digits: &Text, place: Place) -> Result<Constant, TypeFault>
    requires { IsLiteral digits.now }
    ensures fault { result_err result ≡ first_fault (constant_checks [] (tree.Number digits.now place)) }
    ensures worth { IfOk result (λ c. c ≡ constant.Real (literal digits.now)) }
{
    match Frac::read(digits.text().as_bytes()) {
        Ok(number) => Ok(Constant::Real(number)),
        Err(_) => Err(TypeFault::Literal(place)),
    }
}

#[tactic(auto, using(crate::proofs::Constants::found_here, crate::proofs::Constants::found_behind))]
/// The known name with a text.
pub fn find<'a>(known: &'a [Known], name: &Text) -> Option<&'a Known>
    ensures { MatchOption result
        (find_known known.now name.now ≡ None) (λ k. find_known known.now name.now ≡ Some k.now) }
{
    match known.split_first() {
        None => None,
        Some((first, rest)) => {
            if first.text == *name {
                Some(first)
            } else {
                find(rest, name)
            }
        }
    }
}

// Whether the number is 1.
#[tactic(auto, unfolding(hys_lin::specs::Bits::is_one))]
fn is_one(number: Frac) -> bool
    ensures { result ≡ is_one number }
{
    number.num() == 1 && number.den() == 1
}

fn of_kind(kind: Kind, value: Frac) -> Constant
    ensures { result ≡ of_kind kind value }
{
    match kind {
        Kind::Real => Constant::Real(value),
        Kind::Bool => Constant::Bool(is_one(value)),
    }
}

fn parameter(known: &[Known], name: &Text, place: Place) -> Result<Constant, TypeFault>
    ensures fault { result_err result ≡ first_fault (name_checks may_stand (find_known known.now name.now) place) }
    ensures worth { IfOk result (λ c. IsWorth known.now (tree.Name name.now place) c) }
{
    match find(known, name) {
        None => Err(TypeFault::Unknown(place)),
        Some(found) => match found.value {
            None => Err(TypeFault::Kind(place)),
            Some(value) => Ok(of_kind(found.kind, value)),
        },
    }
}

fn cast(known: &[Known], name: &Text, place: Place) -> Result<Constant, TypeFault>
    ensures fault { result_err result ≡ first_fault (name_checks may_be_cast (find_known known.now name.now) place) }
    ensures worth { IfOk result (λ c. IsWorth known.now (tree.Cast name.now place) c) }
{
    match find(known, name) {
        None => Err(TypeFault::Unknown(place)),
        Some(found) => match (found.kind, found.value) {
            (Kind::Bool, Some(value)) => Ok(Constant::Real(value)),
            (Kind::Real, _) | (Kind::Bool, None) => Err(TypeFault::Kind(place)),
        },
    }
}

fn signed(op: UnaryOp, operand: Constant, place: Place) -> Result<Constant, TypeFault>
    ensures fault { result_err result ≡ first_fault (sign_checks op operand place) }
    ensures worth { IfOk result (λ c. c ≡ signed_constant op operand) }
{
    match (op, operand) {
        (UnaryOp::Not, Constant::Bool(truth)) => Ok(Constant::Bool(!truth)),
        (UnaryOp::Neg, Constant::Real(number)) => Ok(Constant::Real(number.neg())),
        (UnaryOp::Plus, Constant::Real(number)) => Ok(Constant::Real(number)),
        (UnaryOp::Not, Constant::Real(_))
        | (UnaryOp::Neg, Constant::Bool(_))
        | (UnaryOp::Plus, Constant::Bool(_)) => Err(TypeFault::Kind(place)),
    }
}

// The number, or the operands of the operation that doesn't fit.
fn shown(number: Result<Frac, Lost>, place: Place) -> Result<Constant, TypeFault>
    ensures { result ≡ shown_as place number }
{
    match number {
        Ok(number) => Ok(Constant::Real(number)),
        Err(lost) => Err(TypeFault::Range(place, lost)),
    }
}

// Whether the number is 0.
#[tactic(auto, unfolding(hys_meaning::specs::Folding::is_zero))]
fn is_zero(number: Frac) -> bool
    ensures { result ≡ is_zero number }
{
    number.num() == 0
}

#[tactic(auto, using(crate::proofs::Constants::no_zero))]
fn quotient(left: Frac, right: Frac, place: Place) -> Result<Constant, TypeFault>
    ensures fault { result_err result ≡ first_fault (operator_checks binary.Div Real Real left right place) }
    ensures worth { IfOk result (λ c. c ≡ constant.Real (computed binary.Div left right)) }
{
    if is_zero(right) {
        return Err(TypeFault::ZeroDivisor(place));
    }
    shown(divide(left, right), place)
}

fn computed(op: BinaryOp, left: Frac, right: Frac, place: Place) -> Result<Constant, TypeFault>
    ensures fault { result_err result ≡ first_fault (operator_checks op Real Real left right place) }
    ensures worth { IfOk result (λ c. c ≡ constant.Real (computed op left right)) }
{
    match op {
        BinaryOp::Add => shown(add(left, right), place),
        BinaryOp::Sub => shown(subtract(left, right), place),
        BinaryOp::Mul => shown(multiply(left, right), place),
        BinaryOp::Div => quotient(left, right, place),
        BinaryOp::And
        | BinaryOp::Or
        | BinaryOp::Iff
        | BinaryOp::Then
        | BinaryOp::From
        | BinaryOp::Most
        | BinaryOp::Least
        | BinaryOp::Equal => Err(TypeFault::Kind(place)),
    }
}

fn connected(op: BinaryOp, left: bool, right: bool, place: Place) -> Result<Constant, TypeFault>
    ensures fault { result_err result ≡ first_fault (operator_checks op Bool' Bool' (whole 0) (whole 0) place) }
    ensures worth { IfOk result (λ c. c ≡ constant.Bool (joined op left right)) }
{
    match op {
        BinaryOp::And => Ok(Constant::Bool(left && right)),
        BinaryOp::Or => Ok(Constant::Bool(left || right)),
        BinaryOp::Iff => Ok(Constant::Bool(left == right)),
        BinaryOp::Then => Ok(Constant::Bool(!left || right)),
        BinaryOp::From => Ok(Constant::Bool(left || !right)),
        BinaryOp::Add
        | BinaryOp::Sub
        | BinaryOp::Mul
        | BinaryOp::Div
        | BinaryOp::Most
        | BinaryOp::Least
        | BinaryOp::Equal => Err(TypeFault::Kind(place)),
    }
}

fn joined(
    op: BinaryOp,
    left: Constant,
    right: Constant,
    place: Place,
) -> Result<Constant, TypeFault>
    ensures fault { result_err result ≡ first_fault (pair_checks op left right place) }
    ensures worth { IfOk result (λ c. c ≡ joined_constant op left right) }
{
    match left {
        Constant::Real(left) => match right {
            Constant::Real(right) => computed(op, left, right, place),
            Constant::Bool(_) => Err(TypeFault::Kind(place)),
        },
        Constant::Bool(left) => match right {
            Constant::Real(_) => Err(TypeFault::Kind(place)),
            Constant::Bool(right) => connected(op, left, right, place),
        },
    }
}

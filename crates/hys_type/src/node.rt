//! The nodes of the expressions of items.

ghost use Rattle.std.specs.Prelude.{◌≡◌, ◌≢◌, [], ◌∷◌, IfOk, map, length, set};
ghost use Rattle.std.specs.List.{AllByRecursion};
ghost use Rattle.hys_number.specs.Ops.{whole};
ghost use Rattle.hys_ast.specs.Seen.{tree_of};
ghost use Rattle.hys_ast.specs.Tree as tree;
ghost use Rattle.hys_meaning.specs.Names.{look};
ghost use Rattle.hys_meaning.specs.Forms.{number_form, unit_form};
ghost use Rattle.hys_meaning.specs.Folding.{is_zero};
ghost use Rattle.hys_lin.specs.declared.lost.Op.TheVariants as operation;
ghost use Rattle.hys_type.specs.Sorts.{Bool', takes_unary};
ghost use Rattle.hys_type.specs.Faults.{check, in_range, Answers};
ghost use Rattle.hys_type.specs.Constants.{IsLiteral, HasLiterals};
ghost use Rattle.hys_type.specs.Nodes.{name_checks, may_stand, may_be_cast, node_checks, takes_binary};
ghost use Rattle.hys_type.specs.Dense.{IsDense, folded_by, folded_form, spread};
ghost use Rattle.hys_type.specs.Operands.{seen, own_form, IsNode, AreAlike, node_sort, negated, signed_node, has_none, product_checks, product, quotient_checks, real_checks, combined_node, joined_checks, joined_node};
ghost use Rattle.hys_type.specs.declared.fault.TypeFault.TheVariants as fault;
ghost use Rattle.hys_type.specs.declared.node.Node.TheVariants as node;

use crate::dense::{Dense, fold, is_constant, spread};
use crate::fault::TypeFault;
use crate::scope::{Declared, Scope, is_output, is_parameter, look, place_in};
use hys_ast::{BinaryOp, Expr, Kind, Place, UnaryOp};
use hys_base::{List, Text};
use hys_frac::Frac;
use hys_lin::Op;
use std::alloc::{AllocError, Global};

/// What a node of an item's expression is.
#[derive(Debug, Drop)]
pub enum Node {
    /// A real expression, with its form.
    Real(Dense),
    /// A formula, or a comparison by `<=` or `>=`.
    Bool,
    /// A comparison by `==`.
    Neither,
}

// The form of a number alone.
#[tactic(auto, using(crate::proofs::Places::each_number))]
fn number_form(alloc: Global, scope: &Scope, number: Frac) -> Result<Dense, AllocError>
    ensures { IfOk result (λ d. IsDense (map seen scope.now) (number_form number) d) }
{
    Ok(Dense {
        factors: List::of(Vec::from_elem(alloc, Frac::whole(0), scope.len())?),
        constant: number,
    })
}

// Sets the factor at a place to 1; beyond the others there is none.
fn set_one(factors: &mut Vec<Frac>, at: usize)
    ensures { factors.new.items ≡ set factors.old.items at (whole 1) }
{
    if at < factors.len() {
        factors[at] = Frac::whole(1);
    }
}

// The form of a name alone.
#[tactic(auto, using(crate::proofs::Places::one_number))]
fn unit_form(alloc: Global, scope: &Scope, name: &Text) -> Result<Dense, AllocError>
    ensures { IfOk result (λ d. IsDense (map seen scope.now) (unit_form name.now) d) }
{
    let mut factors = Vec::from_elem(alloc, Frac::whole(0), scope.len())?;
    set_one(&mut factors, place_in(scope, name));
    Ok(Dense {
        factors: List::of(factors),
        constant: Frac::whole(0),
    })
}

// The form of a declared name: that of its value where it is a parameter.
fn declared_form(
    alloc: Global,
    scope: &Scope,
    name: &Text,
    found: &Declared,
) -> Result<Dense, AllocError>
    ensures { IfOk result (λ d. IsDense (map seen scope.now) (own_form name.now found.now) d) }
{
    if is_parameter(found.section) {
        number_form(alloc, scope, found.value)
    } else {
        unit_form(alloc, scope, name)
    }
}

fn literal(alloc: Global, scope: &Scope, digits: &Text, place: Place) -> Result<Node, TypeFault>
    requires { IsLiteral digits.now }
    ensures fault { Answers result (node_checks (map seen scope.now) (tree.Number digits.now place)) }
    ensures node { IfOk result (λ n. IsNode (map seen scope.now) (tree.Number digits.now place) n) }
{
    match Frac::read(digits.text().as_bytes()) {
        Ok(number) => Ok(Node::Real(number_form(alloc, scope, number)?)),
        Err(_) => Err(TypeFault::Literal(place)),
    }
}

fn named(alloc: Global, scope: &Scope, name: &Text, place: Place) -> Result<Node, TypeFault>
    ensures fault { Answers result (name_checks may_stand (look (map seen scope.now) name.now) place) }
    ensures node { IfOk result (λ n. IsNode (map seen scope.now) (tree.Name name.now place) n) }
{
    match look(scope, name) {
        None => Err(TypeFault::Unknown(place)),
        Some(found) => {
            if is_output(found.section) {
                return Err(TypeFault::Kind(place));
            }
            match found.kind {
                Kind::Real => Ok(Node::Real(declared_form(alloc, scope, name, found)?)),
                Kind::Bool => Ok(Node::Bool),
            }
        }
    }
}

fn cast(alloc: Global, scope: &Scope, name: &Text, place: Place) -> Result<Node, TypeFault>
    ensures fault { Answers result (name_checks may_be_cast (look (map seen scope.now) name.now) place) }
    ensures node { IfOk result (λ n. IsNode (map seen scope.now) (tree.Cast name.now place) n) }
{
    match look(scope, name) {
        None => Err(TypeFault::Unknown(place)),
        Some(found) => {
            if is_output(found.section) {
                return Err(TypeFault::Kind(place));
            }
            match found.kind {
                Kind::Real => Err(TypeFault::Kind(place)),
                Kind::Bool => Ok(Node::Real(declared_form(alloc, scope, name, found)?)),
            }
        }
    }
}

// The form with each number negated.
fn negated(alloc: Global, form: &Dense) -> Result<Dense, AllocError>
    ensures { IfOk result (λ r. r ≡ negated form.now) }
{
    let mut factors = Vec::with_capacity(alloc, form.factors.items().len())?;
    for factor in form.factors.items() {
        factors.push(factor.neg())?;
    }
    Ok(Dense {
        factors: List::of(factors),
        constant: form.constant.neg(),
    })
}

fn signed(alloc: Global, op: UnaryOp, operand: Node, place: Place) -> Result<Node, TypeFault>
    ensures fault { Answers result (check (takes_unary op (node_sort operand)) (fault.Kind place) ∷ []) }
    ensures node { IfOk result (λ n. n ≡ signed_node op operand) }
{
    match operand {
        Node::Real(form) => match op {
            UnaryOp::Not => Err(TypeFault::Kind(place)),
            UnaryOp::Neg => Ok(Node::Real(negated(alloc, &form)?)),
            UnaryOp::Plus => Ok(Node::Real(form)),
        },
        Node::Bool => match op {
            UnaryOp::Not => Ok(Node::Bool),
            UnaryOp::Neg | UnaryOp::Plus => Err(TypeFault::Kind(place)),
        },
        Node::Neither => Err(TypeFault::Kind(place)),
    }
}

/// The operation between two forms, or the first number that doesn't fit, at the place.
#[tactic(auto, using(crate::proofs::Operands::range_fits, crate::proofs::Operands::range_lost))]
pub fn folded(op: Op, left: Dense, right: &Dense, place: Place) -> Result<Dense, TypeFault>
    requires same { length left.factors ≡ length right.now.factors }
    requires divisors { op ≡ operation.Div → AllByRecursion (λ b. b ≢ whole 0) right.now.factors }
    requires divisor { op ≡ operation.Div → right.now.constant ≢ whole 0 }
    ensures fault { Answers result (in_range place (folded_by op left right.now)) }
    ensures form { IfOk result (λ r. r ≡ folded_form op left right.now) }
{
    match fold(op, left, right) {
        Ok(form) => Ok(form),
        Err(lost) => Err(TypeFault::Range(place, lost)),
    }
}

// A product, of which one side is constant.
#[tactic(auto, using(crate::proofs::Operands::spread_length))]
fn product(alloc: Global, left: Dense, right: &Dense, place: Place) -> Result<Node, TypeFault>
    requires same { length left.factors ≡ length right.now.factors }
    ensures fault { Answers result (product_checks left right.now place) }
    ensures node { IfOk result (λ n. n ≡ node.Real (product (has_none left) left right.now)) }
{
    if is_constant(&left) {
        let left = spread(alloc, &left)?;
        return Ok(Node::Real(folded(Op::Mul, left, right, place)?));
    }
    if is_constant(right) {
        let right = spread(alloc, right)?;
        return Ok(Node::Real(folded(Op::Mul, left, &right, place)?));
    }
    Err(TypeFault::NotLinear(place))
}

// Whether the number is 0.
#[tactic(auto, unfolding(hys_meaning::specs::Folding::is_zero))]
fn is_zero(number: Frac) -> bool
    ensures { result ≡ is_zero number }
{
    number.num() == 0
}

// A quotient, whose divisor is constant and not 0.
#[tactic(auto, using(crate::proofs::Operands::spread_length, crate::proofs::Operands::not_zero, crate::proofs::Operands::each_divisor))]
fn quotient(alloc: Global, left: Dense, right: &Dense, place: Place) -> Result<Node, TypeFault>
    requires same { length left.factors ≡ length right.now.factors }
    ensures fault { Answers result (quotient_checks left right.now place) }
    ensures node { IfOk result (λ n. n ≡ node.Real (folded_form operation.Div left (spread right.now))) }
{
    if !is_constant(right) {
        return Err(TypeFault::NotLinear(place));
    }
    if is_zero(right.constant) {
        return Err(TypeFault::ZeroDivisor(place));
    }
    let right = spread(alloc, right)?;
    Ok(Node::Real(folded(Op::Div, left, &right, place)?))
}

// An operator between two real expressions; that of a comparison folds its guard number.
fn combine(
    alloc: Global,
    op: BinaryOp,
    left: Dense,
    right: Dense,
    place: Place,
) -> Result<Node, TypeFault>
    requires same { length left.factors ≡ length right.factors }
    ensures fault { Answers result (real_checks op left right place) }
    ensures node { IfOk result (λ n. n ≡ combined_node op left right) }
{
    match op {
        BinaryOp::Add => Ok(Node::Real(folded(Op::Add, left, &right, place)?)),
        BinaryOp::Sub => Ok(Node::Real(folded(Op::Sub, left, &right, place)?)),
        BinaryOp::Mul => product(alloc, left, &right, place),
        BinaryOp::Div => quotient(alloc, left, &right, place),
        BinaryOp::Most => {
            folded(Op::Sub, left, &right, place)?;
            Ok(Node::Bool)
        }
        BinaryOp::Least => {
            folded(Op::Sub, right, &left, place)?;
            Ok(Node::Bool)
        }
        BinaryOp::Equal => {
            folded(Op::Sub, left, &right, place)?;
            Ok(Node::Neither)
        }
        BinaryOp::And | BinaryOp::Or | BinaryOp::Iff | BinaryOp::Then | BinaryOp::From => {
            Err(TypeFault::Kind(place))
        }
    }
}

fn connected(op: BinaryOp, place: Place) -> Result<Node, TypeFault>
    ensures fault { Answers result (check (takes_binary op Bool' Bool') (fault.Kind place) ∷ []) }
    ensures node { IfOk result (λ n. n ≡ node.Bool) }
{
    match op {
        BinaryOp::And | BinaryOp::Or | BinaryOp::Iff | BinaryOp::Then | BinaryOp::From => {
            Ok(Node::Bool)
        }
        BinaryOp::Add
        | BinaryOp::Sub
        | BinaryOp::Mul
        | BinaryOp::Div
        | BinaryOp::Most
        | BinaryOp::Least
        | BinaryOp::Equal => Err(TypeFault::Kind(place)),
    }
}

fn joined(
    alloc: Global,
    op: BinaryOp,
    left: Node,
    right: Node,
    place: Place,
) -> Result<Node, TypeFault>
    requires { AreAlike left right }
    ensures fault { Answers result (joined_checks op left right place) }
    ensures node { IfOk result (λ n. n ≡ joined_node op left right) }
{
    match left {
        Node::Real(left) => match right {
            Node::Real(right) => combine(alloc, op, left, right, place),
            Node::Bool | Node::Neither => Err(TypeFault::Kind(place)),
        },
        Node::Bool => match right {
            Node::Bool => connected(op, place),
            Node::Real(_) | Node::Neither => Err(TypeFault::Kind(place)),
        },
        Node::Neither => Err(TypeFault::Kind(place)),
    }
}

/// What an expression of an item is, or the fault of the first of its nodes that has one.
#[tactic(auto, using(crate::proofs::Operators::signed_is, crate::proofs::Operators::are_alike, crate::proofs::Operators::joined_is))]
pub fn read(alloc: Global, scope: &Scope, whole: &Expr) -> Result<Node, TypeFault>
    requires { HasLiterals (tree_of whole.now) }
    ensures fault { Answers result (node_checks (map seen scope.now) (tree_of whole.now)) }
    ensures node { IfOk result (λ n. IsNode (map seen scope.now) (tree_of whole.now) n) }
{
    match whole {
        Expr::Number(digits, place) => literal(alloc, scope, digits, *place),
        Expr::Name(name, place) => named(alloc, scope, name, *place),
        Expr::Truth(_, _) => Ok(Node::Bool),
        Expr::Cast(name, place) => cast(alloc, scope, name, *place),
        Expr::Unary(op, operand, place) => {
            let operand = read(alloc, scope, operand)?;
            signed(alloc, *op, operand, *place)
        }
        Expr::Binary(op, left, right, place) => {
            let left = read(alloc, scope, left)?;
            let right = read(alloc, scope, right)?;
            joined(alloc, *op, left, right, *place)
        }
    }
}

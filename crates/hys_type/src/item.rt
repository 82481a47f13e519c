//! The faults of items.

ghost use Rattle.std.specs.Prelude.{◌≡◌, [], map, Some};
ghost use Rattle.std.specs.List.{AllByRecursion};
ghost use Rattle.std.specs.Result.{result_err};
ghost use Rattle.hys_ast.specs.Seen.{tree_of, maybe_tree_of, item_of};
ghost use Rattle.hys_ast.specs.declared.source.Kind.TheVariants as kind;
ghost use Rattle.hys_meaning.specs.Typed.{suits};
ghost use Rattle.hys_type.specs.Faults.{Answers, first_fault};
ghost use Rattle.hys_type.specs.Constants.{HasLiterals};
ghost use Rattle.hys_type.specs.Declarations.{if_some, HaveLiterals};
ghost use Rattle.hys_type.specs.Walks.{walk};
ghost use Rattle.hys_type.specs.Checks.{of_kind, tolerance_checks, item_checks, HasItemLiterals};
ghost use Rattle.hys_type.specs.Scopes.{scope_in, left_checks_in, left_name_checks, output_checks_in, plain_checks, bracketed_checks, wide_checks, part_checks, choice_checks, item_right_checks};
ghost use Rattle.hys_type.specs.Operands.{seen};

use crate::constant::Known;
use crate::fault::TypeFault;
use crate::missing::is_among;
use crate::right::{check_demand, check_formula, check_guard, read_real, read_tolerance};
use crate::scope::{Declared, Scope, look};
use hys_ast::{Expr, Item, Kind, Place, Section, Shape};
use hys_base::Text;
use std::alloc::Global;

// Whether the declared name may stand at the left in the section.
fn suits(section: Section, found: &Declared) -> bool
    ensures { result ≡ suits section (Some (seen found.now)) }
{
    match section {
        Section::Ad | Section::Logic => {
            matches!(found.section, Section::Aux) && matches!(found.kind, Kind::Bool)
        }
        Section::Da | Section::Linear => {
            matches!(found.section, Section::Aux) && matches!(found.kind, Kind::Real)
        }
        Section::Automata => {
            matches!(found.section, Section::State) && matches!(found.kind, Kind::Bool)
        }
        Section::Continuous => {
            matches!(found.section, Section::State) && matches!(found.kind, Kind::Real)
        }
        Section::OutputItem => matches!(found.section, Section::Output),
        Section::State
        | Section::Input
        | Section::Output
        | Section::Parameter
        | Section::Aux
        | Section::Must => false,
    }
}

#[tactic(auto, using(crate::proofs::Knowing::any_item))]
fn check_left(scope: &Scope, before: &[Item], item: &Item, name: &Text) -> Result<(), TypeFault>
    ensures { result_err result ≡ first_fault (left_checks_in scope.now before.now item.now name.now) }
{
    match look(scope, name) {
        None => Err(TypeFault::Unknown(item.place)),
        Some(found) => {
            if !suits(item.section, found) {
                return Err(TypeFault::WrongSection(item.place));
            }
            if is_among(name, before) {
                return Err(TypeFault::DefinedTwice(item.place));
            }
            Ok(())
        }
    }
}

fn check_left_name(scope: &Scope, before: &[Item], item: &Item) -> Result<(), TypeFault>
    ensures { result_err result ≡ first_fault (left_name_checks scope.now before.now item.now) }
{
    match &item.name {
        None => Ok(()),
        Some(name) => check_left(scope, before, item, name),
    }
}

fn check_real(alloc: Global, scope: &Scope, whole: &Expr) -> Result<(), TypeFault>
    requires { HasLiterals (tree_of whole.now) }
    ensures { Answers result (of_kind kind.Real (map seen scope.now) (tree_of whole.now)) }
{
    match read_real(alloc, scope, whole) {
        Ok(_) => Ok(()),
        Err(fault) => Err(fault),
    }
}

fn check_of_kind(alloc: Global, scope: &Scope, kind: Kind, whole: &Expr) -> Result<(), TypeFault>
    requires { HasLiterals (tree_of whole.now) }
    ensures { Answers result (of_kind kind (map seen scope.now) (tree_of whole.now)) }
{
    match kind {
        Kind::Real => check_real(alloc, scope, whole),
        Kind::Bool => check_formula(alloc, scope, whole),
    }
}

// An output has its declared kind.
fn check_output(
    alloc: Global,
    scope: &Scope,
    left: &Option<Text>,
    whole: &Expr,
) -> Result<(), TypeFault>
    requires { HasLiterals (tree_of whole.now) }
    ensures { Answers result (output_checks_in scope.now left.now whole.now) }
{
    match left {
        None => Ok(()),
        Some(name) => match look(scope, name) {
            None => Ok(()),
            Some(found) => check_of_kind(alloc, scope, found.kind, whole),
        },
    }
}

// A right side that is one expression.
#[tactic(auto, using(crate::proofs::Items::no_tolerance))]
fn check_plain(
    alloc: Global,
    scope: &Scope,
    known: &[Known],
    item: &Item,
    whole: &Expr,
) -> Result<(), TypeFault>
    requires { HasLiterals (tree_of whole.now) }
    ensures { Answers result (plain_checks scope.now known.now item.now whole.now) }
{
    match item.section {
        Section::Ad => check_guard(alloc, scope, whole),
        Section::Logic | Section::Automata => check_formula(alloc, scope, whole),
        Section::Linear | Section::Continuous => check_real(alloc, scope, whole),
        Section::OutputItem => check_output(alloc, scope, &item.name, whole),
        Section::Must => check_demand(alloc, scope, whole),
        Section::State
        | Section::Input
        | Section::Output
        | Section::Parameter
        | Section::Aux
        | Section::Da => Ok(()),
    }
}

fn check_bracket(known: &[Known], place: Place, tolerance: &Expr) -> Result<(), TypeFault>
    requires { HasLiterals (tree_of tolerance.now) }
    ensures { result_err result ≡ first_fault (tolerance_checks known.now place (tree_of tolerance.now)) }
{
    match read_tolerance(known, place, tolerance) {
        Ok(_) => Ok(()),
        Err(fault) => Err(fault),
    }
}

// A comparison with its own tolerance, in AD.
fn check_bracketed(
    alloc: Global,
    scope: &Scope,
    known: &[Known],
    place: Place,
    whole: &Expr,
    tolerance: &Expr,
) -> Result<(), TypeFault>
    requires whole { HasLiterals (tree_of whole.now) }
    requires tolerance { HasLiterals (tree_of tolerance.now) }
    ensures { Answers result (bracketed_checks scope.now known.now place whole.now tolerance.now) }
{
    check_guard(alloc, scope, whole)?;
    check_bracket(known, place, tolerance)
}

fn check_wide(
    alloc: Global,
    scope: &Scope,
    known: &[Known],
    item: &Item,
    whole: &Expr,
    tolerance: &Expr,
) -> Result<(), TypeFault>
    requires whole { HasLiterals (tree_of whole.now) }
    requires tolerance { HasLiterals (tree_of tolerance.now) }
    ensures { Answers result (wide_checks scope.now known.now item.now whole.now tolerance.now) }
{
    match item.section {
        Section::Ad => check_bracketed(alloc, scope, known, item.place, whole, tolerance),
        Section::State
        | Section::Input
        | Section::Output
        | Section::Parameter
        | Section::Aux
        | Section::Da
        | Section::Logic
        | Section::Linear
        | Section::Automata
        | Section::Continuous
        | Section::OutputItem
        | Section::Must => Ok(()),
    }
}

fn check_else(alloc: Global, scope: &Scope, other: &Option<Expr>) -> Result<(), TypeFault>
    requires { HaveLiterals (maybe_tree_of other.now) }
    ensures { Answers result (if_some (of_kind kind.Real (map seen scope.now)) (maybe_tree_of other.now)) }
{
    match other {
        None => Ok(()),
        Some(whole) => check_real(alloc, scope, whole),
    }
}

// The condition, the THEN and the ELSE of a choice.
fn check_parts(
    alloc: Global,
    scope: &Scope,
    when: &Expr,
    hit: &Expr,
    other: &Option<Expr>,
) -> Result<(), TypeFault>
    requires when { HasLiterals (tree_of when.now) }
    requires hit { HasLiterals (tree_of hit.now) }
    requires other { HaveLiterals (maybe_tree_of other.now) }
    ensures { Answers result (part_checks scope.now when.now hit.now other.now) }
{
    check_formula(alloc, scope, when)?;
    check_real(alloc, scope, hit)?;
    check_else(alloc, scope, other)
}

fn check_choice(
    alloc: Global,
    scope: &Scope,
    known: &[Known],
    item: &Item,
    when: &Expr,
    hit: &Expr,
    other: &Option<Expr>,
) -> Result<(), TypeFault>
    requires when { HasLiterals (tree_of when.now) }
    requires hit { HasLiterals (tree_of hit.now) }
    requires other { HaveLiterals (maybe_tree_of other.now) }
    ensures { Answers result (choice_checks scope.now known.now item.now when.now hit.now other.now) }
{
    match item.section {
        Section::Da => check_parts(alloc, scope, when, hit, other),
        Section::State
        | Section::Input
        | Section::Output
        | Section::Parameter
        | Section::Aux
        | Section::Ad
        | Section::Logic
        | Section::Linear
        | Section::Automata
        | Section::Continuous
        | Section::OutputItem
        | Section::Must => Ok(()),
    }
}

fn check_right(alloc: Global, scope: &Scope, known: &[Known], item: &Item) -> Result<(), TypeFault>
    requires { HasItemLiterals (item_of item.now) }
    ensures { Answers result (item_right_checks scope.now known.now item.now) }
{
    match &item.shape {
        Shape::Plain(whole) => check_plain(alloc, scope, known, item, whole),
        Shape::Wide(whole, tolerance) => check_wide(alloc, scope, known, item, whole, tolerance),
        Shape::Choice(when, hit, other) => {
            check_choice(alloc, scope, known, item, when, hit, other)
        }
    }
}

// The fault of an item behind others, if it has one.
fn check_item(
    alloc: Global,
    scope: &Scope,
    known: &[Known],
    before: &[Item],
    item: &Item,
) -> Result<(), TypeFault>
    requires { HasItemLiterals (item_of item.now) }
    ensures { Answers result (item_checks (scope_in scope.now known.now) (map item_of before.now) (item_of item.now)) }
{
    check_left_name(scope, before, item)?;
    check_right(alloc, scope, known, item)
}

/// The fault of the first item that has one.
pub fn check_items(
    alloc: Global,
    scope: &Scope,
    known: &[Known],
    items: &[Item],
) -> Result<(), TypeFault>
    requires { AllByRecursion HasItemLiterals (map item_of items.now) }
    ensures { Answers result (walk (item_checks (scope_in scope.now known.now)) [] (map item_of items.now)) }
{
    for at in 0..items.len() {
        check_item(alloc, scope, known, &items[..at], &items[at])?;
    }
    Ok(())
}

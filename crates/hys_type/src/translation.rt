//! From a source to its program.

ghost use Rattle.std.specs.Prelude.{◌≡◌, ◌≤◌, ◌<◌, ◌^◌, length, map, IfOk};
ghost use Rattle.std.specs.List.{AllByRecursion};
ghost use Rattle.hys_number.specs.Ops.{◌<ₙ◌, whole};
ghost use Rattle.hys_ast.specs.Seen.{item_of, source_of};
ghost use Rattle.hys_type.specs.Faults.{Answers, IsOneOrOther};
ghost use Rattle.hys_meaning.specs.Unfolded.{unfolded};
ghost use Rattle.hys_meaning.specs.Weight.{weight};
ghost use Rattle.hys_prog.specs.Programs.{IsProgram};
ghost use Rattle.hys_type.specs.Declaring.{IsDeclaration};
ghost use Rattle.hys_type.specs.DeclarationKeeping.{IsReadSource};
ghost use Rattle.hys_type.specs.Made.{AreNamesFirst, AreNamesOf};
ghost use Rattle.hys_type.specs.Added.{IsPut, ArePut, IsAssembled, weight_from};
ghost use Rattle.hys_type.specs.Operands.{seen};
ghost use Rattle.hys_type.specs.Translation.{place_if, IsTranslation};
ghost use Rattle.hys_type.specs.Guarding.{name_of_guard, put_guard_names, put_guard_items};
ghost use Rattle.hys_type.specs.Checks.{checks, fault_of, HasItemLiterals, HasSourceLiterals};

use crate::body::body_of;
use crate::built::{Guard, column_at};
use crate::constant::Known;
use crate::fault::TypeFault;
use crate::judge::{Judged, judge_parts};
use crate::scope::{Scope, place_in};
use crate::weight::weigh;
use hys_ast::{Item, Kind, Place, Source};
use hys_base::{List, Text};
use hys_frac::Frac;
use hys_lin::Interval;
use hys_prog::{Body, Name, NameId, ProgItem, Program, Role};
use std::alloc::{AllocError, Global};

// The name of an unnamed guard.
fn guard_name(alloc: Global, number: usize, place: Place) -> Result<Name, AllocError>
    ensures { IfOk result (λ n. n ≡ name_of_guard number place) }
{
    Ok(Name {
        text: Text::of(format!(in alloc; "@{number}")?),
        role: Role::Aux,
        kind: Kind::Bool,
        place,
        bounds: Interval {
            low: Frac::whole(0),
            high: Frac::whole(1),
        },
        value: Frac::whole(0),
    })
}

// The guards that were found in an item, with their names.
#[tactic(auto, using(crate::proofs::Guarding::guard_named, crate::proofs::Guarding::guard_put, crate::proofs::Guarding::none_named, crate::proofs::Guarding::none_put))]
fn push_guards(
    alloc: Global,
    declared: usize,
    names: &mut Vec<Name>,
    items: &mut Vec<ProgItem>,
    eps: Frac,
    guards: Vec<Guard>,
) -> Result<(), TypeFault>
    requires { declared ≤ length names.old.items }
    ensures names { IfOk result (λ _. names.new.items ≡ put_guard_names declared names.old.items guards.items) }
    ensures items { IfOk result (λ _.
        items.new.items ≡ put_guard_items names.old.items eps items.old.items guards.items) }
{
    for guard in guards {
        items.push(ProgItem {
            name: Some(column_at(names.len())?),
            place: guard.place,
            body: Body::Guard {
                number: guard.number,
                eps,
            },
        })?;
        let number = names.len() - declared + 1;
        names.push(guard_name(alloc, number, guard.place)?)?;
    }
    Ok(())
}

// The place of the left name.
fn left_place(scope: &Scope, left: &Option<Text>) -> Result<Option<NameId>, TypeFault>
    ensures { IfOk result (λ k. k ≡ place_if (map seen scope.now) left.now) }
{
    match left {
        None => Ok(None),
        Some(name) => Ok(Some(column_at(place_in(scope, name))?)),
    }
}

// An item behind the guards that stand in it.
#[tactic(auto, using(crate::proofs::Additions::item_added))]
fn push_item(
    alloc: Global,
    scope: &Scope,
    known: &[Known],
    eps: Frac,
    names: &mut Vec<Name>,
    items: &mut Vec<ProgItem>,
    item: &Item,
) -> Result<(), TypeFault>
    requires literals { HasItemLiterals (item_of item.now) }
    requires names { length scope.now ≤ length names.old.items }
    ensures { IfOk result (λ _.
        IsPut scope.now known.now eps item.now names.old items.old names.new items.new) }
{
    let mut guards = Vec::new(alloc);
    let body = body_of(alloc, scope, known, eps, names.len(), &mut guards, item)?;
    push_guards(alloc, scope.len(), names, items, eps, guards)?;
    items.push(ProgItem {
        name: left_place(scope, &item.name)?,
        place: item.place,
        body,
    })?;
    Ok(())
}

#[tactic(auto, using(crate::proofs::Additions::added_here, crate::proofs::Additions::added_end, crate::proofs::Additions::still_enough))]
fn program_items(
    alloc: Global,
    scope: &Scope,
    known: &[Known],
    eps: Frac,
    names: &mut Vec<Name>,
    items: &[Item],
) -> Result<Vec<ProgItem>, TypeFault>
    requires literals { AllByRecursion HasItemLiterals (map item_of items.now) }
    requires names { length scope.now ≤ length names.old.items }
    ensures { IfOk result (ArePut scope.now known.now eps items.now names.old names.new) }
{
    let mut made = Vec::new(alloc);
    for item in items {
        push_item(alloc, scope, known, eps, names, &mut made, item)?;
    }
    Ok(made)
}

fn assemble(alloc: Global, source: &Source, eps: Frac, judged: Judged) -> Result<Program, TypeFault>
    requires literals { AllByRecursion HasItemLiterals (map item_of source.now.items) }
    requires names { length judged.scope ≤ length judged.names.items }
    ensures system { IfOk result (λ p. p.system ≡ source.now.system) }
    ensures items { IfOk result (IsAssembled judged eps source.now.items) }
    ensures weight { IfOk result (λ p. p.weight ≡ weight_from p.names source.now.items) }
    ensures few { IfOk result (λ p. length p.names < 2 ^ 63) }
{
    let Judged {
        known,
        mut names,
        scope,
    } = judged;
    let items = program_items(alloc, &scope, &known, eps, &mut names, source.items.items())?;
    let weight = weigh(&names, source.items.items())?;
    Ok(Program {
        system: source.system.clone()?,
        names: List::of(names),
        items: List::of(items),
        weight,
    })
}

/// The program of a source where no check fails, and else the fault of the first that does. Its
/// names are those of the declarations, and behind them those of the unnamed guards in the order of
/// their numbers. The program is the translation of the source, and keeps the rules of programs
/// where the source is one that is read from a text.
#[tactic(auto, using(crate::proofs::OneOrOther::one_or_other))]
pub fn program(alloc: Global, source: &Source, eps: Frac) -> Result<Program, TypeFault>
    requires eps { whole 0 <ₙ eps }
    requires literals { HasSourceLiterals (source_of source.now) }
    requires declarations { AllByRecursion IsDeclaration (source_of source.now).decls }
    ensures fault { Answers result (checks (source_of source.now)) }
    ensures one_or_other { IsOneOrOther (fault_of (source_of source.now)) result }
    ensures system { IfOk result (λ p. p.system ≡ source.now.system) }
    ensures weight { IfOk result (λ p. p.weight ≡ weight_from p.names source.now.items) }
    ensures source_weight { IfOk result (λ p. p.weight ≡ weight (source_of source.now)) }
    ensures names { IfOk result (λ p. AreNamesFirst (source_of source.now) p.names) }
    ensures all_names { IfOk result (λ p. AreNamesOf (unfolded (source_of source.now)) p.names) }
    ensures translation { IfOk result (λ p. IsTranslation eps (source_of source.now) p) }
    ensures program { IfOk result (λ p. IsReadSource (source_of source.now) → IsProgram p) }
{
    let judged = judge_parts(alloc, source.decls.items(), source.items.items())?;
    match assemble(alloc, source, eps, judged) {
        Ok(program) => Ok(program),
        // The source was judged, so only memory can be wanting.
        Err(_) => Err(TypeFault::Memory),
    }
}

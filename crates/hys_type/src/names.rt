//! The names of the program, and as items know them.

ghost use Rattle.std.specs.Prelude.{◌≡◌, [], map, cond, true, IfOk};
ghost use Rattle.hys_number.specs.Ops.{whole};
ghost use Rattle.hys_meaning.specs.Names.{is_parameter};
ghost use Rattle.hys_meaning.specs.Typed.{differ};
ghost use Rattle.std.specs.List.{AllByRecursion};
ghost use Rattle.hys_ast.specs.Seen.{decl_of};
ghost use Rattle.hys_type.specs.Faults.{Answers};
ghost use Rattle.hys_type.specs.Walks.{walk};
ghost use Rattle.hys_type.specs.Constants.{known_values};
ghost use Rattle.hys_type.specs.Declarations.{box_checks, HasBoundLiterals};
ghost use Rattle.hys_type.specs.Translation.{role_in};
ghost use Rattle.hys_type.specs.Made.{declared, program_name};

use crate::bounds::box_of;
use crate::constant::{Known, find};
use crate::fault::TypeFault;
use crate::scope::{Declared, Scope, is_parameter};
use hys_ast::{Decl, Section};
use hys_base::Text;
use hys_frac::Frac;
use hys_prog::{Name, Role};
use std::alloc::{AllocError, Global};

// The value of a known parameter, and 0 for any other name.
fn value_of(known: &[Known], name: &Text) -> Frac
    ensures { result ≡ known_values known.now name.now }
{
    match find(known, name) {
        None => Frac::whole(0),
        Some(found) => match found.value {
            None => Frac::whole(0),
            Some(value) => value,
        },
    }
}

// The value of a declared parameter, and 0 for any other name.
fn own_value(known: &[Known], decl: &Decl) -> Frac
    ensures { result ≡ cond (is_parameter decl.now.section) (known_values known.now decl.now.name) (whole 0) }
{
    if is_parameter(decl.section) {
        value_of(known, &decl.name)
    } else {
        Frac::whole(0)
    }
}

/// The role of names that are declared in the section.
pub fn role_in(section: Section) -> Role
    ensures { result ≡ role_in section }
{
    match section {
        Section::State => Role::State,
        Section::Input => Role::Input,
        Section::Output => Role::Output,
        Section::Parameter => Role::Parameter,
        Section::Aux
        | Section::Ad
        | Section::Da
        | Section::Logic
        | Section::Linear
        | Section::Automata
        | Section::Continuous
        | Section::OutputItem
        | Section::Must => Role::Aux,
    }
}

fn declared_name(known: &[Known], decl: &Decl) -> Result<Name, TypeFault>
    requires { HasBoundLiterals (decl_of decl.now) }
    ensures fault { Answers result (box_checks known.now (decl_of decl.now)) }
    ensures name { IfOk result (λ n. n ≡ program_name known.now (decl_of decl.now)) }
{
    let bounds = box_of(known, decl)?;
    Ok(Name {
        text: decl.name.clone()?,
        role: role_in(decl.section),
        kind: decl.kind,
        place: decl.place,
        bounds,
        value: own_value(known, decl),
    })
}

/// The names of the program, with their boxes and values, or the fault of the first box that has
/// one.
pub fn declared_names(
    alloc: Global,
    known: &[Known],
    decls: &[Decl],
) -> Result<Vec<Name>, TypeFault>
    requires { AllByRecursion HasBoundLiterals (map decl_of decls.now) }
    ensures fault { Answers result (walk (λ before d. box_checks known.now d) [] (map decl_of decls.now)) }
    ensures names { IfOk result (λ v. v.items ≡ map (program_name known.now) (map decl_of decls.now)) }
{
    let mut names = Vec::new(alloc);
    for decl in decls {
        names.push(declared_name(known, decl)?)?;
    }
    Ok(names)
}

fn declared(known: &[Known], decl: &Decl) -> Result<Declared, AllocError>
    ensures { IfOk result (λ d. d ≡ declared known.now (decl_of decl.now)) }
{
    Ok(Declared {
        text: decl.name.clone()?,
        section: decl.section,
        kind: decl.kind,
        value: value_of(known, &decl.name),
    })
}

// The declared names in their order.
#[tactic(auto, using(crate::proofs::Operands::made_more))]
fn all_declared(alloc: Global, known: &[Known], decls: &[Decl]) -> Result<Vec<Declared>, AllocError>
    ensures { IfOk result (λ v. v.items ≡ map (declared known.now) (map decl_of decls.now)) }
{
    let mut names = Vec::new(alloc);
    for decl in decls {
        names.push(declared(known, decl)?)?;
    }
    Ok(names)
}

/// The declared names as items know them.
#[tactic(auto, using(crate::proofs::Places::declared_once))]
pub fn scope_of(alloc: Global, known: &[Known], decls: &[Decl]) -> Result<Scope, AllocError>
    requires { differ (map (λ d. d.name) (map decl_of decls.now)) ≡ true }
    ensures { IfOk result (λ s. s ≡ map (declared known.now) (map decl_of decls.now)) }
{
    Scope::of(alloc, all_declared(alloc, known, decls)?)
}

//! What constant expressions may name: the values of parameters.

ghost use Rattle.std.specs.Prelude.{◌≡◌, [], map, IfOk};
ghost use Rattle.std.specs.List.{AllByRecursion};
ghost use Rattle.hys_ast.specs.Seen.{decl_of};
ghost use Rattle.hys_meaning.specs.Names.{is_parameter};
ghost use Rattle.hys_type.specs.Faults.{Answers};
ghost use Rattle.hys_type.specs.Walks.{walk};
ghost use Rattle.hys_type.specs.Declarations.{other, others, parameter_checks, with_parameter, known, value_checks, HasValueLiterals};

use crate::constant::Known;
use crate::fault::TypeFault;
use crate::kinds::evaluate_as;
use hys_ast::{Decl, Section};
use std::alloc::{AllocError, Global};

fn other(decl: &Decl) -> Result<Known, AllocError>
    ensures { IfOk result (λ k. k ≡ other (decl_of decl.now)) }
{
    Ok(Known {
        text: decl.name.clone()?,
        kind: decl.kind,
        value: None,
    })
}

fn is_parameter(decl: &Decl) -> bool
    ensures { result ≡ is_parameter decl.now.section }
{
    matches!(decl.section, Section::Parameter)
}

#[tactic(auto, using(crate::proofs::Knowing::kept_here, crate::proofs::Knowing::left_here, crate::proofs::Knowing::all_others))]
// The names that are no parameters.
fn others(alloc: Global, decls: &[Decl]) -> Result<Vec<Known>, AllocError>
    ensures { IfOk result (λ v. v.items ≡ others (map decl_of decls.now)) }
{
    let mut known = Vec::new(alloc);
    for decl in decls {
        if !is_parameter(decl) {
            known.push(other(decl)?)?;
        }
    }
    Ok(known)
}

// One parameter more.
fn add_parameter(known: &mut Vec<Known>, decl: &Decl) -> Result<(), TypeFault>
    requires { HasValueLiterals (decl_of decl.now) }
    ensures fault { Answers result (parameter_checks known.old.items (decl_of decl.now)) }
    ensures known { IfOk result (λ _. known.new.items ≡ with_parameter known.old.items (decl_of decl.now)) }
{
    if !is_parameter(decl) {
        return Ok(());
    }
    match &decl.value {
        None => Err(TypeFault::NoValue(decl.place)),
        Some(whole) => {
            let number = evaluate_as(known, decl.kind, whole)?;
            known.push(Known {
                text: decl.name.clone()?,
                kind: decl.kind,
                value: Some(number),
            })?;
            Ok(())
        }
    }
}

/// The names that constant expressions know once all parameters have their values, or the fault of
/// the first parameter that has one. A value names parameters that are declared before its own.
pub fn known_names(alloc: Global, decls: &[Decl]) -> Result<Vec<Known>, TypeFault>
    requires { AllByRecursion HasValueLiterals (map decl_of decls.now) }
    ensures fault { Answers result (walk (value_checks (map decl_of decls.now)) [] (map decl_of decls.now)) }
    ensures known { IfOk result (λ v. v.items ≡ known (map decl_of decls.now) (map decl_of decls.now)) }
{
    let mut known = others(alloc, decls)?;
    for decl in decls {
        add_parameter(&mut known, decl)?;
    }
    Ok(known)
}

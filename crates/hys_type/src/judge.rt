//! The faults of a source.

ghost use Rattle.std.specs.Prelude.{◌≡◌, map, IfOk, true};
ghost use Rattle.std.specs.List.{AllByRecursion};
ghost use Rattle.hys_ast.specs.Seen.{decl_of, item_of};
ghost use Rattle.hys_meaning.specs.Typed.{differ};
ghost use Rattle.hys_type.specs.Faults.{Answers};
ghost use Rattle.hys_type.specs.Declarations.{known as known_of, HasValueLiterals, HasBoundLiterals};
ghost use Rattle.hys_type.specs.Checks.{use_checks, checks_by, HasItemLiterals};
ghost use Rattle.hys_type.specs.Made.{declared, program_name};

use crate::constant::Known;
use crate::declared::check_names;
use crate::fault::TypeFault;
use crate::item::check_items;
use crate::missing::check_all_defined;
use crate::names::{declared_names, scope_of};
use crate::parameters::known_names;
use crate::scope::Scope;
use hys_ast::{Decl, Item};
use hys_prog::Name;
use std::alloc::Global;

/// What is known of a source without fault: the values of its parameters, its names, and these as
/// items know them.
#[derive(Debug, Drop)]
pub struct Judged {
    pub known: Vec<Known>,
    pub names: Vec<Name>,
    pub scope: Scope,
}

// The names as items know them, or the first fault of the items and of what they define.
fn judge_items(
    alloc: Global,
    known: &[Known],
    decls: &[Decl],
    items: &[Item],
) -> Result<Scope, TypeFault>
    requires known { known.now ≡ known_of (map decl_of decls.now) (map decl_of decls.now) }
    requires once { differ (map (λ d. d.name) (map decl_of decls.now)) ≡ true }
    requires literals { AllByRecursion HasItemLiterals (map item_of items.now) }
    ensures fault { Answers result (use_checks (map decl_of decls.now) (map item_of items.now)) }
    ensures scope { IfOk result (λ s. s ≡ map (declared known.now) (map decl_of decls.now)) }
{
    let scope = scope_of(alloc, known, decls)?;
    check_items(alloc, &scope, known, items)?;
    check_all_defined(decls, items)?;
    Ok(scope)
}

/// What is known of declarations and items, or their first fault.
pub fn judge_parts(alloc: Global, decls: &[Decl], items: &[Item]) -> Result<Judged, TypeFault>
    requires values { AllByRecursion HasValueLiterals (map decl_of decls.now) }
    requires bounds { AllByRecursion HasBoundLiterals (map decl_of decls.now) }
    requires items { AllByRecursion HasItemLiterals (map item_of items.now) }
    ensures fault { Answers result (checks_by (map decl_of decls.now) (map item_of items.now)) }
    ensures known { IfOk result (λ j. j.known.items ≡ known_of (map decl_of decls.now) (map decl_of decls.now)) }
    ensures names { IfOk result (λ j. j.names.items ≡ map (program_name j.known.items) (map decl_of decls.now)) }
    ensures scope { IfOk result (λ j. j.scope ≡ map (declared j.known.items) (map decl_of decls.now)) }
{
    check_names(decls)?;
    let known = known_names(alloc, decls)?;
    let names = declared_names(alloc, &known, decls)?;
    let scope = judge_items(alloc, &known, decls, items)?;
    Ok(Judged {
        known,
        names,
        scope,
    })
}

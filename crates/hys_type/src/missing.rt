//! Names that no item defines.

ghost use Rattle.std.specs.Prelude.{◌≡◌, [], map};
ghost use Rattle.std.specs.List.{list_any};
ghost use Rattle.hys_ast.specs.Seen.{decl_of, item_of};
ghost use Rattle.hys_meaning.specs.Typed.{defines, is_defined};
ghost use Rattle.hys_type.specs.Faults.{Answers};
ghost use Rattle.hys_type.specs.Walks.{walk};
ghost use Rattle.hys_type.specs.Checks.{missing_checks};

use crate::fault::TypeFault;
use hys_ast::{Decl, Item, Section};
use hys_base::Text;

fn defines(item: &Item, name: &Text) -> bool
    ensures { result ≡ defines name.now item.now.name }
{
    match &item.name {
        Some(left) => *name == *left,
        None => false,
    }
}

pub fn is_among(name: &Text, items: &[Item]) -> bool
    ensures { result ≡ list_any (λ i. defines name.now i.name) items.now }
{
    items.iter().any(|i| defines(i, name))
}

fn is_defined(section: Section) -> bool
    ensures { result ≡ is_defined section }
{
    matches!(section, Section::State | Section::Output | Section::Aux)
}

#[tactic(auto, using(crate::proofs::Knowing::missing_name, crate::proofs::Knowing::found_name, crate::proofs::Knowing::no_need))]
fn check_defined(decl: &Decl, items: &[Item]) -> Result<(), TypeFault>
    ensures { Answers result (missing_checks (map item_of items.now) (decl_of decl.now)) }
{
    if !is_defined(decl.section) {
        return Ok(());
    }
    if is_among(&decl.name, items) {
        return Ok(());
    }
    Err(TypeFault::Missing(decl.name.clone()?))
}

/// The first declared auxiliary, state or output that no item defines.
pub fn check_all_defined(decls: &[Decl], items: &[Item]) -> Result<(), TypeFault>
    ensures { Answers result (walk (λ before d. missing_checks (map item_of items.now) d) [] (map decl_of decls.now)) }
{
    for decl in decls {
        check_defined(decl, items)?;
    }
    Ok(())
}

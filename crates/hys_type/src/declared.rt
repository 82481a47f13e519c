//! Each name is declared once, and there are at most 200 of them.

ghost use Rattle.std.specs.Prelude.{◌≡◌, [], map};
ghost use Rattle.std.specs.Str.{bytes_eq};
ghost use Rattle.std.specs.List.{list_any};
ghost use Rattle.std.specs.Result.{result_err};
ghost use Rattle.hys_ast.specs.Seen.{decl_of};
ghost use Rattle.hys_type.specs.Faults.{first_fault};
ghost use Rattle.hys_type.specs.Walks.{walk};
ghost use Rattle.hys_type.specs.Declarations.{name_checks};

use crate::fault::TypeFault;
use hys_ast::Decl;
use hys_base::Text;

const MOST_NAMES: usize = 200;

fn is_declared(name: &Text, decls: &[Decl]) -> bool
    ensures { result ≡ list_any (λ d. bytes_eq name.now d.name) decls.now }
{
    decls.iter().any(|d| *name == d.name)
}

// The fault of a declaration behind others, if it has one.
#[tactic(auto, using(crate::proofs::Once::twice, crate::proofs::Once::too_many, crate::proofs::Once::new_name))]
fn check_name(before: &[Decl], decl: &Decl) -> Result<(), TypeFault>
    ensures { result_err result ≡ first_fault (name_checks (map decl_of before.now) (decl_of decl.now)) }
{
    if is_declared(&decl.name, before) {
        return Err(TypeFault::Twice(decl.place));
    }
    if before.len() >= MOST_NAMES {
        return Err(TypeFault::Limit);
    }
    Ok(())
}

/// The first name that is declared twice, or is one too many.
pub fn check_names(decls: &[Decl]) -> Result<(), TypeFault>
    ensures { result_err result ≡ first_fault (walk name_checks [] (map decl_of decls.now)) }
{
    for at in 0..decls.len() {
        check_name(&decls[..at], &decls[at])?;
    }
    Ok(())
}

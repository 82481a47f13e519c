ghost use Rattle.std.specs.Prelude.{◌≡◌, IfOk};
ghost use Rattle.hys_prog.specs.Walk.{is_role as is_role_of};
ghost use Rattle.hys_sim.specs.Tables.{is_among, kind_under as kind_of_first, names_of as names_with, variables as variables_of};
ghost use Rattle.hys_sim.specs.Views.{lent};

use hys_ast::Kind;
use hys_prog::{Name, Program, Role};
use std::alloc::{AllocError, Global};

/// The names of the role, in order of declaration.
pub fn names_of(alloc: Global, program: &Program, part: Role) -> Result<Vec<&Name>, AllocError>
    ensures { IfOk result (λ ks. lent ks.items ≡ names_with (is_role_of part) program.now) }
{
    let mut names = Vec::new(alloc);
    for name in program.names.items() {
        if is_role(name.role, part) {
            names.push(name)?;
        }
    }
    Ok(names)
}

fn is_role(role: Role, part: Role) -> bool
    ensures { result ≡ is_role_of part role }
{
    role == part
}

/// The number of names that aren't parameters.
pub fn variables(program: &Program) -> usize
    ensures { result ≡ variables_of program.now }
{
    let mut count = 0usize;
    for name in program.names.items() {
        if !is_role(name.role, Role::Parameter) {
            count += 1;
        }
    }
    count
}

/// The kind of the name with this text, if one of the names has it.
pub fn kind_under(names: &[&Name], text: &str) -> Option<Kind>
    ensures { result ≡ kind_of_first (lent names.now) text.now }
{
    for name in names {
        if name.text.text() == text {
            return Some(name.kind);
        }
    }
    None
}

/// Whether the text is one of the list.
pub fn is_one_of(text: &str, texts: &[&str]) -> bool
    ensures { result ≡ is_among text.now (lent texts.now) }
{
    for other in texts {
        if text == *other {
            return true;
        }
    }
    false
}

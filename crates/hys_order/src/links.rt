ghost use Rattle.std.specs.Prelude.{◌≡◌, ◌<◌, IfOk, IsTrue, length};
ghost use Rattle.hys_prog.specs.Programs.{IsProgram};
ghost use Rattle.hys_prog.specs.Steps.{is_auxiliary};
ghost use Rattle.hys_order.specs.Links.{AreLinksOf};
ghost use Rattle.hys_order.specs.Lists.{link_of};

use crate::mentions::mentions;
use hys_base::List;
use hys_prog::{NameId, ProgItem, Program, Role, definitions};
use std::alloc::{AllocError, Global};

/// For each name the names that its definition mentions; none for a name that is no auxiliary.
pub fn links(alloc: Global, program: &Program) -> Result<Vec<List<NameId>>, AllocError>
    requires { IsProgram program.now }
    ensures { IfOk result (λ ms. AreLinksOf program.now ms.items) }
{
    let places = definitions(alloc, program)?;
    let mut links = Vec::new(alloc);
    for (n, name) in program.names.items().iter().enumerate() {
        let mentioned = link(alloc, name.role, program.items.items(), places[n])?;
        links.push(List::of(mentioned))?;
    }
    Ok(links)
}

// What a name of the role leads to, with the place of the item that defines it.
#[tactic(auto, using(crate::proofs::Linked::mentioned_here))]
fn link(
    alloc: Global,
    role: Role,
    items: &[ProgItem],
    place: usize,
) -> Result<Vec<NameId>, AllocError>
    requires { IsTrue (is_auxiliary role) → place < length items.now }
    ensures { IfOk result (λ names. names.items ≡ link_of items.now role place) }
{
    match role {
        Role::Aux => mentions(alloc, &items[place].body),
        Role::State => Ok(Vec::new(alloc)),
        Role::Input => Ok(Vec::new(alloc)),
        Role::Output => Ok(Vec::new(alloc)),
        Role::Parameter => Ok(Vec::new(alloc)),
    }
}

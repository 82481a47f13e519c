ghost use Rattle.std.specs.Prelude.{◌≡◌, ◌<◌, length, IfOk};
ghost use Rattle.hys_prog.specs.Programs.{IsProgram};
ghost use Rattle.hys_prog.specs.Steps.{OfName};
ghost use Rattle.hys_prog.specs.Places.{ArePlaces, noted};

use crate::program::Program;
use hys_formula::NameId;
use std::alloc::{AllocError, Global};

/// For each name that an item defines the place of this item in `items`. What stands at the place
/// of another name means nothing.
pub fn definitions(alloc: Global, program: &Program) -> Result<Vec<usize>, AllocError>
    requires { IsProgram program.now }
    ensures length { IfOk result (λ ks. length ks.items ≡ length program.now.names) }
    ensures places { IfOk result (λ ks. ArePlaces program.now ks.items) }
{
    let mut places = vec![in alloc; 0usize; program.names.items().len()]?;
    for (k, item) in program.items.items().iter().enumerate() {
        note(&mut places, item.name, k);
    }
    Ok(places)
}

// Notes the place of the item that defines the name, where there is one.
fn note(places: &mut Vec<usize>, name: Option<NameId>, place: usize)
    requires { OfName (λ n. n < length places.old.items) name }
    ensures { places.new.items ≡ noted places.old.items name place }
{
    match name {
        Some(name) => places[name as usize] = place,
        None => {}
    }
}

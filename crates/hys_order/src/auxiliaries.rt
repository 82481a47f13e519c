ghost use Rattle.std.specs.Prelude.{◌≡◌, IfOk};
ghost use Rattle.hys_prog.specs.Steps.{places_from, is_auxiliary};
ghost use Rattle.hys_order.specs.Lists.{others};

use hys_prog::{Name, NameId, Role};
use std::alloc::{AllocError, Global};

/// The auxiliaries in the order of declaration.
///
/// # Errors
/// Memory is also wanting where there are more names than a `NameId` can number.
pub fn auxiliaries(alloc: Global, names: &[Name]) -> Result<Vec<NameId>, AllocError>
    ensures { IfOk result (λ ns. ns.items ≡ places_from 0 is_auxiliary names.now) }
{
    let mut places = Vec::new(alloc);
    for (n, name) in names.iter().enumerate() {
        if is_auxiliary_role(name.role) {
            places.push(numbered(n)?)?;
        }
    }
    Ok(places)
}

// The place as a `NameId`.
fn numbered(place: usize) -> Result<NameId, AllocError>
    ensures { IfOk result (λ n. n ≡ place) }
{
    match u32::try_from(place) {
        Ok(name) => Ok(name),
        Err(_) => Err(AllocError),
    }
}

/// Whether the role is that of an auxiliary.
pub fn is_auxiliary_role(role: Role) -> bool
    ensures { result ≡ is_auxiliary role }
{
    match role {
        Role::Aux => true,
        Role::State | Role::Input | Role::Output | Role::Parameter => false,
    }
}

/// Of each name whether it is no auxiliary.
pub fn others_of(alloc: Global, names: &[Name]) -> Result<Vec<bool>, AllocError>
    ensures { IfOk result (λ bs. bs.items ≡ others names.now) }
{
    let mut others = Vec::new(alloc);
    for name in names {
        others.push(!is_auxiliary_role(name.role))?;
    }
    Ok(others)
}

//! Faults with their paths and names.

ghost use Rattle.std.specs.Prelude.{◌≡◌, ◌⊎◌, IfOk};
ghost use Rattle.hys_stack.specs.declared.fault.RequestFault.TheVariants as request;
ghost use Rattle.hys_stack.specs.Reading.{own_path, path_to};

use crate::fault::RequestFault;
use hys_base::Text;
use std::alloc::{AllocError, Global};

// The path of a value itself; the empty one is that of the root.
fn own_path(alloc: Global, path: &str) -> Result<Text, AllocError>
    ensures { IfOk result (λ text. text ≡ own_path path.now) }
{
    let shown = if path.is_empty() { "root" } else { path };
    Ok(Text::of(String::from_str(alloc, shown)?))
}

// The path of what stands under a key of the value.
fn path_to(alloc: Global, path: &str, key: &str) -> Result<Text, AllocError>
    ensures { IfOk result (λ text. text ≡ path_to path.now key.now) }
{
    if path.is_empty() {
        return Ok(Text::of(String::from_str(alloc, key)?));
    }
    let mut text = String::from_str(alloc, path)?;
    text.push_str(".")?;
    text.push_str(key)?;
    Ok(Text::of(text))
}

fn text_of(alloc: Global, text: &str) -> Result<Text, AllocError>
    ensures { IfOk result (λ t. t ≡ text.now) }
{
    Ok(Text::of(String::from_str(alloc, text)?))
}

/// The fault of the shape of the value itself.
pub fn shape_here(alloc: Global, path: &str) -> RequestFault
    ensures { (result ≡ request.Memory) ⊎ (result ≡ request.Shape (own_path path.now)) }
{
    match own_path(alloc, path) {
        Ok(path) => RequestFault::Shape(path),
        Err(_) => RequestFault::Memory,
    }
}

/// The fault of the shape of what stands, or doesn't stand, under the key.
pub fn shape_under(alloc: Global, path: &str, key: &str) -> RequestFault
    ensures { (result ≡ request.Memory) ⊎ (result ≡ request.Shape (path_to path.now key.now)) }
{
    match path_to(alloc, path, key) {
        Ok(path) => RequestFault::Shape(path),
        Err(_) => RequestFault::Memory,
    }
}

/// The fault of a number under the key.
pub fn number_under(alloc: Global, path: &str, key: &str) -> RequestFault
    ensures { (result ≡ request.Memory) ⊎ (result ≡ request.Number (path_to path.now key.now)) }
{
    match path_to(alloc, path, key) {
        Ok(path) => RequestFault::Number(path),
        Err(_) => RequestFault::Memory,
    }
}

/// The fault of a name.
pub fn wrong_name(alloc: Global, name: &str) -> RequestFault
    ensures { (result ≡ request.Memory) ⊎ (result ≡ request.Name name.now) }
{
    match text_of(alloc, name) {
        Ok(name) => RequestFault::Name(name),
        Err(_) => RequestFault::Memory,
    }
}

/// The fault of a state's start.
pub fn wrong_start(alloc: Global, name: &str) -> RequestFault
    ensures { (result ≡ request.Memory) ⊎ (result ≡ request.Start name.now) }
{
    match text_of(alloc, name) {
        Ok(name) => RequestFault::Start(name),
        Err(_) => RequestFault::Memory,
    }
}

/// The fault of a limit.
pub fn over_limit(alloc: Global, what: &str) -> RequestFault
    ensures { (result ≡ request.Memory) ⊎ (result ≡ request.Limit what.now) }
{
    match text_of(alloc, what) {
        Ok(what) => RequestFault::Limit(what),
        Err(_) => RequestFault::Memory,
    }
}

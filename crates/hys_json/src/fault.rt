ghost use Rattle.std.specs.Prelude.{◌≡◌, ◌∷◌, IfOk};
ghost use Rattle.std.specs.Fmt.{decimal};
ghost use Rattle.hys_json.specs.declared.fault.ValueFault.TheVariants.{Memory};
ghost use Rattle.hys_json.specs.Checks.{IsWithin};

use hys_base::{List, Text};
use std::alloc::{AllocError, AllocFailed, Global};

/// Why a JSON value isn't read. The path has the keys and the places in lists that lead to what is
/// wrong, from the value that was to be read on; it is empty where that value itself is wrong.
#[derive(Debug, Drop)]
pub enum ValueFault {
    /// The kind or the fixed word is wrong, a key is missing or unknown, or a rule doesn't hold.
    Shape(List<Text>),
    /// The string is no number text, or its number doesn't fit.
    Number(List<Text>),
    /// Memory was wanting.
    Memory,
}

impl From<AllocError> for ValueFault {
    ghost from_gives = { λ _ e. e ≡ Memory };

    fn from(_: AllocError) -> ValueFault {
        ValueFault::Memory
    }
}

impl<T: Drop> From<AllocFailed<T>> for ValueFault {
    ghost from_gives = { λ _ e. e ≡ Memory };

    fn from(_: AllocFailed<T>) -> ValueFault {
        ValueFault::Memory
    }
}

// The path with the key before it.
fn longer(alloc: Global, key: &str, path: List<Text>) -> Result<List<Text>, AllocError>
    ensures { IfOk result (λ longer. longer ≡ key.now ∷ path) }
{
    let mut steps = Vec::with_capacity(alloc, path.items().len() + 1)?;
    steps.push(Text::of(String::from_str(alloc, key)?))?;
    for step in path.into_vec() {
        steps.push(step)?;
    }
    Ok(List::of(steps))
}

/// What was read of the value under a key, or its fault with that key before its path.
pub fn within<T: Drop>(
    alloc: Global,
    key: &str,
    answer: Result<T, ValueFault>,
) -> Result<T, ValueFault>
    ensures { IsWithin key.now answer result }
{
    match answer {
        Ok(value) => Ok(value),
        Err(ValueFault::Shape(path)) => Err(ValueFault::Shape(longer(alloc, key, path)?)),
        Err(ValueFault::Number(path)) => Err(ValueFault::Number(longer(alloc, key, path)?)),
        Err(ValueFault::Memory) => Err(ValueFault::Memory),
    }
}

/// What was read of the item at a place of a list, or its fault with that place before its path.
pub fn within_item<T: Drop>(
    alloc: Global,
    place: usize,
    answer: Result<T, ValueFault>,
) -> Result<T, ValueFault>
    ensures { IsWithin (decimal place) answer result }
{
    match answer {
        Ok(value) => Ok(value),
        Err(fault) => {
            let key = format!(in alloc; "{place}")?;
            within(alloc, key.as_str(), Err(fault))
        }
    }
}

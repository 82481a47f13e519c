ghost use Rattle.std.specs.Prelude.{◌≡◌, ◌⊎◌, IfOk};
ghost use Rattle.serde_json.specs.Errors.{IsMemory};
ghost use Rattle.hys_file.specs.declared.fault.FileFault.TheVariants.{Json, Limit, Memory};
ghost use Rattle.hys_file.specs.Texts.{shown_path, IsShownAs};

use hys_base::Text;
use hys_json::ValueFault;
use serde_json::Error;
use std::alloc::{AllocError, AllocFailed, Global};

/// Why a file isn't read as what it should be. A path has the keys and the places in lists, joined by
/// points, that lead to what is wrong; that of the whole value is `root`.
#[derive(Debug, Drop)]
pub enum FileFault {
    /// The text is no JSON value.
    Json,
    /// The kind or the fixed word is wrong, a key is missing or unknown, or a rule doesn't hold.
    Shape(Text),
    /// The string is no number text, or its number doesn't fit.
    Number(Text),
    /// The file, or what it says, is over this limit.
    Limit(Text),
    /// Memory was wanting.
    Memory,
}

impl From<AllocError> for FileFault {
    ghost from_gives = { λ _ e. e ≡ Memory };

    fn from(_: AllocError) -> FileFault {
        FileFault::Memory
    }
}

impl<T: Drop> From<AllocFailed<T>> for FileFault {
    ghost from_gives = { λ _ e. e ≡ Memory };

    fn from(_: AllocFailed<T>) -> FileFault {
        FileFault::Memory
    }
}

// The keys and places, joined by points.
fn path_text(alloc: Global, path: &[Text]) -> Result<Text, AllocError>
    ensures { IfOk result (λ text. text ≡ shown_path path.now) }
{
    let Some(first) = path.first() else {
        return Ok(Text::of(String::from_str(alloc, "root")?));
    };
    let mut text = String::from_str(alloc, first.text())?;
    for key in &path[1..] {
        text.push_str(".")?;
        text.push_str(key.text())?;
    }
    Ok(Text::of(text))
}

/// The fault of a value as that of its file.
pub fn of_value(alloc: Global, fault: ValueFault) -> FileFault
    ensures { (result ≡ Memory) ⊎ IsShownAs fault result }
{
    match fault {
        ValueFault::Shape(path) => match path_text(alloc, path.items()) {
            Ok(path) => FileFault::Shape(path),
            Err(_) => FileFault::Memory,
        },
        ValueFault::Number(path) => match path_text(alloc, path.items()) {
            Ok(path) => FileFault::Number(path),
            Err(_) => FileFault::Memory,
        },
        ValueFault::Memory => FileFault::Memory,
    }
}

/// The fault of a text that is no JSON value.
pub fn of_text(error: &Error) -> FileFault
    ensures { (IsMemory error.now × (result ≡ Memory)) ⊎ (¬ (IsMemory error.now) × (result ≡ Json)) }
{
    if error.is_memory() {
        FileFault::Memory
    } else {
        FileFault::Json
    }
}

/// The fault of a limit.
pub fn over_limit(alloc: Global, what: &str) -> FileFault
    ensures { (result ≡ Memory) ⊎ (result ≡ Limit what.now) }
{
    match String::from_str(alloc, what) {
        Ok(what) => FileFault::Limit(Text::of(what)),
        Err(_) => FileFault::Memory,
    }
}

ghost use Rattle.std.specs.Prelude.{◌≡◌, IfOk, string_bytes};
ghost use Rattle.hys_app.specs.Lines as lines;

use hys_file::FileFault;
use std::alloc::{AllocError, Global};

// Why a text of JSON is refused.
#[tactic(auto, unfolding(crate::specs::Lines::file_words))]
fn describe_words(alloc: Global, fault: &FileFault) -> Result<String, AllocError>
    ensures { IfOk result (λ s. string_bytes s ≡ lines.file_words fault.now) }
{
    match fault {
        FileFault::Json => String::from_str(alloc, "json"),
        FileFault::Shape(path) => {
            let path = path.text();
            format!(in alloc; "shape {path}")
        }
        FileFault::Number(path) => {
            let path = path.text();
            format!(in alloc; "number {path}")
        }
        FileFault::Limit(what) => {
            let what = what.text();
            format!(in alloc; "limit {what}")
        }
        FileFault::Memory => Ok(String::new(alloc)),
    }
}

/// The file is refused for what these words say.
#[tactic(auto, unfolding(crate::specs::Lines::file_line))]
pub fn describe_file(alloc: Global, name: &str, words: &str) -> Result<String, AllocError>
    ensures { IfOk result (λ s. string_bytes s ≡ lines.file_line name.now words.now) }
{
    format!(in alloc; "file refused: {name} {words}\n")
}

/// The text of JSON is refused.
pub fn describe_file_fault(
    alloc: Global,
    name: &str,
    fault: &FileFault,
) -> Result<String, AllocError>
    ensures { IfOk result (λ s. string_bytes s ≡ lines.file_line name.now (lines.file_words fault.now)) }
{
    let words = describe_words(alloc, fault)?;
    describe_file(alloc, name, words.as_str())
}

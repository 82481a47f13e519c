ghost use Rattle.std.specs.Prelude.{◌≡◌, ◌++◌, IfOk, string_bytes};

use std::alloc::AllocError;

// Puts a part behind the text.
pub fn put(text: &mut String, part: &str) -> Result<(), AllocError>
    ensures { IfOk result (λ _. string_bytes text.new ≡ string_bytes text.old ++ part.now) }
{
    text.push_str(part)
}

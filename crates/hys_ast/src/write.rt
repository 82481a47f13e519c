//! Tokens written one after the other, each followed by a space.

ghost use Rattle.std.specs.Prelude.{IfOk};
ghost use Rattle.hys_ast.specs.Printed.{WritesToken};

use hys_base::Text;
use std::alloc::AllocError;

/// Appends a token.
pub fn put(out: &mut Vec<u8>, token: &[u8]) -> Result<(), AllocError>
    ensures { IfOk result (λ _. WritesToken out.old.items out.new.items token.now) }
{
    out.extend_from_slice(token)?;
    out.push(b' ')?;
    Ok(())
}

/// Appends the token of this text.
pub fn put_text(out: &mut Vec<u8>, token: &Text) -> Result<(), AllocError>
    ensures { IfOk result (λ _. WritesToken out.old.items out.new.items token.now) }
{
    put(out, token.text().as_bytes())
}

ghost use Rattle.std.specs.Prelude.{◌≡◌, ◌++◌, false, map, nat_lt, string_bytes, IfOk};
ghost use Rattle.std.specs.List.{AllByRecursion};
ghost use Rattle.serde_json.specs.View.{items_of, view};
ghost use Rattle.serde_json.specs.Written.{comma_if, compact_text, has_float, items_have_float};
ghost use Rattle.hys_json.specs.Shown.{list_text};

use crate::writer::Writer;
use serde_json::Value;
use std::alloc::{AllocError, Global};

/// Appends the text of a value without floats, with no blanks.
pub fn push_value(alloc: Global, text: &mut String, value: &Value) -> Result<(), AllocError>
    requires { has_float (view value.now) ≡ false }
    ensures { IfOk result (λ _. string_bytes text.new ≡ string_bytes text.old ++ compact_text (view value.now)) }
{
    let written = value.to_string(alloc)?;
    text.push_str(written.as_str())?;
    Ok(())
}

// Appends the comma before an item that isn't the first.
fn push_comma(text: &mut String, at: usize) -> Result<(), AllocError>
    ensures { IfOk result (λ _. string_bytes text.new ≡ string_bytes text.old ++ comma_if (nat_lt 0 at)) }
{
    if at > 0 {
        text.push(',')?;
    }
    Ok(())
}

/// Appends the text of a list, one item's value after the other.
#[tactic(auto, using(crate::proofs::Pieces::next_piece, crate::proofs::Pieces::none_here, crate::proofs::Pieces::none_next, crate::proofs::Fitted::all_next, crate::proofs::Fitted::all_done))]
pub fn push_list<W: Writer>(
    alloc: Global,
    text: &mut String,
    writer: &W,
    items: &[W::Item],
) -> Result<(), AllocError>
    requires { items_have_float (items_of (map W.shown items.now)) ≡ false }
    ensures text { IfOk result (λ _. string_bytes text.new ≡ string_bytes text.old ++ list_text W.shown items.now) }
    ensures fit { IfOk result (λ _. AllByRecursion W.fit items.now) }
{
    text.push('[')?;
    for (at, item) in items.iter().enumerate() {
        push_comma(text, at)?;
        let value = writer.write(alloc, item)?;
        push_value(alloc, text, &value)?;
    }
    text.push(']')?;
    Ok(())
}

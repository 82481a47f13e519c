ghost use Rattle.std.specs.Prelude.{◌≡◌, map, IfOk, IsTrue, string_bytes};
ghost use Rattle.std.specs.List.{AllByRecursion};
ghost use Rattle.serde_json.specs.View.{view};
ghost use Rattle.serde_json.specs.Data.{Data};
ghost use Rattle.hys_number.specs.Ops.{fits};
ghost use Rattle.hys_frac.specs.Written.{number_text};
ghost use Rattle.hys_json.specs.Shown.{pair_data};

use hys_frac::Frac;
use serde_json::Value;
use std::alloc::{AllocError, Global};

/// The text of a number, which fits as each fraction does.
#[tactic(auto, using(crate::proofs::Fitted::has_fitting_parts))]
pub fn number_text(alloc: Global, number: Frac) -> Result<String, AllocError>
    ensures text { IfOk result (λ s. string_bytes s ≡ number_text number) }
    ensures fits { IsTrue (fits number) }
{
    let _num = number.num();
    let _den = number.den();
    number.text(alloc)
}

/// A column or a row and its fraction, as a list of two.
pub fn pair(alloc: Global, place: u32, number: Frac) -> Result<Value, AllocError>
    ensures value { IfOk result (λ v. view v ≡ pair_data place number) }
    ensures fits { IfOk result (λ _. IsTrue (fits number)) }
{
    let mut items = Vec::with_capacity(alloc, 2)?;
    items.push(Value::from(place))?;
    items.push(Value::String(number_text(alloc, number)?))?;
    Ok(Value::Array(items))
}

/// Writes the items of a list, each as one JSON value.
pub trait Writer {
    /// What is written.
    type Item;

    /// The value that an item is shown as.
    ghost shown: { Self.Item → Data };

    /// That the numbers of an item fit.
    ghost fit: { Self.Item → Type 0 };

    fn write(&self, alloc: Global, item: &Self::Item) -> Result<Value, AllocError>
        ensures value { IfOk result (λ v. view v ≡ shown item.now) }
        ensures fits { IfOk result (λ _. fit item.now) };
}

/// The values of items in their order.
#[tactic(auto, using(crate::proofs::Fitted::all_next, crate::proofs::Fitted::all_done))]
pub fn write_list<W: Writer>(
    alloc: Global,
    writer: &W,
    items: &[W::Item],
) -> Result<Vec<Value>, AllocError>
    ensures values { IfOk result (λ v. map view v.items ≡ map W.shown items.now) }
    ensures fit { IfOk result (λ _. AllByRecursion W.fit items.now) }
{
    let mut values = Vec::with_capacity(alloc, items.len())?;
    for item in items {
        values.push(writer.write(alloc, item)?)?;
    }
    Ok(values)
}

ghost use Rattle.std.specs.Prelude.{◌≡◌, List, IfOk};
ghost use Rattle.serde_json.specs.Data.{Data};
ghost use Rattle.serde_json.specs.View.{view};
ghost use Rattle.hys_json.specs.Checks.{Check, Judged};
ghost use Rattle.hys_json.specs.Values.{list_checks, AreRead};

use crate::fault::{ValueFault, within_item};
use crate::value::read_items;
use serde_json::Value;
use std::alloc::Global;

/// Reads the items of a list one after the other. What is asked of an item may turn on those before
/// it, which the reader keeps.
pub trait Reader {
    /// What an item is read as.
    type Item;

    /// What is looked for in an item.
    ghost asked: { Self → Data → List Check };

    /// What an item stands for.
    ghost meant: { Data → Self.Item };

    /// What the reader keeps after an item.
    ghost after: { Self → Data → Self };

    fn read(&mut self, alloc: Global, value: &Value) -> Result<Self::Item, ValueFault>
        ensures judged { Judged (asked self.old (view value.now)) (λ x. x ≡ meant (view value.now)) result }
        ensures kept { IfOk result (λ _. self.new ≡ after self.old (view value.now)) };
}

/// The items of a list, or the fault of the first that can't be read.
#[tactic(auto, unfolding(crate::specs::Values::list_checks))]
pub fn read_list<R: Reader>(
    alloc: Global,
    reader: &mut R,
    value: &Value,
) -> Result<Vec<R::Item>, ValueFault>
where
    R::Item: Drop,
    ensures { Judged (list_checks R.asked R.after reader.old (view value.now)) (AreRead R.meant (view value.now)) result }
{
    let values = read_items(alloc, value)?;
    let mut items = Vec::new(alloc);
    for (place, value) in values.iter().enumerate() {
        match within_item(alloc, place, reader.read(alloc, value)) {
            Ok(item) => items.push(item)?,
            Err(fault) => return Err(fault),
        }
    }
    Ok(items)
}

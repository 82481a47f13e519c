ghost use Rattle.std.specs.Prelude.{◌≡◌, ◌<◌, ◌^◌, IfOk};
ghost use Rattle.hys_prog.specs.Programs.{EachItem, items_weight};
ghost use Rattle.hys_rows.specs.Items.{FormulaWithin};
ghost use Rattle.hys_mld.specs.Fresh.{fresh_of_items};

use hys_prog::ProgItem;
use hys_rows::fresh_in;
use std::alloc::{AllocError, Global};

// The number of fresh columns of the items.
pub fn count_fresh(alloc: Global, items: &[ProgItem], columns: &[u32]) -> Result<u32, AllocError>
    requires within { EachItem (λ t. FormulaWithin columns.now t.body) items.now }
    requires weight { items_weight items.now < 2 ^ 32 }
    ensures { IfOk result (λ n. n ≡ fresh_of_items columns.now items.now) }
{
    let mut count = 0;
    for item in items {
        count += fresh_in(alloc, &item.body, columns)?;
    }
    Ok(count)
}

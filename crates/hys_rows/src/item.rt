ghost use Rattle.std.specs.Prelude.{◌≡◌, ◌≤◌, ◌<◌, ◌+◌, ◌^◌, IfOk, length};
ghost use Rattle.hys_prog.specs.Programs.{body_connectives};
ghost use Rattle.hys_prog.specs.Steps.{OfName};
ghost use Rattle.hys_rows.specs.Items.{FitsNames};
ghost use Rattle.hys_rows.specs.Numbers.{numbers_of, Judged};
ghost use Rattle.hys_rows.specs.Parts.{own_column as column_of, Adds};

use crate::added::Added;
use crate::body::add_body;
use crate::fault::RowFault;
use hys_formula::NameId;
use hys_lin::{Interval, Row};
use hys_prog::ProgItem;
use std::alloc::Global;

/// Adds the rows of an item, whose fresh columns begin at `first_free`. `columns` gives the column
/// of each name and `boxes` its interval. With 0 or 1 in the columns of Boolean names and in the
/// fresh ones, and with the names of a guard number or of affine forms in their intervals, the rows
/// hold exactly where the item's case and its demand hold, its guard number isn't in the gap, and
/// each fresh column has its truth; there the form has the number that the item gives.
///
/// # Errors
/// `Lost` exactly where a number of the rows doesn't fit, with the first. On an error nothing is
/// said of `rows`.
pub fn add_item(
    alloc: Global,
    item: &ProgItem,
    columns: &[u32],
    boxes: &[Interval],
    first_free: u32,
    rows: &mut Vec<Row>,
) -> Result<Added, RowFault>
    requires names { FitsNames boxes.now columns.now first_free item.now }
    requires room { first_free + body_connectives item.now.body ≤ 2 ^ 32 }
    requires count { body_connectives item.now.body < 2 ^ 32 }
    ensures added { IfOk result (λ a. Adds boxes.now columns.now first_free item.now rows.old.items rows.new.items a) }
    ensures judged { Judged (numbers_of boxes.now columns.now first_free item.now.body) result }
{
    let own = own_column(item.name, columns);
    add_body(alloc, &item.body, own, columns, boxes, first_free, rows)
}

// The column of the name that an item defines, where it defines one.
fn own_column(name: Option<NameId>, columns: &[u32]) -> u32
    requires { OfName (λ n. n < length columns.now) name }
    ensures { result ≡ column_of columns.now name }
{
    match name {
        Some(name) => columns[name as usize],
        None => 0,
    }
}

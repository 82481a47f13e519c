ghost use Rattle.std.specs.Prelude.{◌≡◌, ◌+◌, ◌<◌, ◌≤◌, ◌^◌, ◌++◌, length, replicate, IfOk, OnOk};
ghost use Rattle.hys_bound.specs.Ranges.{all_at};
ghost use Rattle.hys_prog.specs.Programs.{body_connectives, items_weight};
ghost use Rattle.hys_prog.specs.Steps.{OfName};
ghost use Rattle.hys_exact.specs.Labels.{label_of as label_by};
ghost use Rattle.hys_rows.specs.Items.{FitsNames};
ghost use Rattle.hys_rows.specs.Numbers.{numbers_of};
ghost use Rattle.hys_rows.specs.Parts.{Adds};
ghost use Rattle.hys_mld.specs.Answers.{Judged};
ghost use Rattle.hys_mld.specs.Lines.{HasLines, ItemsFit};
ghost use Rattle.hys_mld.specs.Numbers.{items_numbers};

use crate::fault::BuildFault;
use hys_base::Text;
use hys_lin::{Affine, Interval, Row};
use hys_prog::{Name, ProgItem};
use hys_rows::{Added, RowFault, add_item};
use std::alloc::{AllocError, Global};

/// The rows of items with their labels, and for each item its form.
#[derive(Drop)]
pub struct Lines {
    pub rows: Vec<Row>,
    pub labels: Vec<Text>,
    pub forms: Vec<Affine>,
}

// The label of the item's rows.
fn label_of(alloc: Global, names: &[Name], item: &ProgItem) -> Result<Text, AllocError>
    requires { OfName (λ n. n < length names.now) item.now.name }
    ensures { IfOk result (λ t. t ≡ label_by names.now item.now) }
{
    match item.name {
        Some(name) => names[name as usize].text.clone(),
        None => Ok(Text::of(format!(in alloc; "must {}:{}", item.place.line, item.place.col)?)),
    }
}

// Adds the label of the item so many times.
fn add_labels(
    alloc: Global,
    names: &[Name],
    item: &ProgItem,
    count: usize,
    labels: &mut Vec<Text>,
) -> Result<(), AllocError>
    requires { OfName (λ n. n < length names.now) item.now.name }
    ensures { OnOk result (labels.new.items ≡ labels.old.items ++ replicate count (label_by names.now item.now)) }
{
    for _ in 0..count {
        labels.push(label_of(alloc, names, item)?)?;
    }
    Ok(())
}

// Adds the rows of the item at the place.
fn add_here(
    alloc: Global,
    place: usize,
    item: &ProgItem,
    columns: &[u32],
    boxes: &[Interval],
    free: u32,
    rows: &mut Vec<Row>,
) -> Result<Added, BuildFault>
    requires names { FitsNames boxes.now columns.now free item.now }
    requires room { free + body_connectives item.now.body ≤ 2 ^ 32 }
    requires count { body_connectives item.now.body < 2 ^ 32 }
    ensures added { IfOk result (λ a. Adds boxes.now columns.now free item.now rows.old.items rows.new.items a) }
    ensures judged { Judged (all_at place (numbers_of boxes.now columns.now free item.now.body)) result }
{
    match add_item(alloc, item, columns, boxes, free, rows) {
        Ok(added) => Ok(added),
        Err(RowFault::Lost(lost)) => match u32::try_from(place) {
            Ok(item) => Err(BuildFault::Range(item, lost)),
            Err(_) => Err(BuildFault::Memory),
        },
        Err(RowFault::Memory) => Err(BuildFault::Memory),
    }
}

// The lines of the items, whose fresh columns begin at `first`.
pub fn write_lines(
    alloc: Global,
    names: &[Name],
    items: &[ProgItem],
    columns: &[u32],
    boxes: &[Interval],
    first: u32,
) -> Result<Lines, BuildFault>
    requires fit { ItemsFit names.now boxes.now columns.now first items.now }
    requires room { first + items_weight items.now < 2 ^ 32 }
    ensures lines { IfOk result (λ l. HasLines names.now boxes.now columns.now first items.now l) }
    ensures judged { Judged (items_numbers boxes.now columns.now first 0 items.now) result }
{
    let mut rows = Vec::new(alloc);
    let mut labels = Vec::new(alloc);
    let mut forms = Vec::new(alloc);
    let mut free = first;
    for (place, item) in items.iter().enumerate() {
        let before = rows.len();
        let added = match add_here(alloc, place, item, columns, boxes, free, &mut rows) {
            Ok(added) => added,
            Err(fault) => return Err(fault),
        };
        let Added { fresh, form } = added;
        add_labels(alloc, names, item, rows.len() - before, &mut labels)?;
        forms.push(form)?;
        free += fresh;
    }
    Ok(Lines {
        rows,
        labels,
        forms,
    })
}

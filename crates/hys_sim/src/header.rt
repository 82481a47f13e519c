ghost use Rattle.std.specs.Prelude.{◌≡◌, ◌⊎◌, ◌∷◌, [], length, suc, Some, IfOk};
ghost use Rattle.csv.specs.Records.{fields_of};
ghost use Rattle.hys_sim.specs.Checks.{Judged, check};
ghost use Rattle.hys_sim.specs.Tables.{column_checks, column_place, head_checks, header_checks, is_among, kind_of, length_checks, missing_checks, places_under, text_checks, column_check, kinds_under, table_columns, table_data, table_records, text_check};
ghost use Rattle.hys_sim.specs.Recorded.{IsReading};
ghost use Rattle.hys_sim.specs.declared.fault.SimFault.TheVariants.{Column, Csv, Memory};
ghost use Rattle.hys_sim.specs.Views.{field_in, header_columns, header_fields, left_in, lent};

use crate::fault::{SimFault, Which};
use crate::names::{is_one_of, kind_under};
use crate::records::{field_at, next, reader_of};
use csv::{ByteRecord, Reader};
use hys_ast::Kind;
use hys_base::Text;
use hys_prog::Name;
use std::alloc::{AllocError, Global};

/// Where a table has its names: the kinds of its columns after the first, and the place of each name.
#[derive(Drop)]
pub struct Layout {
    pub kinds: Vec<Kind>,
    pub places: Vec<usize>,
}

/// The head of a table, with the number of the records after it.
#[derive(Drop)]
pub struct Head {
    pub layout: Layout,
    pub count: u32,
}

/// The number after another, where a u32 can hold it.
pub fn number_after(number: u32) -> Result<u32, AllocError>
    ensures { IfOk result (λ n. n ≡ suc number) }
{
    number.checked_add(1).ok_or(AllocError)
}

/// The head of a table with columns for the names, where its records are as long as its header.
pub fn head_of(alloc: Global, which: Which, names: &[&Name], text: &[u8]) -> Result<Head, SimFault>
    ensures judged { Judged (head_checks which (lent names.now) (table_records text.now)) result }
    ensures count { IfOk result (λ h. h.count ≡ length (table_data text.now)) }
    ensures kinds { IfOk result (λ h. h.layout.kinds.items ≡ kinds_under (lent names.now) (table_columns text.now)) }
    ensures places { IfOk result (λ h. h.layout.places.items ≡ places_under (lent names.now) (table_columns text.now)) }
{
    let mut reader = reader_of(alloc, text);
    let mut header = ByteRecord::new(alloc);
    if !next(&mut reader, &mut header)? {
        return Err(SimFault::Csv(which, 0));
    }
    head_under(alloc, which, names, &header, &mut reader)
}

// The head of a table with this header, whose other records the reader has left.
#[tactic(auto, using(crate::proofs::Judging::fails_first, crate::proofs::Judging::fails_second, crate::proofs::Judging::fails_third, crate::proofs::Judging::none_after_none, crate::proofs::Judging::none_of_three))]
fn head_under(
    alloc: Global,
    which: Which,
    names: &[&Name],
    header: &ByteRecord,
    reader: &mut Reader<&[u8]>,
) -> Result<Head, SimFault>
    requires { IsReading (λ s. Some s.now) reader.old }
    ensures judged { Judged (head_checks which (lent names.now) (fields_of header.now ∷ left_in reader.old)) result }
    ensures count { IfOk result (λ h. h.count ≡ length (left_in reader.old)) }
    ensures kinds { IfOk result (λ h. h.layout.kinds.items ≡ kinds_under (lent names.now) (header_columns header.now)) }
    ensures places { IfOk result (λ h. h.layout.places.items ≡ places_under (lent names.now) (header_columns header.now)) }
{
    let texts = match texts_of(alloc, which, header) {
        Ok(texts) => texts,
        Err(fault) => return Err(fault),
    };
    let count = match count_records(alloc, which, header.len(), reader) {
        Ok(count) => count,
        Err(fault) => return Err(fault),
    };
    match texts.split_first() {
        Some((first, columns)) => match layout_of(alloc, which, names, *first, columns) {
            Ok(layout) => Ok(Head { layout, count }),
            Err(fault) => Err(fault),
        },
        None => Err(SimFault::Csv(which, 0)),
    }
}

// The fields of the header, stripped, where each is text.
fn texts_of(alloc: Global, which: Which, header: &ByteRecord) -> Result<Vec<&str>, SimFault>
    ensures judged { Judged (text_checks which (header_fields header.now)) result }
    ensures value { IfOk result (λ ts. lent ts.items ≡ header_fields header.now) }
{
    let mut texts = Vec::new(alloc);
    for place in 0..header.len() {
        match text_at(which, header, place) {
            Ok(text) => texts.push(text)?,
            Err(fault) => return Err(fault),
        }
    }
    Ok(texts)
}

// The field of the header at the place, stripped, where it is text.
fn text_at(which: Which, header: &ByteRecord, place: usize) -> Result<&str, SimFault>
    ensures judged { Judged (text_check which (field_in header.now place) ∷ []) result }
    ensures value { IfOk result (λ t. t.now ≡ field_in header.now place) }
{
    match str::from_utf8(field_at(header, place)) {
        Ok(text) => Ok(text),
        Err(_) => Err(SimFault::Csv(which, 0)),
    }
}

// The number of the records that are left, where each is as long as the header.
#[tactic(auto, using(crate::proofs::Counting::count_more, crate::proofs::Counting::count_wrong, crate::proofs::Counting::count_end))]
fn count_records(
    alloc: Global,
    which: Which,
    width: usize,
    reader: &mut Reader<&[u8]>,
) -> Result<u32, SimFault>
    requires { IsReading (λ s. Some s.now) reader.old }
    ensures judged { Judged (length_checks which width 1 (left_in reader.old)) result }
    ensures value { IfOk result (λ n. n ≡ length (left_in reader.old)) }
{
    let mut row = ByteRecord::new(alloc);
    let mut count = 0u32;
    'records: while next(reader, &mut row)? {
        count = number_after(count)?;
        if row.len() != width {
            return Err(SimFault::Csv(which, count));
        }
    }
    Ok(count)
}

// The fault of a column, with its text.
fn wrong(alloc: Global, which: Which, text: &str) -> SimFault
    ensures { (result ≡ Column which text.now) ⊎ (result ≡ Memory) }
{
    match String::from_str(alloc, text) {
        Ok(text) => SimFault::Column(which, Text::of(text)),
        Err(_) => SimFault::Memory,
    }
}

// The layout under a header: `step`, and then the names, each once.
#[tactic(auto, using(crate::proofs::Judging::fails_first, crate::proofs::Judging::fails_second, crate::proofs::Judging::fails_behind, crate::proofs::Judging::passes_behind, crate::proofs::Judging::none_after_none, crate::proofs::Judging::shown))]
fn layout_of(
    alloc: Global,
    which: Which,
    names: &[&Name],
    first: &str,
    columns: &[&str],
) -> Result<Layout, SimFault>
    ensures judged { Judged (header_checks which (lent names.now) (first.now ∷ lent columns.now)) result }
    ensures kinds { IfOk result (λ l. l.kinds.items ≡ kinds_under (lent names.now) (lent columns.now)) }
    ensures places { IfOk result (λ l. l.places.items ≡ places_under (lent names.now) (lent columns.now)) }
{
    if first != "step" {
        return Err(wrong(alloc, which, first));
    }
    let kinds = match kinds_of(alloc, which, names, columns) {
        Ok(kinds) => kinds,
        Err(fault) => return Err(fault),
    };
    let places = match places_of(alloc, which, names, columns) {
        Ok(places) => places,
        Err(fault) => return Err(fault),
    };
    Ok(Layout { kinds, places })
}

// The kinds of the columns, where each has one of the names and none is there twice.
fn kinds_of(
    alloc: Global,
    which: Which,
    names: &[&Name],
    columns: &[&str],
) -> Result<Vec<Kind>, SimFault>
    ensures judged { Judged (column_checks which (lent names.now) [] (lent columns.now)) result }
    ensures value { IfOk result (λ ks. ks.items ≡ kinds_under (lent names.now) (lent columns.now)) }
{
    let mut kinds = Vec::new(alloc);
    for (place, column) in columns.iter().enumerate() {
        match kind_at(alloc, which, names, &columns[..place], *column) {
            Ok(kind) => kinds.push(kind)?,
            Err(fault) => return Err(fault),
        }
    }
    Ok(kinds)
}

// The kind of a column, where it has one of the names and isn't among those before it.
fn kind_at(
    alloc: Global,
    which: Which,
    names: &[&Name],
    seen: &[&str],
    column: &str,
) -> Result<Kind, SimFault>
    ensures judged { Judged (column_check which (lent names.now) (lent seen.now) column.now ∷ []) result }
    ensures value { IfOk result (λ k. k ≡ kind_of (lent names.now) column.now) }
{
    match kind_under(names, column) {
        Some(kind) => {
            if is_one_of(column, seen) {
                return Err(wrong(alloc, which, column));
            }
            Ok(kind)
        }
        None => Err(wrong(alloc, which, column)),
    }
}

// The places of the columns of the names, where each name has one.
fn places_of(
    alloc: Global,
    which: Which,
    names: &[&Name],
    columns: &[&str],
) -> Result<Vec<usize>, SimFault>
    ensures judged { Judged (missing_checks which (lent names.now) (lent columns.now)) result }
    ensures value { IfOk result (λ ns. ns.items ≡ places_under (lent names.now) (lent columns.now)) }
{
    let mut places = Vec::new(alloc);
    for name in names {
        match place_of(alloc, which, name.text.text(), columns) {
            Ok(place) => places.push(place)?,
            Err(fault) => return Err(fault),
        }
    }
    Ok(places)
}

// The place of the column with the text, where there is one.
fn place_of(alloc: Global, which: Which, text: &str, columns: &[&str]) -> Result<usize, SimFault>
    ensures judged { Judged (check (is_among text.now (lent columns.now)) (Column which text.now) ∷ []) result }
    ensures value { IfOk result (λ n. n ≡ column_place (lent columns.now) text.now) }
{
    for (place, column) in columns.iter().enumerate() {
        if text == *column {
            return Ok(place + 1);
        }
    }
    Err(wrong(alloc, which, text))
}

ghost use Rattle.std.specs.Prelude.{◌≡◌, ◌⊎◌, suc, IfOk};
ghost use Rattle.csv.specs.Records.{fields_of};
ghost use Rattle.hys_number.specs.Ops.{whole};
ghost use Rattle.hys_frac.specs.Read.{reading};
ghost use Rattle.hys_prog.specs.Stops.{of_kind};
ghost use Rattle.hys_sim.specs.Checks.{Judged};
ghost use Rattle.hys_sim.specs.Fields.{number_or_zero, says as says_number, suits};
ghost use Rattle.hys_sim.specs.Tables.{kind_checks, record_checks, records_checks, values_at as values_in, table_data};
ghost use Rattle.hys_sim.specs.declared.fault.SimFault.TheVariants.{Memory, Value};

use crate::fault::{SimFault, Which};
use crate::header::number_after;
use crate::records::{data_reader, field_at, next};
use csv::ByteRecord;
use hys_ast::Kind;
use hys_frac::Frac;
use std::alloc::{AllocError, Global};

/// Each record after the header has the number of its step, and numbers of the kinds of its columns.
#[tactic(auto, using(crate::proofs::Counting::record_more, crate::proofs::Counting::record_wrong, crate::proofs::Counting::record_end))]
pub fn judge_records(
    alloc: Global,
    which: Which,
    kinds: &[Kind],
    text: &[u8],
) -> Result<(), SimFault>
    ensures { Judged (records_checks which kinds.now 0 (table_data text.now)) result }
{
    let mut reader = data_reader(alloc, text)?;
    let mut row = ByteRecord::new(alloc);
    let mut step = 0u32;
    'records: while next(&mut reader, &mut row)? {
        match judge_record(which, kinds, step, &row) {
            Ok(number) => step = number,
            Err(fault) => return Err(fault),
        }
    }
    Ok(())
}

// The record has the number of its step, and numbers of the kinds; the number of the record.
#[tactic(auto, using(crate::proofs::Judging::fails_behind, crate::proofs::Judging::passes_behind))]
fn judge_record(which: Which, kinds: &[Kind], step: u32, row: &ByteRecord) -> Result<u32, SimFault>
    ensures judged { Judged (record_checks which kinds.now step (fields_of row.now)) result }
    ensures value { IfOk result (λ n. n ≡ suc step) }
{
    let number = number_after(step)?;
    if !says(step, field_at(row, 0)) {
        return Err(SimFault::Value(which, number, 1));
    }
    match judge_kinds(which, number, kinds, row) {
        Ok(_) => Ok(number),
        Err(fault) => Err(fault),
    }
}

// Whether the field says the number.
fn says(number: u32, field: &[u8]) -> bool
    ensures { result ≡ says_number (whole number) (reading field.now) }
{
    match Frac::read(field) {
        Ok(said) => said == Frac::whole(number),
        Err(_) => false,
    }
}

// The fields of the record after the first are numbers of the kinds.
fn judge_kinds(which: Which, number: u32, kinds: &[Kind], row: &ByteRecord) -> Result<(), SimFault>
    ensures { Judged (kind_checks which number (fields_of row.now) 1 kinds.now) result }
{
    for (place, kind) in kinds.iter().enumerate() {
        if !says_kind(*kind, field_at(row, place + 1)) {
            return Err(unsuited(which, number, place));
        }
    }
    Ok(())
}

// The fault of the field after the one at the place.
fn unsuited(which: Which, number: u32, place: usize) -> SimFault
    ensures { (result ≡ Value which number (suc (suc place))) ⊎ (result ≡ Memory) }
{
    match u32::try_from(place) {
        Ok(place) => match place.checked_add(2) {
            Some(column) => SimFault::Value(which, number, column),
            None => SimFault::Memory,
        },
        Err(_) => SimFault::Memory,
    }
}

// Whether the field is a number of the kind.
fn says_kind(kind: Kind, field: &[u8]) -> bool
    ensures { result ≡ suits kind (reading field.now) }
{
    match Frac::read(field) {
        Ok(number) => is_of_kind(kind, number),
        Err(_) => false,
    }
}

// Whether the number is 0 or 1 where the kind is Boolean.
fn is_of_kind(kind: Kind, number: Frac) -> bool
    ensures { result ≡ of_kind kind number }
{
    match kind {
        Kind::Real => true,
        Kind::Bool => number == Frac::whole(0) || number == Frac::whole(1),
    }
}

/// The numbers of the record at the places.
pub fn values_at(alloc: Global, places: &[usize], row: &ByteRecord) -> Result<Vec<Frac>, AllocError>
    ensures { IfOk result (λ ns. ns.items ≡ values_in places.now (fields_of row.now)) }
{
    let mut values = Vec::with_capacity(alloc, places.len())?;
    for place in places {
        values.push(number_of(field_at(row, *place)))?;
    }
    Ok(values)
}

// The number that the field says.
fn number_of(field: &[u8]) -> Frac
    ensures { result ≡ number_or_zero (reading field.now) }
{
    match Frac::read(field) {
        Ok(number) => number,
        Err(_) => Frac::whole(0),
    }
}

ghost use Rattle.std.specs.Prelude.{◌≡◌, true, Some, IfOk};
ghost use Rattle.csv.specs.Records.{fields_of};
ghost use Rattle.hys_sim.specs.Recorded.{IsNext, IsReading};
ghost use Rattle.hys_sim.specs.Tables.{table_records, table_data};
ghost use Rattle.hys_sim.specs.Views.{field_in, left_in};

use crate::fields::strip;
use csv::{ByteRecord, Reader, ReaderBuilder};
use std::alloc::{AllocError, Global};

/// A reader of the records of a table, of whatever lengths.
pub fn reader_of(alloc: Global, text: &[u8]) -> Reader<&[u8]>
    ensures reading { IsReading (λ s. Some s.now) result }
    ensures left { left_in result ≡ table_records text.now }
{
    ReaderBuilder::new()
        .has_headers(false)
        .flexible(true)
        .from_reader(alloc, text)
}

/// A reader of the records after the header.
pub fn data_reader(alloc: Global, text: &[u8]) -> Result<Reader<&[u8]>, AllocError>
    ensures reading { IfOk result (λ r. IsReading (λ s. Some s.now) r) }
    ensures left { IfOk result (λ r. left_in r ≡ table_data text.now) }
{
    let mut reader = reader_of(alloc, text);
    let mut header = ByteRecord::new(alloc);
    if next(&mut reader, &mut header)? {
        Ok(reader)
    } else {
        Ok(reader_of(alloc, text))
    }
}

/// Reads the next record, if there is one.
pub fn next(reader: &mut Reader<&[u8]>, row: &mut ByteRecord) -> Result<bool, AllocError>
    requires { IsReading (λ s. Some s.now) reader.old }
    ensures reading { IfOk result (λ found. found ≡ true → IsReading (λ s. Some s.now) reader.new) }
    ensures next { IfOk result (λ found. IsNext found (fields_of row.new) (left_in reader.old) (left_in reader.new)) }
{
    let found = match reader.read_byte_record(row) {
        Ok(found) => found,
        Err(_) => return Err(AllocError),
    };
    Ok(found)
}

/// The field of the record at the place, without the blanks round it.
pub fn field_at(row: &ByteRecord, place: usize) -> &[u8]
    ensures { result.now ≡ field_in row.now place }
{
    match row.get(place) {
        Some(field) => strip(field),
        None => strip(b""),
    }
}

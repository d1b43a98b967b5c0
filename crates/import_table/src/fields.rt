ghost use Rattle.std.specs.Prelude.{◌≡◌, ◌≢◌, ◌∷◌, [], length, IfOk, OnOk, MatchOption};
ghost use Rattle.csv.specs.Reading.{NextIs, reader_state, strip_bom};
ghost use Rattle.csv.specs.Records.{fields_of};
ghost use Rattle.csv.specs.declared.parser.State.TheVariants.{StartRecord};
ghost use Rattle.import_table.specs.Imports.{is_header};
ghost use Rattle.import_table.specs.Reading.{IsOpen, left, next_in};

use crate::types::NoMemory;
use csv::{ByteRecord, Reader, ReaderBuilder};
use std::alloc::{AllocError, Global};

/// How many fields a record has: a desk, a request and a command.
const FIELDS: usize = 3;

/// A reader of these bytes. Its records may have any number of fields.
pub fn open_reader(alloc: Global, bytes: &[u8]) -> Reader<&[u8]>
    ensures open { IsOpen result }
    ensures state { reader_state result ≡ StartRecord }
    ensures left { left result ≡ strip_bom bytes.now }
{
    ReaderBuilder::new()
        .has_headers(false)
        .flexible(true)
        .from_reader(alloc, bytes)
}

/// Reads the next record; false at the end. Reading bytes in memory doesn't fail, and records may
/// have any number of fields, so that the error is want of memory.
pub fn read_fields(reader: &mut Reader<&[u8]>, row: &mut ByteRecord) -> Result<bool, NoMemory>
    requires { IsOpen reader.old }
    ensures open { OnOk result (IsOpen reader.new) }
    ensures read { IfOk result (λ found. NextIs (next_in reader.old) found (fields_of row.new)
        (reader_state reader.new) (left reader.new)) }
{
    match reader.read_byte_record(row) {
        Ok(found) => Ok(found),
        Err(_) => Err(AllocError),
    }
}

/// The fields of a record, where there are three.
pub fn three_fields(row: &ByteRecord) -> Option<(&[u8], &[u8], &[u8])>
    ensures { MatchOption result (length (fields_of row.now) ≢ 3)
        (λ fields. fields_of row.now ≡ fields.0.now ∷ fields.1.now ∷ fields.2.now ∷ []) }
{
    if row.len() != FIELDS {
        return None;
    }
    let desk = row.get(0)?;
    let request = row.get(1)?;
    let command = row.get(2)?;
    Some((desk, request, command))
}

/// Whether a record is the header.
pub fn is_header(row: &ByteRecord) -> bool
    ensures { result ≡ is_header (fields_of row.now) }
{
    match three_fields(row) {
        Some((desk, request, command)) => has_names(desk, request, command),
        None => false,
    }
}

// Whether three fields are the names of the header.
fn has_names(desk: &[u8], request: &[u8], command: &[u8]) -> bool
    ensures { result ≡ is_header (desk.now ∷ request.now ∷ command.now ∷ []) }
{
    desk == b"desk".as_slice()
        && request == b"request".as_slice()
        && command == b"command".as_slice()
}

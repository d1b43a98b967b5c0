ghost use Rattle.std.specs.Prelude.{◌≡◌, ◌⊎◌, IfOk, IfErr};
ghost use Rattle.import_table.specs.Imports.{import_in, stopped};
ghost use Rattle.import_table.specs.Reading.{IsReading, HasRead, left_in};
ghost use Rattle.import_table.specs.declared.types.ImportError.TheVariants.{NoMemory};

use crate::fields::{is_header, open_reader, read_fields};
use crate::script_line::read_command;
use crate::types::{ImportError, LAST_RECORD, MAX_IMPORT};
use csv::{ByteRecord, Reader};
use script_lines::Command;
use std::alloc::Global;

/// The records of an import behind its header.
#[derive(Drop)]
pub struct Records<'a> {
    pub reader: Reader<&'a [u8]>,
    /// The fields of the record that was read last.
    pub row: ByteRecord,
    /// The line that its fields make.
    pub line: Vec<u8>,
    /// The number of the next record.
    pub number: u32,
}

/// The records of an import whose header is right.
pub fn open_records(alloc: Global, bytes: &[u8]) -> Result<Records<'_>, ImportError>
    ensures reading { IfOk result (λ records. IsReading records) }
    ensures left { IfOk result (λ records. left_in records ≡ import_in bytes.now) }
    ensures error { IfErr result
        (λ error. (error ≡ NoMemory) ⊎ (import_in bytes.now ≡ stopped error)) }
{
    if bytes.len() > MAX_IMPORT {
        return Err(ImportError::Bad { record: 0 });
    }
    let mut reader = open_reader(alloc, bytes);
    let mut row = ByteRecord::new(alloc);
    let found = read_fields(&mut reader, &mut row)?;
    if !found {
        return Err(ImportError::Bad { record: 1 });
    }
    if !is_header(&row) {
        return Err(ImportError::Bad { record: 1 });
    }
    Ok(Records {
        reader,
        row,
        line: Vec::new(alloc),
        number: 2,
    })
}

/// The command of the next record; none at the end.
pub fn next_command(records: &mut Records<'_>) -> Result<Option<Command>, ImportError>
    requires { IsReading records.old }
    ensures { HasRead records.old result records.new }
{
    let found = read_fields(&mut records.reader, &mut records.row)?;
    if !found {
        return Ok(None);
    }
    if records.number > LAST_RECORD {
        return Err(ImportError::TooMany);
    }
    let Some(command) = read_command(&records.row, &mut records.line)? else {
        return Err(ImportError::Bad {
            record: records.number,
        });
    };
    records.number += 1;
    Ok(Some(command))
}

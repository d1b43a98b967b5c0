ghost use Rattle.std.specs.Prelude.{◌≡◌};
ghost use Rattle.import_table.specs.Imports.{IsNext};
ghost use Rattle.import_table.specs.Reading.{MayRead, unread, progress_behind};

use crate::records::{Records, next_command, open_records};
use crate::types::{ImportError, Progress};
use script_lines::Command;
use std::alloc::Global;
use std::marker::Model;

/// A reader of an import in memory, which gives one command after the other. Its memory doesn't
/// grow with the number of records: it keeps the fields of one record and the line that they make.
#[derive(Drop)]
pub struct ImportReader<'a> {
    progress: Progress,
    records: Records<'a>,
}

// Clauses see what is left to be read.
impl<'a> Model for ImportReader<'a> {
    ghost use Rattle.import_table.specs.Imports.{Import};
    ghost use Rattle.import_table.specs.Reading.{MayRead, unread};

    ghost Value = { Import };

    ghost view = { λ reader. unread reader.progress reader.records };

    ghost invariant = { λ reader. MayRead reader.progress reader.records };
}

impl<'a> ImportReader<'a> {
    ghost use Rattle.std.specs.Prelude.{◌≡◌, ◌⊎◌, IfOk, IfErr};
    ghost use Rattle.import_table.specs.Imports.{IsNext, import_in, stopped};
    ghost use Rattle.import_table.specs.declared.types.ImportError.TheVariants.{NoMemory};

    /// Opens an import and reads its header. `Bad` with record 0 comes exactly for more than
    /// `MAX_IMPORT` bytes, with record 1 exactly for another header or none.
    pub fn new(alloc: Global, bytes: &'a [u8]) -> Result<ImportReader<'a>, ImportError>
        ensures import { IfOk result (λ reader. reader ≡ import_in bytes.now) }
        ensures error { IfErr result
            (λ error. (error ≡ NoMemory) ⊎ (import_in bytes.now ≡ stopped error)) }
    {
        let records = open_records(alloc, bytes)?;
        Ok(ImportReader {
            progress: Progress::Reading,
            records,
        })
    }

    /// The command of the next record; `None` at the end. An error comes again at each later call.
    pub fn next(&mut self) -> Result<Option<Command>, ImportError>
        ensures { IsNext self.old result self.new }
    {
        read_next(&mut self.progress, &mut self.records)
    }
}

// The next command, and how far the import was read then.
fn read_next(
    progress: &mut Progress,
    records: &mut Records<'_>,
) -> Result<Option<Command>, ImportError>
    requires { MayRead progress.old records.old }
    ensures may { MayRead progress.new records.new }
    ensures next { IsNext (unread progress.old records.old) result
        (unread progress.new records.new) }
{
    match *progress {
        Progress::AtEnd => Ok(None),
        Progress::Stopped(error) => Err(error),
        Progress::Reading => {
            let read = next_command(records);
            *progress = progress_behind(&read);
            read
        }
    }
}

// How far an import was read behind an answer.
fn progress_behind(read: &Result<Option<Command>, ImportError>) -> Progress
    ensures { result ≡ progress_behind read.now }
{
    match read {
        Ok(Some(_)) => Progress::Reading,
        Ok(None) => Progress::AtEnd,
        Err(error) => Progress::Stopped(*error),
    }
}

ghost use Rattle.std.specs.Prelude.{◌≡◌, IfOk, OnOk};
ghost use Rattle.csv.specs.Records.{fields_of};
ghost use Rattle.script_lines.specs.Lines.{has_end};
ghost use Rattle.import_table.specs.Imports.{command_in, line_command, script_line};

use crate::fields::three_fields;
use crate::types::NoMemory;
use csv::ByteRecord;
use script_lines::{Allowed, Command, Line, MAX_LINE, read_last_line, split_line};

/// What a record may ask: acts alone, as a script may ask them of a desk.
const ACTS_ALONE: Allowed = Allowed {
    questions: false,
    lanes: 0,
};

/// The command that the fields of a record ask, where they ask one. The line is made in `line`.
pub fn read_command(row: &ByteRecord, line: &mut Vec<u8>) -> Result<Option<Command>, NoMemory>
    ensures { IfOk result (λ command. command ≡ command_in (fields_of row.now)) }
{
    let Some((desk, request, command)) = three_fields(row) else {
        return Ok(None);
    };
    if desk.len() > MAX_LINE || request.len() > MAX_LINE || command.len() > MAX_LINE {
        return Ok(None);
    }
    write_line(line, desk, request, command)?;
    Ok(line_command(line))
}

// Makes the line of a desk, a request and a command.
fn write_line(
    line: &mut Vec<u8>,
    desk: &[u8],
    request: &[u8],
    command: &[u8],
) -> Result<(), NoMemory>
    ensures { OnOk result (line.new.items ≡ script_line desk.now request.now command.now) }
{
    line.clear();
    line.extend_from_slice(b"@")?;
    line.extend_from_slice(desk)?;
    line.extend_from_slice(b" ")?;
    line.extend_from_slice(request)?;
    line.extend_from_slice(b" ")?;
    line.extend_from_slice(command)?;
    Ok(())
}

// The command that a line asks, where it asks one.
fn line_command(line: &[u8]) -> Option<Command>
    ensures { result ≡ line_command line.now }
{
    if line.len() > MAX_LINE || has_end(line) {
        return None;
    }
    match read_last_line(ACTS_ALONE, line) {
        Line::Asks(command) => Some(command),
        _ => None,
    }
}

// Whether there is an LF among these bytes.
fn has_end(line: &[u8]) -> bool
    ensures { result ≡ has_end line.now }
{
    split_line(line).is_some()
}

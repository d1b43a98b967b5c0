ghost use Rattle.row_format.specs.Spelling.{new_layout};
ghost use Rattle.row_format.specs.Allowed.{IsAllowed, IsAllowedWhereLawful};
ghost use Rattle.row_format.specs.Rows.{Spells, SpellsOneEntry};

use crate::buffer::RowBuffer;
use crate::spell::{kind_code, push_fields};
use book_snapshot::{OPEN, ROW_BYTES};
use book_words::Entry;
use hall_limits::NAME_BYTES;

/// The row of an entry with its number, its gate open. What is lawful after some list may stand in
/// a row.
pub fn write_row(entry: &Entry, number: u32) -> [u8; ROW_BYTES]
    requires { IsAllowed NAME_BYTES entry.now }
    ensures { Spells new_layout result number entry.now }
{
    let mut row = RowBuffer::new();
    row.push(&[OPEN, kind_code(&entry.act)]);
    row.push(&number.to_le_bytes());
    row.push(&entry.by.to_le_bytes());
    row.push(&entry.desk.to_le_bytes());
    row.push(&entry.request.to_le_bytes());
    push_fields(&mut row, &entry.act, &entry.signal);
    row.into_row()
}

/// A law of the rules: an entry that is lawful after some list may stand in a row.
pub fn lawful_entries_are_allowed()
    ensures { IsAllowedWhereLawful }
{}

/// A law of the spelling: the bytes of a row spell one entry at most.
pub fn rows_spell_one_entry()
    ensures { SpellsOneEntry }
{}

ghost use Rattle.std.specs.Prelude.{◌≡◌, Ok, IfOk, IfErr};
ghost use Rattle.book_words.specs.declared.act.Entry.{Entry};
ghost use Rattle.row_format.specs.Spelling.{new_layout, old_layout};
ghost use Rattle.row_format.specs.Rows.{Spells, FirstFault};
ghost use Rattle.row_format.specs.Reading.{IsRowOf, row_at};

use crate::acts::act_at;
use crate::codes::kind_at;
use crate::fields::{gate_at, row_number_at};
use crate::places::{BY_PLACE, DESK_PLACE, REQUEST_PLACE};
use crate::types::{OLD_NAME_BYTES, RowFault};
use book_snapshot::{OLD_ROW_BYTES, ROW_BYTES};
use book_words::Entry;
use hall_limits::NAME_BYTES;
use hall_units::{get_u16, get_u32};

/// The entry that a row with this number spells. A fault tells the first place whose byte no such
/// row has after the bytes before it. It takes no memory.
pub fn read_row(bytes: &[u8; ROW_BYTES], number: u32) -> Result<Entry, RowFault>
    ensures row { IfOk result (Spells new_layout bytes.now number) }
    ensures back { (entry : Entry) → Spells new_layout bytes.now number entry → result ≡ Ok entry }
    ensures fault { IfErr result (λ fault. FirstFault new_layout number bytes.now fault.place) }
{
    row_at(bytes, number, NAME_BYTES)
}

/// The entry that a row of a journal of version 1 spells: 64 bytes, with names of at most 16.
pub fn read_old_row(bytes: &[u8; OLD_ROW_BYTES], number: u32) -> Result<Entry, RowFault>
    ensures row { IfOk result (Spells old_layout bytes.now number) }
    ensures back { (entry : Entry) → Spells old_layout bytes.now number entry → result ≡ Ok entry }
    ensures fault { IfErr result (λ fault. FirstFault old_layout number bytes.now fault.place) }
{
    row_at(bytes, number, OLD_NAME_BYTES)
}

// The entry that a row with this number spells, where names have so many bytes.
#[tactic(auto, unfolding(crate::specs::Reading::row_at))]
fn row_at(bytes: &[u8], number: u32, width: usize) -> Result<Entry, RowFault>
    requires { IsRowOf width bytes.now }
    ensures { result ≡ row_at width number 0 bytes.now }
{
    gate_at(bytes)?;
    let kind = kind_at(bytes)?;
    row_number_at(bytes, number)?;
    let by = get_u16(bytes, BY_PLACE);
    let desk = get_u16(bytes, DESK_PLACE);
    let request = get_u32(bytes, REQUEST_PLACE);
    let row = act_at(kind, bytes, width)?;
    Ok(Entry {
        by,
        desk,
        request,
        act: row.act,
        signal: row.signal,
    })
}

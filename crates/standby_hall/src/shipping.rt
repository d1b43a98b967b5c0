ghost use Rattle.std.specs.Prelude.{◌≡◌, ◌+◌, ◌*◌, ◌<◌, ◌≤◌, ◌^◌, ◌++◌, ℕ, List, length, OnOk, IfErr, MatchResult};
ghost use Rattle.std.specs.List.{AllByRecursion};
ghost use Rattle.hall_limits.specs.declared.TheConstants.{NAME_BYTES, MAX_ROWS};
ghost use Rattle.book_words.specs.Answers.{IsLegal};
ghost use Rattle.book_snapshot.specs.declared.layout.TheConstants.{ROW_BYTES};
ghost use Rattle.row_format.specs.Allowed.{IsAllowed};
ghost use Rattle.text_streams.specs.Streams.{Stream, output_at, WroteAll};
ghost use Rattle.standby_hall.specs.Shipments.{IsHead, shipped, shipment, rows_from};
ghost use Rattle.standby_hall.specs.Pages.{HasPut, IsCutAt, put_bytes, MAX_PUT};

use crate::head::spell_head;
use crate::page::Page;
use crate::types::ShipHead;
use book_core::Rows;
use book_words::Entry;
use disk_core::{Partly, Sink};
use row_format::{lawful_entries_are_allowed, write_row};

// Puts the rows of entries, whose numbers go on from this one, on a page.
fn put_rows<K: Sink>(
    entries: &[Entry],
    number: u32,
    page: &mut Page,
    sink: &mut K,
) -> Result<(), Partly>
    requires allowed { AllByRecursion (IsAllowed NAME_BYTES) entries.now }
    requires few { number + length entries.now ≤ MAX_ROWS + 1 }
    requires room { put_bytes page.old + ROW_BYTES * length entries.now ≤ MAX_PUT }
    ensures goes { (start : Stream) (text : List ℕ)
        → HasPut start (output_at K.Sink sink.old) page.old text
        → MatchResult result
        (λ _. HasPut start (output_at K.Sink sink.new) page.new
        (text ++ rows_from number entries.now))
        (IsCutAt start (output_at K.Sink sink.new) (text ++ rows_from number entries.now)) }
    ensures count { OnOk result (put_bytes page.new ≤ MAX_PUT) }
{
    let mut rest = entries;
    let mut next = number;
    while let Some((entry, after)) = rest.split_first() {
        page.put(&write_row(entry, next), sink)?;
        rest = after;
        next += 1;
    }
    Ok(())
}

// Writes a head, and the rows of these entries behind those that were passed over.
fn ship_behind<K: Sink>(head: &ShipHead, entries: &[Entry], sink: &mut K) -> Result<(), Partly>
    requires good { IsHead head.now }
    requires allowed { AllByRecursion (IsAllowed NAME_BYTES) entries.now }
    requires all { head.now.passed + length entries.now ≡ head.now.all }
    ensures shipped { OnOk result (WroteAll (output_at K.Sink sink.old)
        (output_at K.Sink sink.new) (shipped head.now entries.now)) }
    ensures partly { IfErr result (IsCutAt (output_at K.Sink sink.old)
        (output_at K.Sink sink.new) (shipped head.now entries.now)) }
{
    let mut page = Page::new();
    page.put(&spell_head(head), sink)?;
    put_rows(entries, head.passed + 1, &mut page, sink)?;
    page.flush(sink)
}

/// Writes the shipment of a book with these entries: a head, and the rows behind the first `after`,
/// or behind all where there are fewer. `Partly` comes only where the sink failed, and tells how
/// many of its first bytes went out. It takes no memory; many rows go out in one write.
pub fn ship_entries<K: Sink>(entries: &[Entry], after: u32, sink: &mut K) -> Result<(), Partly>
    requires legal { IsLegal entries.now }
    ensures shipped { OnOk result (WroteAll (output_at K.Sink sink.old)
        (output_at K.Sink sink.new) (shipment after entries.now)) }
    ensures partly { IfErr result (IsCutAt (output_at K.Sink sink.old)
        (output_at K.Sink sink.new) (shipment after entries.now)) }
{
    lawful_entries_are_allowed();
    let passed = (after as usize).min(entries.len());
    let head = ShipHead {
        all: entries.len() as u32,
        passed: passed as u32,
    };
    ship_behind(&head, entries.split_at(passed).1, sink)
}

/// Writes the shipment of a book with these rows, which are legal: see `ship_entries`.
pub fn ship<K: Sink>(rows: &Rows, after: u32, sink: &mut K) -> Result<(), Partly>
    requires legal { IsLegal rows.now }
    ensures shipped { OnOk result (WroteAll (output_at K.Sink sink.old)
        (output_at K.Sink sink.new) (shipment after rows.now)) }
    ensures partly { IfErr result (IsCutAt (output_at K.Sink sink.old)
        (output_at K.Sink sink.new) (shipment after rows.now)) }
{
    ship_entries(rows.as_slice(), after, sink)
}

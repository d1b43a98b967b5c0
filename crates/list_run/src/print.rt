ghost use Rattle.std.specs.Prelude.{◌≡◌, ◌≤◌, [], ◌++◌, OnOk, OnErr, IfSome, vec_capacity};
ghost use Rattle.std.specs.List.{flat_map};
ghost use Rattle.book_store.specs.Stores.{entries_of};
ghost use Rattle.text_streams.specs.Streams.{output_at, WroteAll, IsCutIn};
ghost use Rattle.report_run.specs.Printing.{SaysText, HasPrinted};
ghost use Rattle.report_run.specs.Reports.{text_if_there};
ghost use Rattle.list_run.specs.Listing.{section_lines, lane_lines, desk_lines};
ghost use Rattle.list_run.specs.Listing.{named_lines, numbered_lines};
ghost use Rattle.list_run.specs.Ranges.{IsInRange};
ghost use Rattle.list_run.specs.Texts.{line_text, list_text};

use crate::making::{act_line, day_line, desk_line, lane_line, rows_line};
use crate::texts::push_line;
use crate::types::{Line, Section};
use book_state::State;
use book_store::Store;
use disk_core::{Disk, Partly, Sink};
use hall_limits::{MAX_DESK, MAX_LANE, MIN_DESK};
use report_run::{BUFFER_BYTES, empty_buffer, flush, make_way};
use std::alloc::Global;
use store_runs::Stop;

// Prints a line.
fn print_line<K: Sink>(line: &Line, output: &mut K, text: &mut Vec<u8>) -> Result<(), Partly>
    requires room { BUFFER_BYTES ≤ vec_capacity text.old }
    requires range { IsInRange line.now }
    ensures printed { OnOk result (HasPrinted (output_at K.Sink output.old)
        (output_at K.Sink output.new) text.old.items text.new.items (line_text line.now)) }
    ensures cut { OnErr result (IsCutIn (output_at K.Sink output.old)
        (output_at K.Sink output.new) [] text.old.items) }
    ensures room { vec_capacity text.new ≡ vec_capacity text.old }
{
    make_way(output, text)?;
    push_line(text, line);
    Ok(())
}

// Prints a line, where there is one.
fn print_some<K: Sink>(line: Option<Line>, output: &mut K, text: &mut Vec<u8>) -> Result<(), Partly>
    requires room { BUFFER_BYTES ≤ vec_capacity text.old }
    requires range { IfSome line IsInRange }
    ensures printed { OnOk result (HasPrinted (output_at K.Sink output.old)
        (output_at K.Sink output.new) text.old.items text.new.items
        (text_if_there line_text line)) }
    ensures cut { OnErr result (IsCutIn (output_at K.Sink output.old)
        (output_at K.Sink output.new) [] text.old.items) }
    ensures room { vec_capacity text.new ≡ vec_capacity text.old }
{
    if let Some(line) = line {
        print_line(&line, output, text)?;
    }
    Ok(())
}

// Prints the lines of a section.
fn print_section<K: Sink>(
    section: Section,
    state: &State,
    output: &mut K,
    text: &mut Vec<u8>,
) -> Result<(), Partly>
    requires room { BUFFER_BYTES ≤ vec_capacity text.old }
    ensures printed { OnOk result (HasPrinted (output_at K.Sink output.old)
        (output_at K.Sink output.new) text.old.items text.new.items
        (flat_map line_text (section_lines section state.now.entries))) }
    ensures cut { OnErr result (IsCutIn (output_at K.Sink output.old)
        (output_at K.Sink output.new) []
        (text.old.items ++ flat_map line_text (section_lines section state.now.entries))) }
    ensures room { vec_capacity text.new ≡ vec_capacity text.old }
{
    let _rows = state.len();
    let entries = state.entries();
    for entry in entries {
        print_some(act_line(section, state, &entry.act), output, text)?;
    }
    Ok(())
}

// Prints the lines of all lanes.
fn print_lanes<K: Sink>(state: &State, output: &mut K, text: &mut Vec<u8>) -> Result<(), Partly>
    requires room { BUFFER_BYTES ≤ vec_capacity text.old }
    ensures printed { OnOk result (HasPrinted (output_at K.Sink output.old)
        (output_at K.Sink output.new) text.old.items text.new.items
        (flat_map line_text (lane_lines state.now.entries))) }
    ensures cut { OnErr result (IsCutIn (output_at K.Sink output.old)
        (output_at K.Sink output.new) []
        (text.old.items ++ flat_map line_text (lane_lines state.now.entries))) }
    ensures room { vec_capacity text.new ≡ vec_capacity text.old }
{
    for lane in 1..MAX_LANE + 1 {
        print_some(lane_line(state, lane), output, text)?;
    }
    Ok(())
}

// Prints the lines of all desks.
fn print_desks<K: Sink>(state: &State, output: &mut K, text: &mut Vec<u8>) -> Result<(), Partly>
    requires room { BUFFER_BYTES ≤ vec_capacity text.old }
    ensures printed { OnOk result (HasPrinted (output_at K.Sink output.old)
        (output_at K.Sink output.new) text.old.items text.new.items
        (flat_map line_text (desk_lines state.now.entries))) }
    ensures cut { OnErr result (IsCutIn (output_at K.Sink output.old)
        (output_at K.Sink output.new) []
        (text.old.items ++ flat_map line_text (desk_lines state.now.entries))) }
    ensures room { vec_capacity text.new ≡ vec_capacity text.old }
{
    for desk in MIN_DESK..MAX_DESK + 1 {
        print_some(desk_line(state, desk), output, text)?;
    }
    Ok(())
}

// Prints the newest day, and what acts put: products, tares to come and batches.
fn print_named<K: Sink>(state: &State, output: &mut K, text: &mut Vec<u8>) -> Result<(), Partly>
    requires room { BUFFER_BYTES ≤ vec_capacity text.old }
    ensures printed { OnOk result (HasPrinted (output_at K.Sink output.old)
        (output_at K.Sink output.new) text.old.items text.new.items
        (flat_map line_text (named_lines state.now.entries))) }
    ensures cut { OnErr result (IsCutIn (output_at K.Sink output.old)
        (output_at K.Sink output.new) []
        (text.old.items ++ flat_map line_text (named_lines state.now.entries))) }
    ensures room { vec_capacity text.new ≡ vec_capacity text.old }
{
    print_line(&day_line(state), output, text)?;
    print_section(Section::Products, state, output, text)?;
    print_section(Section::Tares, state, output, text)?;
    print_section(Section::Batches, state, output, text)?;
    Ok(())
}

// Prints the lanes, the desks and the rows.
fn print_numbered<K: Sink>(
    state: &State,
    limit: u32,
    output: &mut K,
    text: &mut Vec<u8>,
) -> Result<(), Partly>
    requires room { BUFFER_BYTES ≤ vec_capacity text.old }
    ensures printed { OnOk result (HasPrinted (output_at K.Sink output.old)
        (output_at K.Sink output.new) text.old.items text.new.items
        (flat_map line_text (numbered_lines state.now.entries limit))) }
    ensures cut { OnErr result (IsCutIn (output_at K.Sink output.old)
        (output_at K.Sink output.new) []
        (text.old.items ++ flat_map line_text (numbered_lines state.now.entries limit))) }
    ensures room { vec_capacity text.new ≡ vec_capacity text.old }
{
    print_lanes(state, output, text)?;
    print_desks(state, output, text)?;
    print_line(&rows_line(state, limit), output, text)?;
    Ok(())
}

// Prints what is in force through an empty buffer.
fn write_list<K: Sink>(
    state: &State,
    limit: u32,
    output: &mut K,
    text: &mut Vec<u8>,
) -> Result<(), Partly>
    requires empty { text.old.items ≡ [] }
    requires room { BUFFER_BYTES ≤ vec_capacity text.old }
    ensures wrote { OnOk result (WroteAll (output_at K.Sink output.old)
        (output_at K.Sink output.new) (list_text limit state.now.entries)) }
    ensures cut { OnErr result (IsCutIn (output_at K.Sink output.old)
        (output_at K.Sink output.new) [] (list_text limit state.now.entries)) }
{
    print_named(state, output, text)?;
    print_numbered(state, limit, output, text)?;
    flush(output, text)?;
    Ok(())
}

/// Prints what is in force in the book, in lines: the newest day; the products in order, each with
/// its tare on that day; the tares to come; the batches in order of opening; the lanes that have a
/// batch; the desks that have done an act; and how many rows there are and how many more a book of
/// `limit` rows takes.
///
/// All memory that it takes is a buffer, taken before the first write: without it, nothing goes
/// out. Where the output fails, a part of the lines went out.
pub fn print_list<K: Sink, D: Disk>(
    alloc: Global,
    store: &Store<D>,
    limit: u32,
    output: &mut K,
) -> Stop
    ensures says { SaysText (output_at K.Sink output.old) (output_at K.Sink output.new)
        (list_text limit (entries_of store.now)) result }
{
    let Ok(mut text) = empty_buffer(alloc) else {
        return Stop::NoMemory;
    };
    match write_list(store.book().state(), limit, output, &mut text) {
        Ok(()) => Stop::Finished,
        Err(_) => Stop::WriteFault,
    }
}

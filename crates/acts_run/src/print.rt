ghost use Rattle.std.specs.Prelude.{◌≡◌, ◌≤◌, [], ◌++◌, OnOk, OnErr, vec_capacity};
ghost use Rattle.text_streams.specs.Streams.{output_at, WroteAll, IsCutIn};
ghost use Rattle.book_store.specs.Stores.{entries_of};
ghost use Rattle.report_run.specs.Printing.{SaysText, HasPrinted};
ghost use Rattle.report_run.specs.Reports.{text_if_there};
ghost use Rattle.act_lines.specs.ActLines.{act_text};
ghost use Rattle.act_lines.specs.ActViews.{acts_text};
ghost use Rattle.act_replay.specs.Replay.{CanBeReplayed};
ghost use Rattle.book_views.specs.RowViews.{row_view};

use crate::sizes::fit_fields;
use act_lines::push_act;
use act_replay::acts_replayed;
use book_state::State;
use book_store::Store;
use book_views::view_row;
use disk_core::{Disk, Partly, Sink};
use report_run::{BUFFER_BYTES, empty_buffer, flush, make_way};
use std::alloc::Global;
use store_runs::Stop;

// Prints the line of the row of a number, where there is one.
fn print_row<K: Sink>(
    state: &State,
    number: u32,
    output: &mut K,
    text: &mut Vec<u8>,
) -> Result<(), Partly>
    requires room { BUFFER_BYTES ≤ vec_capacity text.old }
    ensures printed { OnOk result (HasPrinted (output_at K.Sink output.old)
        (output_at K.Sink output.new) text.old.items text.new.items
        (text_if_there act_text (row_view state.now.entries number))) }
    ensures cut { OnErr result (IsCutIn (output_at K.Sink output.old)
        (output_at K.Sink output.new) [] text.old.items) }
    ensures room { vec_capacity text.new ≡ vec_capacity text.old }
{
    if let Some(view) = view_row(state, number) {
        make_way(output, text)?;
        push_act(text, &view);
    }
    Ok(())
}

// Prints the lines of the rows behind so many, in order.
fn print_rows<K: Sink>(
    state: &State,
    after: u32,
    output: &mut K,
    text: &mut Vec<u8>,
) -> Result<(), Partly>
    requires room { BUFFER_BYTES ≤ vec_capacity text.old }
    ensures printed { OnOk result (HasPrinted (output_at K.Sink output.old)
        (output_at K.Sink output.new) text.old.items text.new.items
        (acts_text after state.now.entries)) }
    ensures cut { OnErr result (IsCutIn (output_at K.Sink output.old)
        (output_at K.Sink output.new) []
        (text.old.items ++ acts_text after state.now.entries)) }
    ensures room { vec_capacity text.new ≡ vec_capacity text.old }
{
    for before in after..state.len() {
        print_row(state, before + 1, output, text)?;
    }
    Ok(())
}

// Prints the lines of the rows behind so many through an empty buffer.
fn write_acts<K: Sink>(
    state: &State,
    after: u32,
    output: &mut K,
    text: &mut Vec<u8>,
) -> Result<(), Partly>
    requires empty { text.old.items ≡ [] }
    requires room { BUFFER_BYTES ≤ vec_capacity text.old }
    ensures wrote { OnOk result (WroteAll (output_at K.Sink output.old)
        (output_at K.Sink output.new) (acts_text after state.now.entries)) }
    ensures cut { OnErr result (IsCutIn (output_at K.Sink output.old)
        (output_at K.Sink output.new) [] (acts_text after state.now.entries)) }
{
    print_rows(state, after, output, text)?;
    flush(output, text)?;
    Ok(())
}

// No work: the text of the rows behind so many can be asked again.
fn replay_rows(state: &State, after: u32)
    ensures { CanBeReplayed after state.now.entries }
{
    let _rows = state.len();
    fit_fields(state.entries());
    acts_replayed();
}

/// Prints the book as text: a line for each entry behind so many rows, in order. Behind the last
/// row it prints nothing. Its third column is a script: asked of a book that holds the rows before
/// them, it is answered by the first column and adds these rows.
///
/// All memory that it takes is a buffer, taken before the first write: without it, nothing goes
/// out. Where the output fails, a part of the lines went out.
pub fn print_acts<K: Sink, D: Disk>(
    alloc: Global,
    store: &Store<D>,
    after: u32,
    output: &mut K,
) -> Stop
    ensures says { SaysText (output_at K.Sink output.old) (output_at K.Sink output.new)
        (acts_text after (entries_of store.now)) result }
    ensures replays { CanBeReplayed after (entries_of store.now) }
{
    replay_rows(store.book().state(), after);
    let Ok(mut text) = empty_buffer(alloc) else {
        return Stop::NoMemory;
    };
    match write_acts(store.book().state(), after, output, &mut text) {
        Ok(()) => Stop::Finished,
        Err(_) => Stop::WriteFault,
    }
}

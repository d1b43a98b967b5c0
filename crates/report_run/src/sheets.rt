ghost use Rattle.std.specs.Prelude.{◌≡◌, ◌≤◌, [], ◌++◌, OnOk, OnErr, IfOk, IfErr, vec_capacity};
ghost use Rattle.text_streams.specs.Streams.{output_at, WroteAll, IsCutIn};
ghost use Rattle.book_words.specs.Soundness.{IsAnswer, IsRefusal};
ghost use Rattle.book_words.specs.Views.{summary};
ghost use Rattle.batch_reports.specs.Appending.{HasRoom};
ghost use Rattle.batch_reports.specs.Texts.{summary_text};
ghost use Rattle.book_store.specs.Stores.{entries_of};
ghost use Rattle.report_run.specs.Printing.{SaysText, HasPrinted};
ghost use Rattle.report_run.specs.Reports.{sheet_answer, batch_text, sheets_text, report_text, opened_at, text_if_there};

use crate::buffer::{BUFFER_BYTES, empty_buffer, flush, make_way};
use batch_reports::{TEXT_ROOM, answer_text, refusal_text};
use book_core::{Book, BookError};
use book_store::Store;
use book_words::{Act, Answered, Name, Question, Refused};
use disk_core::{Disk, Partly, Sink};
use std::alloc::Global;
use store_runs::Stop;

// What a book answers to the question for the sheet of a batch.
fn ask_sheet(book: &Book, batch: Name) -> Result<Answered, Refused>
    ensures answer { result ≡ sheet_answer book.now.entries batch }
    ensures answered { IfOk result IsAnswer }
    ensures refused { IfErr result IsRefusal }
{
    match book.look(&Question::Sheet { batch }) {
        Ok(answered) => Ok(answered),
        Err(BookError::Refused(refused)) => Err(refused),
        Err(BookError::NoMemory) => unreachable!(),
    }
}

// Appends the sheet of a batch, or the line of its refusal.
fn push_batch(book: &Book, batch: Name, text: &mut Vec<u8>)
    requires { HasRoom text.old TEXT_ROOM }
    ensures items { text.new.items ≡ text.old.items ++ batch_text book.now.entries batch }
    ensures room { vec_capacity text.new ≡ vec_capacity text.old }
{
    match ask_sheet(book, batch) {
        Ok(answered) => answer_text(&answered, text).unwrap(),
        Err(refused) => refusal_text(&refused, text).unwrap(),
    }
}

// Appends the summary.
fn push_totals(book: &Book, text: &mut Vec<u8>)
    requires { HasRoom text.old TEXT_ROOM }
    ensures items { text.new.items ≡ text.old.items ++ summary_text (summary book.now.entries) }
    ensures room { vec_capacity text.new ≡ vec_capacity text.old }
{
    match book.look(&Question::Summary) {
        Ok(answered) => answer_text(&answered, text).unwrap(),
        Err(_) => unreachable!(),
    }
}

// The batch that the row of a number opens, where it opens one.
fn opened_at(book: &Book, number: u32) -> Option<Name>
    ensures { result ≡ opened_at book.now.entries number }
{
    match book.entry(number)?.act {
        Act::OpenBatch { batch, .. } => Some(batch),
        _ => None,
    }
}

// Prints the sheet of the batch that the row of a number opens, where it opens one.
fn print_row<K: Sink>(
    book: &Book,
    number: u32,
    output: &mut K,
    text: &mut Vec<u8>,
) -> Result<(), Partly>
    requires { BUFFER_BYTES ≤ vec_capacity text.old }
    ensures printed { OnOk result (HasPrinted (output_at K.Sink output.old)
        (output_at K.Sink output.new) text.old.items text.new.items
        (text_if_there (batch_text book.now.entries)
        (opened_at book.now.entries number))) }
    ensures cut { OnErr result (IsCutIn (output_at K.Sink output.old)
        (output_at K.Sink output.new) [] text.old.items) }
    ensures room { vec_capacity text.new ≡ vec_capacity text.old }
{
    if let Some(batch) = opened_at(book, number) {
        make_way(output, text)?;
        push_batch(book, batch, text);
    }
    Ok(())
}

// Prints the sheets of all batches in order of opening.
fn print_sheets<K: Sink>(book: &Book, output: &mut K, text: &mut Vec<u8>) -> Result<(), Partly>
    requires { BUFFER_BYTES ≤ vec_capacity text.old }
    ensures printed { OnOk result (HasPrinted (output_at K.Sink output.old)
        (output_at K.Sink output.new) text.old.items text.new.items
        (sheets_text book.now.entries)) }
    ensures cut { OnErr result (IsCutIn (output_at K.Sink output.old)
        (output_at K.Sink output.new) []
        (text.old.items ++ sheets_text book.now.entries)) }
    ensures room { vec_capacity text.new ≡ vec_capacity text.old }
{
    for before in 0..book.len() {
        print_row(book, before + 1, output, text)?;
    }
    Ok(())
}

// Prints the sheets of all batches and the summary through an empty buffer.
fn write_report<K: Sink>(book: &Book, output: &mut K, text: &mut Vec<u8>) -> Result<(), Partly>
    requires empty { text.old.items ≡ [] }
    requires room { BUFFER_BYTES ≤ vec_capacity text.old }
    ensures wrote { OnOk result (WroteAll (output_at K.Sink output.old)
        (output_at K.Sink output.new) (report_text book.now.entries)) }
    ensures cut { OnErr result (IsCutIn (output_at K.Sink output.old)
        (output_at K.Sink output.new) [] (report_text book.now.entries)) }
{
    print_sheets(book, output, text)?;
    make_way(output, text)?;
    push_totals(book, text);
    flush(output, text)?;
    Ok(())
}

/// Prints a report of the book: the sheet of each batch in order of opening, and then the summary.
///
/// All memory that it takes is a buffer, taken before the first write: without it, nothing goes
/// out. Where the output fails, a part of the report went out.
pub fn print_report<K: Sink, D: Disk>(alloc: Global, store: &Store<D>, output: &mut K) -> Stop
    ensures says { SaysText (output_at K.Sink output.old) (output_at K.Sink output.new)
        (report_text (entries_of store.now)) result }
{
    let Ok(mut text) = empty_buffer(alloc) else {
        return Stop::NoMemory;
    };
    match write_report(store.book(), output, &mut text) {
        Ok(()) => Stop::Finished,
        Err(_) => Stop::WriteFault,
    }
}

/// Prints the sheet of a batch, or the line of its refusal where there is no such batch.
///
/// All memory that it takes is a buffer, taken before the first write: without it, nothing goes
/// out. Where the output fails, a part of the sheet went out.
pub fn print_sheet<K: Sink, D: Disk>(
    alloc: Global,
    store: &Store<D>,
    batch: Name,
    output: &mut K,
) -> Stop
    ensures says { SaysText (output_at K.Sink output.old) (output_at K.Sink output.new)
        (batch_text (entries_of store.now) batch) result }
{
    let Ok(mut text) = empty_buffer(alloc) else {
        return Stop::NoMemory;
    };
    push_batch(store.book(), batch, &mut text);
    match flush(output, &mut text) {
        Ok(()) => Stop::Finished,
        Err(_) => Stop::WriteFault,
    }
}

ghost use Rattle.std.specs.Prelude.{◌≡◌, IfOk, IfErr, length};
ghost use Rattle.book_words.specs.Acts.{state_of};
ghost use Rattle.book_words.specs.Ranges.{IsRefusalInRange};
ghost use Rattle.book_store.specs.Stores.{entries_of};
ghost use Rattle.text_streams.specs.Streams.{output_at};
ghost use Rattle.report_run.specs.Printing.{SaysText};
ghost use Rattle.paper_run.specs.Printing.{SaysPaper, IsPrintedOf, refused_line};

use batch_paper::{PaperError, paper_of_book};
use batch_reports::{TEXT_ROOM, push_refused};
use book_core::Book;
use book_store::Store;
use book_words::{Name, Refusal, Refused};
use disk_core::{Disk, Sink};
use std::alloc::{AllocError, Global};
use store_runs::Stop;
use text_streams::write_text;

// The line of a refusal at the length of a book.
fn refused_line(alloc: Global, book: &Book, refusal: Refusal) -> Result<Vec<u8>, AllocError>
    requires { IsRefusalInRange refusal }
    ensures { IfOk result (λ text. text.items ≡ refused_line book.now.entries refusal) }
{
    let mut text = Vec::with_capacity(alloc, TEXT_ROOM)?;
    push_refused(
        &mut text,
        &Refused {
            at: book.len(),
            refusal,
        },
    );
    Ok(text)
}

// Writes a text.
fn write<K: Sink>(text: &[u8], output: &mut K) -> Stop
    ensures { SaysText (output_at K.Sink output.old) (output_at K.Sink output.new) text.now result }
{
    match write_text(output, text) {
        Ok(()) => Stop::Finished,
        Err(_) => Stop::WriteFault,
    }
}

// Writes the line of a refusal at the length of a book.
fn write_refused<K: Sink>(alloc: Global, book: &Book, refusal: Refusal, output: &mut K) -> Stop
    requires { IsRefusalInRange refusal }
    ensures { SaysText (output_at K.Sink output.old) (output_at K.Sink output.new)
        (refused_line book.now.entries refusal) result }
{
    match refused_line(alloc, book, refusal) {
        Ok(text) => write(&text, output),
        Err(_) => Stop::NoMemory,
    }
}

// Writes the paper of a closed batch of a book, or the line of its refusal.
fn write_paper<K: Sink>(alloc: Global, book: &Book, batch: &Name, output: &mut K) -> Stop
    ensures { SaysPaper book.now.entries batch.now (output_at K.Sink output.old)
        (output_at K.Sink output.new) result }
{
    match paper_of_book(alloc, book, batch) {
        Ok(paper) => write(paper.as_bytes(), output),
        Err(PaperError::Unknown) => write_refused(alloc, book, Refusal::BatchUnknown, output),
        Err(PaperError::NotClosed { state }) => {
            write_refused(alloc, book, Refusal::BatchState { state }, output)
        }
        Err(PaperError::NoMemory) => Stop::NoMemory,
    }
}

/// Prints the paper of a closed batch of the book: all that its verdict rests on. Where there is no
/// such batch, or it is in another state, the line of that refusal is printed. The paper is written
/// into memory whole before any of it goes out, some 60 bytes for each pack of the population:
/// without that memory, nothing goes out. Where the output fails, a part of it went out.
pub fn print_paper<K: Sink, D: Disk>(
    alloc: Global,
    store: &Store<D>,
    batch: Name,
    output: &mut K,
) -> Stop
    ensures { SaysPaper (entries_of store.now) batch (output_at K.Sink output.old)
        (output_at K.Sink output.new) result }
{
    write_paper(alloc, store.book(), &batch, output)
}

ghost use Rattle.std.specs.Prelude.{◌≡◌, ◌++◌, OnOk, IfOk, IfSome};
ghost use Rattle.std.specs.List.{flat_map};
ghost use Rattle.text_streams.specs.Streams.{output_at};
ghost use Rattle.book_words.specs.Answers.{IsLegal};
ghost use Rattle.book_words.specs.Ranges.{IsPackInRange};
ghost use Rattle.book_words.specs.Views.{pack_view};
ghost use Rattle.pack_register.specs.Register.{record_text};
ghost use Rattle.pack_register.specs.Writing.{IsReady, written};
ghost use Rattle.book_store.specs.Stores.{entries_of};
ghost use Rattle.report_run.specs.Printing.{SaysText};
ghost use Rattle.report_run.specs.Reports.{HasEachReading, IsReadBack, weighed_packs, book_register, pack_told, text_if_there};

use book_core::{Book, BookError};
use book_store::Store;
use book_words::{Answered, PackView, Question, Reply};
use disk_core::{Disk, Sink};
use pack_register::{NoMemory, RegisterWriter};
use std::alloc::Global;
use store_runs::Stop;
use text_streams::write_text;

// The pack that an answer tells, where it tells one.
fn pack_told(answer: Result<Answered, BookError>) -> Option<PackView>
    ensures { result ≡ pack_told answer }
{
    match answer {
        Ok(
            Answered {
                reply: Reply::PackIs(view),
                ..
            },
        ) => Some(view),
        _ => None,
    }
}

// The pack with a number, where there is one.
fn pack_at(book: &Book, number: u32) -> Option<PackView>
    ensures view { result ≡ pack_view book.now.entries number }
    ensures range { IfSome result IsPackInRange }
    ensures legal { IsLegal book.now.entries }
{
    pack_told(book.look(&Question::Pack { pack: number }))
}

// Writes the record of the pack with a number, where there is one.
fn write_pack(book: &Book, number: u32, register: &mut RegisterWriter) -> Result<(), NoMemory>
    requires { IsReady register.old }
    ensures ready { OnOk result (IsReady register.new) }
    ensures text { OnOk result (written register.new ≡ written register.old
        ++ text_if_there record_text (pack_view book.now.entries number)) }
    ensures legal { IsLegal book.now.entries }
{
    if let Some(pack) = pack_at(book, number) {
        register.push(&pack)?;
    }
    Ok(())
}

// Writes the records of all packs in order.
fn write_packs(book: &Book, register: &mut RegisterWriter) -> Result<(), NoMemory>
    requires { IsReady register.old }
    ensures text { OnOk result (written register.new ≡ written register.old
        ++ flat_map record_text (weighed_packs book.now.entries)) }
    ensures each { OnOk result (HasEachReading book.now.entries) }
{
    for before in 0..book.len() {
        write_pack(book, before + 1, register)?;
    }
    Ok(())
}

// The register of the book, whole.
fn write_register(alloc: Global, book: &Book) -> Result<Vec<u8>, NoMemory>
    ensures text { IfOk result (λ text. text.items ≡ book_register book.now.entries) }
    ensures each { OnOk result (HasEachReading book.now.entries) }
{
    let mut register = RegisterWriter::new(alloc, book.len() as usize)?;
    write_packs(book, &mut register)?;
    let text = register.finish()?;
    Ok(text)
}

/// Prints the register of the book: the header, and the record of each pack in order of weighing.
/// Each reading has its record, under its number.
/// The kit's `csv` reads back the names of the columns and what stands in them.
///
/// The register is written into memory whole before any of it goes out, some 64 bytes for each row:
/// without that memory, nothing goes out. Where the output fails, a part of it went out.
pub fn print_register<K: Sink, D: Disk>(alloc: Global, store: &Store<D>, output: &mut K) -> Stop
    ensures says { SaysText (output_at K.Sink output.old) (output_at K.Sink output.new)
        (book_register (entries_of store.now)) result }
    ensures each { result ≡ Stop.Finished → HasEachReading (entries_of store.now) }
    ensures reads_back { IsReadBack (entries_of store.now) }
{
    let Ok(text) = write_register(alloc, store.book()) else {
        return Stop::NoMemory;
    };
    match write_text(output, &text) {
        Ok(()) => Stop::Finished,
        Err(_) => Stop::WriteFault,
    }
}

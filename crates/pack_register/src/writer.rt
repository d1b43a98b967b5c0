ghost use Rattle.std.specs.Prelude.{◌≡◌, ◌++◌, OnOk, IfOk, map};
ghost use Rattle.csv.specs.Writing.{default_writer, row_text};
ghost use Rattle.book_words.specs.Ranges.{IsPackInRange};
ghost use Rattle.batch_reports.specs.Texts.{class_text, signal_text, pile_text};
ghost use Rattle.pack_register.specs.Register.{header_text, record_text};
ghost use Rattle.pack_register.specs.Writing.{AreCellsOf, IsReady, IsBetweenRecords, text_of, written};

use crate::cells::Cells;
use crate::table::NoMemory;
use batch_reports::{class_word, pile_word, signal_words};
use book_words::PackView;
use csv::Writer;
use std::alloc::{AllocError, Global};

/// The bytes that room is made for with each record. One with long names takes more, up to some 230.
const RECORD_BYTES: usize = 64;

/// A register that is being written into memory, record by record, by the kit's `csv`.
#[derive(Drop)]
pub struct RegisterWriter {
    writer: Writer<Vec<u8>>,
    cells: Cells,
}

impl RegisterWriter {
    /// Writes the header, with room for about so many records behind it.
    pub fn new(alloc: Global, records: usize) -> Result<RegisterWriter, NoMemory>
        ensures ready { IfOk result IsReady }
        ensures text { IfOk result (λ register. written register ≡ header_text) }
    {
        let room = records.saturating_add(1).saturating_mul(RECORD_BYTES);
        let mut writer = Writer::from_writer(Vec::with_capacity(alloc, room)?);
        write_header(&mut writer)?;
        Ok(RegisterWriter {
            writer,
            cells: Cells::new(alloc),
        })
    }

    /// Writes the record of a pack behind those before it. Without memory a part of it may have been
    /// written, and nothing is promised of the register from then on.
    pub fn push(&mut self, pack: &PackView) -> Result<(), NoMemory>
        requires ready { IsReady self.old }
        requires range { IsPackInRange pack.now }
        ensures ready { OnOk result (IsReady self.new) }
        ensures text { OnOk result (written self.new ≡ written self.old ++ record_text pack.now) }
    {
        self.cells.print(pack)?;
        write_pack(&mut self.writer, &self.cells, pack)?;
        Ok(())
    }

    /// The bytes of the register.
    pub fn finish(self) -> Result<Vec<u8>, NoMemory>
        ensures { IfOk result (λ text. text.items ≡ written self) }
    {
        match self.writer.into_inner() {
            Ok(text) => Ok(text),
            Err(_) => Err(AllocError),
        }
    }
}

// Writes the names of the columns.
fn write_header(writer: &mut Writer<Vec<u8>>) -> Result<(), NoMemory>
    requires { IsBetweenRecords writer.old }
    ensures ready { OnOk result (IsBetweenRecords writer.new) }
    ensures text { OnOk result (text_of writer.new ≡ text_of writer.old ++ header_text) }
{
    let names = [
        b"pack".as_slice(),
        b"batch",
        b"product",
        b"lane",
        b"day",
        b"gross",
        b"net",
        b"class",
        b"signal",
        b"pile",
    ];
    write_fields(writer, &names)?;
    Ok(())
}

// Writes the record of a pack, of which the cells have what it has in numbers.
fn write_pack<'a>(
    writer: &mut Writer<Vec<u8>>,
    cells: &'a Cells,
    pack: &'a PackView,
) -> Result<(), NoMemory>
    requires ready { IsBetweenRecords writer.old }
    requires cells { AreCellsOf pack.now cells.now }
    ensures ready { OnOk result (IsBetweenRecords writer.new) }
    ensures text { OnOk result (text_of writer.new ≡ text_of writer.old ++ record_text pack.now) }
{
    let (class, signal, pile) = words_of(pack);
    let columns = [
        cells.pack.as_slice(),
        pack.batch.as_bytes(),
        pack.product.as_bytes(),
        cells.lane.as_slice(),
        cells.day.as_slice(),
        cells.gross.as_slice(),
        cells.net.as_slice(),
        class,
        signal,
        pile,
    ];
    write_fields(writer, &columns)?;
    Ok(())
}

// The words for the class, the signal and the pile of a pack.
fn words_of<'a>(pack: &'a PackView) -> (&'a [u8], &'a [u8], &'a [u8])
    ensures class { result.0.now ≡ class_text pack.now.class }
    ensures signal { result.1.now ≡ signal_text pack.now.signal }
    ensures pile { result.2.now ≡ pile_text pack.now.pile }
{
    (
        class_word(pack.class),
        signal_words(pack.signal),
        pile_word(pack.pile),
    )
}

// Writes a record of these fields. Each record has ten, and a `Vec` takes all that there is memory
// for, so that the error is want of memory.
fn write_fields(writer: &mut Writer<Vec<u8>>, fields: &[&[u8]]) -> Result<(), NoMemory>
    requires { IsBetweenRecords writer.old }
    ensures ready { OnOk result (IsBetweenRecords writer.new) }
    ensures text { OnOk result (text_of writer.new
        ≡ text_of writer.old ++ row_text default_writer (map (λ field. field.now) fields.now)) }
{
    match writer.write_fields(fields) {
        Ok(()) => Ok(()),
        Err(_) => Err(AllocError),
    }
}

ghost use Rattle.std.specs.Prelude.{◌≡◌};

use disk_core::{Failed, Source};
use std::alloc::{AllocError, Global};
use std::marker::Model;

/// At most so many bytes are read at once.
pub const PIECE: usize = 65_536;

/// Why no piece was read.
#[derive(Clone, Copy, PartialEq, Eq)]
pub enum ReadError {
    /// The input failed.
    Failed,
    /// As many reads were made as may be.
    Spent,
}

/// Reads an input piece by piece, at most so often. The room for a piece is taken at the start.
#[derive(Drop)]
pub struct Reader {
    buffer: Vec<u8>,
    count: usize,
    reads: u32,
    most: u32,
}

impl Model for Reader {
    ghost use Rattle.std.specs.Prelude.{◌≡◌, ◌≤◌, length, take};
    ghost use Rattle.text_streams.specs.declared.reader.TheConstants.{PIECE};
    ghost use Rattle.text_streams.specs.Readers.{ReaderView};

    ghost Value = { ReaderView };

    ghost view = { λ r. record {
      piece = take r.count r.buffer.items;
      reads = r.reads;
      most = r.most;
    } };

    ghost invariant = { λ r. (length r.buffer.items ≡ PIECE) × (r.count ≤ PIECE)
        × (r.reads ≤ r.most) };
}

impl Reader {
    ghost use Rattle.std.specs.Prelude.{◌≡◌, ◌↔◌, [], false, length, ◌==◌, Err, IfOk, IfErr, OnOk, OnErr};
    ghost use Rattle.std.specs.Io.KnownBytes.{IsAtEnd};
    ghost use Rattle.text_streams.specs.declared.reader.ReadError.TheVariants as error;
    ghost use Rattle.text_streams.specs.Streams.{input_at};
    ghost use Rattle.text_streams.specs.Reading.{TakesPiece, TakesNone};

    /// A reader that may make `most` reads and made none.
    pub fn new(alloc: Global, most: u32) -> Result<Reader, AllocError>
        ensures { IfOk result (λ reader.
            reader ≡ record { piece = []; reads = 0; most = most }) }
    {
        Ok(Reader {
            buffer: vec![in alloc; 0u8; PIECE]?,
            count: 0,
            reads: 0,
            most,
        })
    }

    /// Reads the next piece; an empty one is the end of the input.
    pub fn read<S: Source>(&mut self, input: &mut S) -> Result<(), ReadError>
        requires unended { S.ended input.old ≡ false }
        ensures takes { OnOk result (TakesPiece (input_at S.Source input.old)
            (input_at S.Source input.new) self.old self.new) }
        ensures ended { OnOk result (S.ended input.new ≡ (length self.new.piece == 0)) }
        ensures at_end { OnOk result (self.new.piece ≡ [] → IsAtEnd (S.left input.new)) }
        ensures none { IfErr result (TakesNone (input_at S.Source input.old)
            (input_at S.Source input.new) self.old) }
        ensures spent { (result ≡ Err error.Spent) ↔ (self.old.reads ≡ self.old.most) }
        ensures unread { result ≡ Err error.Spent → input.new ≡ input.old }
    {
        if self.reads == self.most {
            return Err(ReadError::Spent);
        }
        match input.read(&mut self.buffer) {
            Ok(count) => {
                self.count = count;
                self.reads += 1;
                Ok(())
            }
            Err(Failed) => Err(ReadError::Failed),
        }
    }

    /// The piece that the last read gave.
    pub fn piece(&self) -> &[u8]
        ensures { result.now ≡ self.now.piece }
    {
        &self.buffer[..self.count]
    }
}

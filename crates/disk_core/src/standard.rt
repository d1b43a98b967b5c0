ghost use Rattle.std.specs.Prelude.{◌<◌, ◌≤◌, length, IfOk};
ghost use Rattle.std.specs.Io.KnownBytes.{ReadConsumes, WriteAppends};

use crate::sink::Sink;
use crate::source::{Source, is_end};
use crate::types::Failed;
use device_facts::counted_once_more;
use std::io::{ErrorKind, Read, Write};
use std::marker::Model;

/// A source over one of the real streams, or any reader. It tells no bytes; a call that is
/// interrupted is made again.
#[derive(Drop)]
pub struct StdSource<R: Read + Drop> {
    reader: R,
    ended: bool,
    faults: u64,
}

impl<R: Read + Drop> Model for StdSource<R> {
    ghost use Rattle.disk_core.specs.Streams.{RealSource};

    ghost Value = { RealSource R };

    ghost view = { λ s. record { reader = s.reader; ended = s.ended; faults = s.faults } };
}

impl<R: Read + Drop> StdSource<R> {
    ghost use Rattle.std.specs.Prelude.{◌≡◌, false};
    ghost use Rattle.disk_core.specs.Streams.{RealSource};

    /// A source that has failed nowhere yet and whose end wasn't given.
    pub fn new(reader: R) -> Self
        ensures { result ≡ record { reader = reader; ended = false; faults = 0 } }
    {
        StdSource {
            reader,
            ended: false,
            faults: 0,
        }
    }

    /// Whether its end was given.
    pub fn has_ended(&self) -> bool
        ensures { result ≡ self.now.ended }
    {
        self.ended
    }
}

impl<R: Read + Drop> Source for StdSource<R> {
    ghost use Rattle.std.specs.Prelude.{◌≡◌, ◌≤◌, false, length, None, IfOk};
    ghost use Rattle.std.specs.Io.KnownBytes.{ReadConsumes};
    ghost use Rattle.device_facts.specs.Count.{CountsFault};
    ghost use Rattle.device_facts.specs.Frame.{NothingElse, nothing_else};
    ghost use Rattle.disk_core.specs.Streams.{gave_end};

    ghost left = { λ _. None };

    ghost ended = { λ s. s.ended };

    ghost faults = { λ s. s.faults };

    ghost keeps_rest = { NothingElse };

    ghost frame = { nothing_else };

    fn read(&mut self, into: &mut [u8]) -> Result<usize, Failed>
        requires { self.old.ended ≡ false }
        ensures bound { IfOk result (λ count. count ≤ length into.new) }
        ensures real { ReadConsumes
            (R.remaining self.old.reader) (R.remaining self.new.reader) result into.new }
        ensures end { self.new.ended ≡ gave_end result into.new }
        ensures cause { CountsFault self.old.faults self.new.faults result }
    {
        let count = read_again(&mut self.reader, into);
        match count {
            Ok(count) => self.ended = is_end(count, into),
            Err(Failed) => self.faults = counted_once_more(self.faults),
        }
        count
    }
}

// Reads once more after each call that was interrupted.
fn read_again<R: Read>(reader: &mut R, into: &mut [u8]) -> Result<usize, Failed>
    ensures bound { IfOk result (λ count. count ≤ length into.new) }
    ensures bytes { ReadConsumes (R.remaining reader.old) (R.remaining reader.new) result into.new }
{
    for _turn in 0..u64::MAX {
        match reader.read(into) {
            Ok(count) => return Ok(count),
            Err(error) if error.kind() == ErrorKind::Interrupted => {}
            Err(_) => break,
        }
    }
    Err(Failed)
}

/// A sink over one of the real streams, or any writer. It tells no bytes; a call that is
/// interrupted is made again, and a writer that takes nothing of a piece has failed.
#[derive(Drop)]
pub struct StdSink<W: Write + Drop> {
    writer: W,
    faults: u64,
}

impl<W: Write + Drop> Model for StdSink<W> {
    ghost use Rattle.disk_core.specs.Streams.{RealSink};

    ghost Value = { RealSink W };

    ghost view = { λ s. record { writer = s.writer; faults = s.faults } };
}

impl<W: Write + Drop> StdSink<W> {
    ghost use Rattle.std.specs.Prelude.{◌≡◌};
    ghost use Rattle.disk_core.specs.Streams.{RealSink};

    /// A sink that has failed nowhere yet.
    pub fn new(writer: W) -> Self
        ensures { result ≡ record { writer = writer; faults = 0 } }
    {
        StdSink { writer, faults: 0 }
    }
}

impl<W: Write + Drop> Sink for StdSink<W> {
    ghost use Rattle.std.specs.Prelude.{◌<◌, ◌≤◌, length, None, IfOk};
    ghost use Rattle.std.specs.Io.KnownBytes.{WriteAppends};
    ghost use Rattle.device_facts.specs.Count.{CountsFault};
    ghost use Rattle.device_facts.specs.Frame.{NothingElse, nothing_else};

    ghost held = { λ _. None };

    ghost faults = { λ s. s.faults };

    ghost keeps_rest = { NothingElse };

    ghost frame = { nothing_else };

    fn write(&mut self, bytes: &[u8]) -> Result<usize, Failed>
        ensures bound { IfOk result (λ count. count ≤ length bytes.now) }
        ensures some { IfOk result (λ count. 0 < length bytes.now → 0 < count) }
        ensures real { WriteAppends
            (W.contents self.old.writer) (W.contents self.new.writer) result bytes.now }
        ensures cause { CountsFault self.old.faults self.new.faults result }
    {
        let count = write_again(&mut self.writer, bytes);
        if count.is_err() {
            self.faults = counted_once_more(self.faults);
        }
        count
    }
}

// Writes once more after each call that was interrupted.
fn write_again<W: Write>(writer: &mut W, bytes: &[u8]) -> Result<usize, Failed>
    ensures bound { IfOk result (λ count. count ≤ length bytes.now) }
    ensures some { IfOk result (λ count. 0 < length bytes.now → 0 < count) }
    ensures bytes { WriteAppends (W.contents writer.old) (W.contents writer.new) result bytes.now }
{
    for _turn in 0..u64::MAX {
        match writer.write(bytes) {
            Ok(count) if count > 0 || bytes.is_empty() => return Ok(count),
            Err(error) if error.kind() == ErrorKind::Interrupted => {}
            _ => break,
        }
    }
    Err(Failed)
}

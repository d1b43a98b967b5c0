use std::io::Write;
use std::marker::Model;
use std::{io, str};

// How many of the last bytes are kept: `bad line N` has at most 30.
const ROOM: usize = 64;

/// What the last line of an output says is bad.
#[derive(Clone, Copy, PartialEq, Eq)]
pub enum Fault {
    /// The line of this number.
    Line(u64),
    /// The plan.
    Plan,
}

/// An output that keeps what it was given last. It takes what the output takes.
#[derive(Drop)]
pub struct KeptOutput<W: Write + Drop> {
    output: W,
    newest: [u8; ROOM],
}

impl<W: Write + Drop> Model for KeptOutput<W> {
    ghost Value = { W };

    ghost view = { λ kept. kept.output };
}

impl<W: Write + Drop> KeptOutput<W> {
    ghost use Rattle.std.specs.Prelude.{◌≡◌};

    /// Nothing was written to it yet.
    pub fn new(output: W) -> Self
        ensures { result ≡ output }
    {
        KeptOutput {
            output,
            newest: [b'\n'; ROOM],
        }
    }

    /// What is bad, where the last line says that something is.
    pub fn fault(&self) -> Option<Fault> {
        let line = str::from_utf8(&self.newest).ok()?.lines().last()?;
        if line == "bad plan" {
            return Some(Fault::Plan);
        }
        Some(Fault::Line(line.strip_prefix("bad line ")?.parse().ok()?))
    }
}

// Keeps the newest of some bytes behind those that were kept.
fn keep(newest: &mut [u8; ROOM], bytes: &[u8]) {
    let count = bytes.len().min(ROOM);
    newest.copy_within(count.., 0);
    let (_, behind) = bytes.split_at(bytes.len() - count);
    newest[ROOM - count..].copy_from_slice(behind);
}

impl<W: Write + Drop> Write for KeptOutput<W> {
    ghost contents = { W.contents };

    fn write(&mut self, buf: &[u8]) -> io::Result<usize> {
        let count = self.output.write(buf)?;
        keep(&mut self.newest, buf.get(..count).unwrap_or(&[]));
        Ok(count)
    }

    fn flush(&mut self) -> io::Result<()> {
        self.output.flush()
    }
}

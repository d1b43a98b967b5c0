ghost use Rattle.std.specs.Prelude.{◌≡◌, ◌++◌, ◌∷◌, false, MatchOption};
ghost use Rattle.script_lines.specs.Lines.{has_end};
ghost use Rattle.script_lines.specs.Script.{ended_says};

use crate::command::{Allowed, Line};
use crate::lines::{MAX_LINE, read_ended_line, read_last_line};
use memchr::memchr;
use std::alloc::{AllocError, Global};
use std::marker::Model;

/// The line that has begun would have more bytes than a line may have.
#[derive(Clone, Copy, Debug, PartialEq, Eq)]
pub struct TooLong;

/// The lines of an input that comes piece by piece: how many have ended, and the bytes of the line
/// that has begun. There are at most `MAX_LINE` of these, and their room is taken at the start.
#[derive(Drop)]
pub struct Feed {
    ended: u64,
    begun: Vec<u8>,
}

impl Model for Feed {
    ghost use Rattle.std.specs.Prelude.{◌≤◌, vec_len, vec_capacity};
    ghost use Rattle.script_lines.specs.declared.lines.TheConstants.{MAX_LINE};
    ghost use Rattle.script_lines.specs.Feed.{FeedView};

    ghost Value = { FeedView };

    ghost view = { λ f. record { ended = f.ended; begun = f.begun.items } };

    ghost invariant = { λ f. (vec_len f.begun ≤ MAX_LINE) × (MAX_LINE ≤ vec_capacity f.begun) };
}

impl Feed {
    ghost use Rattle.std.specs.Prelude.{◌≡◌, ◌+◌, ◌<◌, ◌≤◌, ◌++◌, [], length, IfOk, OnOk, OnErr};
    ghost use Rattle.script_lines.specs.Script.{ended_says, last_says};

    /// A feed that was given nothing.
    pub fn new(alloc: Global) -> Result<Feed, AllocError>
        ensures { IfOk result (λ feed. feed ≡ record { ended = 0; begun = [] }) }
    {
        Ok(Feed {
            ended: 0,
            begun: Vec::with_capacity(alloc, MAX_LINE)?,
        })
    }

    /// The number of the line that has begun; the first is 1.
    pub fn line_number(&self) -> u64
        requires { self.now.ended < u64.MAX }
        ensures { result ≡ self.now.ended + 1 }
    {
        self.ended + 1
    }

    /// Takes more bytes of the line that has begun, with no LF among them.
    pub fn begin_line(&mut self, part: &[u8]) -> Result<(), TooLong>
        ensures taken { OnOk result
            (self.new ≡ record self.old { begun = self.old.begun ++ part.now }) }
        ensures fits { OnOk result (length self.new.begun ≤ MAX_LINE) }
        ensures too_long { OnErr result (MAX_LINE < length (self.old.begun ++ part.now)) }
        ensures some { OnErr result (0 < length part.now) }
        ensures kept { OnErr result (self.new ≡ self.old) }
    {
        if part.len() > MAX_LINE - self.begun.len() {
            return Err(TooLong);
        }
        self.begun.extend_from_slice(part).unwrap();
        Ok(())
    }

    /// Takes the bytes up to an LF, which ends the line that has begun, and says what that line
    /// says. A line that lies whole in these bytes is read where it lies.
    pub fn end_line(&mut self, allowed: Allowed, part: &[u8]) -> Line
        requires { self.old.ended < u64.MAX }
        ensures says { result ≡ ended_says allowed (self.old.begun ++ part.now) }
        ensures ended { self.new ≡ record { ended = self.old.ended + 1; begun = [] } }
    {
        let line = self.read_end(allowed, part);
        self.ended += 1;
        self.begun.clear();
        line
    }

    // What the line says that ends with these bytes.
    fn read_end(&mut self, allowed: Allowed, part: &[u8]) -> Line
        ensures says { result ≡ ended_says allowed (self.old.begun ++ part.now) }
        ensures ended { self.new.ended ≡ self.old.ended }
    {
        if self.begun.is_empty() {
            return read_whole(allowed, part);
        }
        match self.begin_line(part) {
            Ok(()) => read_ended_line(allowed, &self.begun),
            Err(TooLong) => Line::Bad,
        }
    }

    /// What the line says that has begun, where the input ends without its LF.
    pub fn read_last(&self, allowed: Allowed) -> Line
        ensures says { result ≡ last_says allowed self.now.begun }
    {
        read_last_line(allowed, &self.begun)
    }
}

// What a line of any length says whose LF was read.
fn read_whole(allowed: Allowed, line: &[u8]) -> Line
    ensures says { result ≡ ended_says allowed line.now }
{
    if line.len() > MAX_LINE {
        return Line::Bad;
    }
    read_ended_line(allowed, line)
}

/// The bytes before the first LF and those after it; `None` exactly where there is no LF.
pub fn split_line(bytes: &[u8]) -> Option<(&[u8], &[u8])>
    ensures { MatchOption result (has_end bytes.now ≡ false)
        (λ pair. (bytes.now ≡ pair.0.now ++ 10 ∷ pair.1.now) × (has_end pair.0.now ≡ false)) }
{
    let Some(end) = memchr(b'\n', bytes) else {
        return None;
    };
    let (line, rest) = bytes.split_at(end);
    Some((line, &rest[1..]))
}

use crate::source::{Source, fill_front, is_end};
use crate::types::Failed;
use std::marker::Model;

/// A source over bytes in memory that never fails.
#[derive(Drop)]
pub struct QuietSource {
    bytes: Vec<u8>,
    place: usize,
    ended: bool,
}

impl Model for QuietSource {
    ghost use Rattle.std.specs.Prelude.{◌≤◌, drop, vec_len};
    ghost use Rattle.disk_core.specs.Streams.{QuietSupply};

    ghost Value = { QuietSupply };

    ghost view = { λ s. record { left = drop s.place s.bytes.items; ended = s.ended } };

    ghost invariant = { λ s. s.place ≤ vec_len s.bytes };
}

impl QuietSource {
    ghost use Rattle.std.specs.Prelude.{◌≡◌, false};
    ghost use Rattle.disk_core.specs.Streams.{QuietSupply};

    /// A source that has these bytes left.
    pub fn new(bytes: Vec<u8>) -> Self
        ensures { result ≡ record { left = bytes.items; ended = false } }
    {
        QuietSource {
            bytes,
            place: 0,
            ended: false,
        }
    }

    /// Whether its end was given.
    pub fn has_ended(&self) -> bool
        ensures { result ≡ self.now.ended }
    {
        self.ended
    }
}

impl Source for QuietSource {
    ghost use Rattle.std.specs.Prelude.{◌≡◌, ◌≤◌, false, length, IfOk, IsOk, Some};
    ghost use Rattle.std.specs.Io.KnownBytes.{ReadConsumes};
    ghost use Rattle.device_facts.specs.Count.{CountsFault};
    ghost use Rattle.device_facts.specs.Frame.{NothingElse, nothing_else};
    ghost use Rattle.device_facts.specs.Known.{TellsAsBefore};
    ghost use Rattle.disk_core.specs.Streams.{gave_end};

    ghost left = { λ s. Some s.left };

    ghost ended = { λ s. s.ended };

    ghost faults = { λ _. 0 };

    ghost keeps_rest = { NothingElse };

    ghost frame = { nothing_else };

    fn read(&mut self, into: &mut [u8]) -> Result<usize, Failed>
        requires { self.old.ended ≡ false }
        ensures bound { IfOk result (λ count. count ≤ length into.new) }
        ensures bytes { ReadConsumes (Some self.old.left) (Some self.new.left) result into.new }
        ensures end { self.new.ended ≡ gave_end result into.new }
        ensures tells { TellsAsBefore (Some self.old.left) (Some self.new.left) }
        ensures never_fails { IsOk result }
    {
        let count = fill_front(into, &self.bytes[self.place..]);
        self.place += count;
        self.ended = is_end(count, into);
        Ok(count)
    }
}

use crate::source::{Source, fill_front, is_end};
use crate::types::Failed;
use device_facts::counted_once_more;
use std::marker::Model;

/// A source over bytes in memory, of which the calls with the numbers in a list fail, counted from
/// 1.
pub struct MemorySource {
    bytes: Vec<u8>,
    place: usize,
    ended: bool,
    calls: u32,
    fails: Vec<u32>,
    faults: u64,
}

// By hand, so that letting one go is one call, where a derived drop is spelled at each exit.
impl Drop for MemorySource {
    fn drop(self) {
        let Self {
            bytes: _,
            place: _,
            ended: _,
            calls: _,
            fails: _,
            faults: _,
        } = self;
    }
}

impl Model for MemorySource {
    ghost use Rattle.std.specs.Prelude.{◌≤◌, drop, vec_len};
    ghost use Rattle.disk_core.specs.Streams.{Supply};

    ghost Value = { Supply };

    ghost view = { λ s. record {
      left = drop s.place s.bytes.items;
      ended = s.ended;
      calls = s.calls;
      fails = s.fails.items;
      faults = s.faults;
    } };

    ghost invariant = { λ s. s.place ≤ vec_len s.bytes };
}

impl MemorySource {
    ghost use Rattle.std.specs.Prelude.{◌≡◌, false};
    ghost use Rattle.disk_core.specs.Streams.{Supply};

    /// A source that has these bytes left and has failed nowhere yet; its calls with these numbers
    /// will fail. The number of a call stands still at the greatest `u32`.
    pub fn new(bytes: Vec<u8>, fails: Vec<u32>) -> Self
        ensures { result ≡ record {
          left = bytes.items;
          ended = false;
          calls = 0;
          fails = fails.items;
          faults = 0;
        } }
    {
        MemorySource {
            bytes,
            place: 0,
            ended: false,
            calls: 0,
            fails,
            faults: 0,
        }
    }

    /// Whether its end was given.
    pub fn has_ended(&self) -> bool
        ensures { result ≡ self.now.ended }
    {
        self.ended
    }
}

impl Source for MemorySource {
    ghost use Rattle.std.specs.Prelude.{◌≡◌, ◌↔◌, ◌≤◌, false, length, IfOk, IsErr, Some, Contains, refl};
    ghost use Rattle.std.proofs.Common.{◌∙◌};
    ghost use Rattle.std.specs.Io.KnownBytes.{ReadConsumes};
    ghost use Rattle.device_facts.specs.Count.{CountsFault};
    ghost use Rattle.device_facts.specs.Known.{TellsAsBefore};
    ghost use Rattle.disk_core.specs.Streams.{gave_end, next_call};

    ghost left = { λ s. Some s.left };

    ghost ended = { λ s. s.ended };

    ghost faults = { λ s. s.faults };

    ghost keeps_rest = { λ old new. new.fails ≡ old.fails };

    ghost frame = { record { none = λ s. refl; both = λ a b c first second. second ∙ first } };

    fn read(&mut self, into: &mut [u8]) -> Result<usize, Failed>
        requires { self.old.ended ≡ false }
        ensures bound { IfOk result (λ count. count ≤ length into.new) }
        ensures bytes { ReadConsumes (Some self.old.left) (Some self.new.left) result into.new }
        ensures end { self.new.ended ≡ gave_end result into.new }
        ensures tells { TellsAsBefore (Some self.old.left) (Some self.new.left) }
        ensures cause { CountsFault self.old.faults self.new.faults result }
        ensures rest { self.new.fails ≡ self.old.fails }
        ensures listed { IsErr result ↔ Contains self.old.fails (next_call self.old.calls) }
        ensures calls { self.new.calls ≡ next_call self.old.calls }
    {
        self.calls = self.calls.saturating_add(1);
        if self.fails.contains(&self.calls) {
            self.faults = counted_once_more(self.faults);
            return Err(Failed);
        }
        let count = fill_front(into, &self.bytes[self.place..]);
        self.place += count;
        self.ended = is_end(count, into);
        Ok(count)
    }
}

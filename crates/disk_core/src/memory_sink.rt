use crate::sink::Sink;
use crate::types::Failed;
use device_facts::counted_once_more;
use std::alloc::Global;
use std::marker::Model;

/// A sink that keeps its bytes in memory, of which the calls with the numbers in a list fail,
/// counted from 1. A growth that memory refuses is a failed call too.
pub struct MemorySink {
    bytes: Vec<u8>,
    calls: u32,
    fails: Vec<u32>,
    faults: u64,
}

// By hand, so that letting one go is one call, where a derived drop is spelled at each exit.
impl Drop for MemorySink {
    fn drop(self) {
        let Self {
            bytes: _,
            calls: _,
            fails: _,
            faults: _,
        } = self;
    }
}

impl Model for MemorySink {
    ghost use Rattle.std.specs.Prelude.{vec_capacity};
    ghost use Rattle.disk_core.specs.Streams.{Collection};

    ghost Value = { Collection };

    ghost view = { λ s. record {
      held = s.bytes.items;
      room = vec_capacity s.bytes;
      calls = s.calls;
      fails = s.fails.items;
      faults = s.faults;
    } };
}

impl MemorySink {
    ghost use Rattle.std.specs.Prelude.{◌≡◌, []};
    ghost use Rattle.device_facts.specs.Count.{counted};
    ghost use Rattle.disk_core.specs.Streams.{Collection};

    /// A sink that holds nothing and has failed nowhere yet; its calls with these numbers will
    /// fail. The number of a call stands still at the greatest `u32`.
    pub fn new(alloc: Global, fails: Vec<u32>) -> Self
        ensures { result
            ≡ record { held = []; room = 0; calls = 0; fails = fails.items; faults = 0 } }
    {
        MemorySink {
            bytes: Vec::new(alloc),
            calls: 0,
            fails,
            faults: 0,
        }
    }

    /// The bytes that it holds.
    pub fn bytes(&self) -> &[u8]
        ensures { result.now ≡ self.now.held }
    {
        &self.bytes
    }

    // Counts a fault.
    fn fault(&mut self) -> Failed
        ensures { self.new ≡ record self.old { faults = counted self.old.faults 1 } }
    {
        self.faults = counted_once_more(self.faults);
        Failed
    }
}

impl Sink for MemorySink {
    ghost use Rattle.std.specs.Prelude.{◌≡◌, ◌⊎◌, ◌+◌, ◌<◌, ◌≤◌, length, IfOk, IsErr, OnErr, Some, Contains, refl};
    ghost use Rattle.std.proofs.Common.{◌∙◌};
    ghost use Rattle.std.specs.Io.KnownBytes.{WriteAppends};
    ghost use Rattle.device_facts.specs.Count.{CountsFault};
    ghost use Rattle.device_facts.specs.Known.{TellsAsBefore};
    ghost use Rattle.disk_core.specs.Streams.{next_call};

    ghost held = { λ s. Some s.held };

    ghost faults = { λ s. s.faults };

    ghost keeps_rest = { λ old new. new.fails ≡ old.fails };

    ghost frame = { record { none = λ s. refl; both = λ a b c first second. second ∙ first } };

    fn write(&mut self, bytes: &[u8]) -> Result<usize, Failed>
        ensures bound { IfOk result (λ count. count ≤ length bytes.now) }
        ensures some { IfOk result (λ count. 0 < length bytes.now → 0 < count) }
        ensures whole { IfOk result (λ count. count ≡ length bytes.now) }
        ensures bytes { WriteAppends (Some self.old.held) (Some self.new.held) result bytes.now }
        ensures tells { TellsAsBefore (Some self.old.held) (Some self.new.held) }
        ensures cause { CountsFault self.old.faults self.new.faults result }
        ensures rest { self.new.fails ≡ self.old.fails }
        ensures listed { Contains self.old.fails (next_call self.old.calls) → IsErr result }
        ensures unlisted { OnErr result (Contains self.old.fails (next_call self.old.calls)
            ⊎ (self.old.room < length self.old.held + length bytes.now)) }
        ensures calls { self.new.calls ≡ next_call self.old.calls }
    {
        self.calls = self.calls.saturating_add(1);
        if self.fails.contains(&self.calls) {
            return Err(self.fault());
        }
        if self.bytes.extend_from_slice(bytes).is_err() {
            return Err(self.fault());
        }
        Ok(bytes.len())
    }
}

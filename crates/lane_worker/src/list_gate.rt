use crate::gate::Gate;
use book_words::Caller;
use device_facts::counted_once_more;
use disk_core::Failed;
use std::alloc::Global;
use std::marker::Model;

/// A gate that keeps the numbers of the packs for which it opened, of which the calls with the
/// numbers in a list fail, counted from 1. A growth that memory refuses is a failed call too.
pub struct ListGate {
    opened: Vec<u32>,
    calls: u32,
    fails: Vec<u32>,
    faults: u64,
}

// By hand, so that letting one go is one call, where a derived drop is spelled at each exit.
impl Drop for ListGate {
    fn drop(self) {
        let Self {
            opened: _,
            calls: _,
            fails: _,
            faults: _,
        } = self;
    }
}

impl Model for ListGate {
    ghost use Rattle.std.specs.Prelude.{vec_capacity};
    ghost use Rattle.lane_worker.specs.Gates.{GateState};

    ghost Value = { GateState };

    ghost view = { λ g. record {
      opened = g.opened.items;
      room = vec_capacity g.opened;
      calls = g.calls;
      fails = g.fails.items;
      faults = g.faults;
    } };
}

impl ListGate {
    ghost use Rattle.std.specs.Prelude.{◌≡◌, []};
    ghost use Rattle.device_facts.specs.Count.{counted};
    ghost use Rattle.lane_worker.specs.Gates.{GateState};

    /// A gate that opened for no pack and has failed nowhere yet; its calls with these numbers will
    /// fail. The number of a call stands still at the greatest `u32`.
    pub fn new(alloc: Global, fails: Vec<u32>) -> Self
        ensures { result
            ≡ record { opened = []; room = 0; calls = 0; fails = fails.items; faults = 0 } }
    {
        ListGate {
            opened: Vec::new(alloc),
            calls: 0,
            fails,
            faults: 0,
        }
    }

    /// The numbers of the packs for which it opened.
    pub fn opened(&self) -> &[u32]
        ensures { result.now ≡ self.now.opened }
    {
        &self.opened
    }

    // Counts a fault.
    fn fault(&mut self) -> Failed
        ensures { self.new ≡ record self.old { faults = counted self.old.faults 1 } }
    {
        self.faults = counted_once_more(self.faults);
        Failed
    }
}

impl Gate for ListGate {
    ghost use Rattle.std.specs.Prelude.{◌≡◌, ◌⊎◌, ◌+◌, ◌<◌, length, IsErr, OnErr, Some, Contains};
    ghost use Rattle.device_facts.specs.Count.{CountsFault};
    ghost use Rattle.device_facts.specs.Frame.{NothingElse};
    ghost use Rattle.disk_core.specs.Streams.{next_call};
    ghost use Rattle.lane_worker.specs.Gates.{OpensFor};

    ghost opened = { λ g. Some g.opened };

    ghost faults = { λ g. g.faults };

    ghost keeps_rest = { NothingElse };

    fn lift<C: Caller>(&mut self, _caller: &C, pack: u32) -> Result<(), Failed>
        ensures opened { OpensFor (Some self.old.opened) (Some self.new.opened) pack result }
        ensures cause { CountsFault self.old.faults self.new.faults result }
        ensures listed { Contains self.old.fails (next_call self.old.calls) → IsErr result }
        ensures unlisted { OnErr result (Contains self.old.fails (next_call self.old.calls)
            ⊎ (self.old.room < length self.old.opened + 1)) }
        ensures calls { self.new.calls ≡ next_call self.old.calls }
        ensures fails { self.new.fails ≡ self.old.fails }
    {
        self.calls = self.calls.saturating_add(1);
        if self.fails.contains(&self.calls) {
            return Err(self.fault());
        }
        if self.opened.push(pack).is_err() {
            return Err(self.fault());
        }
        Ok(())
    }
}

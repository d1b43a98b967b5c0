ghost use Rattle.std.specs.Prelude.{◌↔◌, Contains, IsTrue};

use crate::door::Door;
use crate::list_connection::{
    ListConnection, begin_first, give_connection, put_behind, write_connection,
};
use crate::sink::Sink;
use crate::source::{Source, is_end};
use crate::types::Failed;
use device_facts::counted_once_more;
use std::alloc::Global;
use std::collections::VecDeque;
use std::marker::Model;

/// A door to connections in memory, of which the calls with the numbers in a list fail, counted
/// from 1 over all its calls. A growth that memory refuses is a failed call too.
pub struct ListDoor {
    alloc: Global,
    past: Vec<ListConnection>,
    present: Option<ListConnection>,
    waiting: VecDeque<Vec<u8>>,
    ended: bool,
    calls: u32,
    fails: Vec<u32>,
    faults: u64,
    missed: u64,
}

// By hand, so that letting one go is one call, where a derived drop is spelled at each exit.
impl Drop for ListDoor {
    fn drop(self) {
        let Self {
            alloc: _,
            past: _,
            present: _,
            waiting: _,
            ended: _,
            calls: _,
            fails: _,
            faults: _,
            missed: _,
        } = self;
    }
}

impl Model for ListDoor {
    ghost use Rattle.std.specs.Prelude.{vec_capacity};
    ghost use Rattle.disk_core.specs.ListDoors.{DoorState, connections_of, room_of};

    ghost Value = { DoorState };

    ghost view = { λ d. record {
      connections = connections_of d.past.items d.present d.waiting.items;
      ended = d.ended;
      room = room_of d.present;
      past_room = vec_capacity d.past;
      calls = d.calls;
      fails = d.fails.items;
      faults = d.faults;
      missed = d.missed;
    } };
}

impl ListDoor {
    ghost use Rattle.std.specs.Prelude.{◌≡◌, ◌↔◌, false, map, vec_items, option_map, option_copied, slice_get, Contains, IsTrue};
    ghost use Rattle.device_facts.specs.Count.{counted};
    ghost use Rattle.disk_core.specs.Streams.{next_call};
    ghost use Rattle.disk_core.specs.Doors.{Connection, served};
    ghost use Rattle.disk_core.specs.ListDoors.{ConnectionState, DoorState, all_waiting};

    /// A door where these connections wait, each with the bytes that it will give. It has failed
    /// nowhere yet; its calls with these numbers will fail. The number of a call stands still at
    /// the greatest `u32`.
    pub fn new(alloc: Global, connections: Vec<Vec<u8>>, fails: Vec<u32>) -> Self
        ensures { result ≡ record {
          connections = all_waiting (map vec_items connections.items);
          ended = false;
          room = 0;
          past_room = 0;
          calls = 0;
          fails = fails.items;
          faults = 0;
          missed = 0;
        } }
    {
        ListDoor {
            alloc,
            past: Vec::new(alloc),
            present: None,
            waiting: VecDeque::from_vec(connections),
            ended: false,
            calls: 0,
            fails,
            faults: 0,
            missed: 0,
        }
    }

    /// Whether the end of the present connection was given.
    pub fn has_ended(&self) -> bool
        ensures { result ≡ self.now.ended }
    {
        self.ended
    }

    /// The bytes taken from the connection that was served at this place, counted from 0.
    pub fn taken(&self, place: usize) -> Option<&[u8]>
        ensures { option_copied result ≡ option_map (λ (c : Connection). c.taken)
            (slice_get (served self.now.connections) place) }
    {
        Some(self.served(place)?.taken())
    }

    /// The bytes written to the connection that was served at this place, counted from 0.
    pub fn written(&self, place: usize) -> Option<&[u8]>
        ensures { option_copied result ≡ option_map (λ (c : Connection). c.written)
            (slice_get (served self.now.connections) place) }
    {
        Some(self.served(place)?.written())
    }

    // The connection that was served at a place: one that was left, or the present one behind them.
    fn served(&self, place: usize) -> Option<&ListConnection>
        ensures { option_map (λ (s : ConnectionState). s.said) (option_copied result)
            ≡ slice_get (served self.now.connections) place }
    {
        if place == self.past.len() {
            self.present.as_ref()
        } else {
            self.past.get(place)
        }
    }

    // Counts a call, and tells whether it is one of those that fail.
    fn is_listed(&mut self) -> bool
        ensures calls { self.new ≡ record self.old { calls = next_call self.old.calls } }
        ensures listed { IsTrue result ↔ Contains self.old.fails (next_call self.old.calls) }
    {
        self.calls = self.calls.saturating_add(1);
        contains(&self.fails, self.calls)
    }

    // Counts a fault.
    fn fault(&mut self) -> Failed
        ensures { self.new ≡ record self.old { faults = counted self.old.faults 1 } }
    {
        self.faults = counted_once_more(self.faults);
        Failed
    }

    // Counts a fault of `next`.
    fn miss(&mut self) -> Failed
        ensures { self.new ≡ record self.old {
          faults = counted self.old.faults 1;
          missed = counted self.old.missed 1;
        } }
    {
        self.missed = counted_once_more(self.missed);
        self.fault()
    }
}

fn contains(numbers: &[u32], number: u32) -> bool
    ensures { IsTrue result ↔ Contains numbers.now number }
{
    numbers.contains(&number)
}

impl Source for ListDoor {
    ghost use Rattle.std.specs.Prelude.{◌≡◌, ◌↔◌, ◌≤◌, false, length, IfOk, IsErr, Some, Contains, refl};
    ghost use Rattle.std.proofs.Common.{◌∙◌};
    ghost use Rattle.std.specs.Io.KnownBytes.{ReadConsumes};
    ghost use Rattle.device_facts.specs.Count.{CountsFault};
    ghost use Rattle.disk_core.specs.Streams.{gave_end, next_call};
    ghost use Rattle.disk_core.specs.Doors.{left_now};
    ghost use Rattle.disk_core.specs.ListDoors.{all_unread};

    ghost left = { λ d. Some (left_now d.connections) };

    ghost ended = { λ d. d.ended };

    ghost faults = { λ d. d.faults };

    ghost keeps_rest = { λ old new. (all_unread new.connections ≡ all_unread old.connections)
        × (new.missed ≡ old.missed) };

    ghost frame = { record {
      none = λ d. (refl, refl);
      both = λ a b c first second. (second.0 ∙ first.0, second.1 ∙ first.1);
    } };

    fn read(&mut self, into: &mut [u8]) -> Result<usize, Failed>
        requires { self.old.ended ≡ false }
        ensures bound { IfOk result (λ count. count ≤ length into.new) }
        ensures bytes { ReadConsumes (Some (left_now self.old.connections))
            (Some (left_now self.new.connections)) result into.new }
        ensures end { self.new.ended ≡ gave_end result into.new }
        ensures cause { CountsFault self.old.faults self.new.faults result }
        ensures rest { (all_unread self.new.connections ≡ all_unread self.old.connections)
            × (self.new.missed ≡ self.old.missed) }
        ensures listed { IsErr result ↔ Contains self.old.fails (next_call self.old.calls) }
        ensures calls { self.new.calls ≡ next_call self.old.calls }
        ensures fails { self.new.fails ≡ self.old.fails }
    {
        if self.is_listed() {
            return Err(self.fault());
        }
        let count = give_connection(&mut self.present, into);
        self.ended = is_end(count, into);
        Ok(count)
    }
}

impl Sink for ListDoor {
    ghost use Rattle.std.specs.Prelude.{◌≡◌, ◌⊎◌, ◌+◌, ◌<◌, ◌≤◌, length, IfOk, IsNone, IsErr, OnErr, Some, Contains, refl};
    ghost use Rattle.std.proofs.Common.{◌∙◌};
    ghost use Rattle.std.specs.Io.KnownBytes.{WriteAppends};
    ghost use Rattle.device_facts.specs.Count.{CountsFault};
    ghost use Rattle.disk_core.specs.Streams.{next_call};
    ghost use Rattle.disk_core.specs.Doors.{written_now};
    ghost use Rattle.disk_core.specs.ListDoors.{all_unwritten};

    ghost held = { λ d. Some (written_now d.connections) };

    ghost faults = { λ d. d.faults };

    ghost keeps_rest = { λ old new. (all_unwritten new.connections ≡ all_unwritten old.connections)
        × (new.ended ≡ old.ended) × (new.missed ≡ old.missed) };

    ghost frame = { record {
      none = λ d. (refl, refl, refl);
      both = λ a b c first second.
          (second.0 ∙ first.0, second.1 ∙ first.1, second.2 ∙ first.2);
    } };

    fn write(&mut self, bytes: &[u8]) -> Result<usize, Failed>
        ensures bound { IfOk result (λ count. count ≤ length bytes.now) }
        ensures some { IfOk result (λ count. 0 < length bytes.now → 0 < count) }
        ensures whole { IfOk result (λ count. count ≡ length bytes.now) }
        ensures bytes { WriteAppends (Some (written_now self.old.connections))
            (Some (written_now self.new.connections)) result bytes.now }
        ensures cause { CountsFault self.old.faults self.new.faults result }
        ensures rest { (all_unwritten self.new.connections ≡ all_unwritten self.old.connections)
            × (self.new.ended ≡ self.old.ended) × (self.new.missed ≡ self.old.missed) }
        ensures listed { Contains self.old.fails (next_call self.old.calls) → IsErr result }
        ensures absent { IsNone self.old.connections.present → 0 < length bytes.now → IsErr result }
        ensures unlisted { OnErr result (Contains self.old.fails (next_call self.old.calls)
            ⊎ (IsNone self.old.connections.present × (0 < length bytes.now))
            ⊎ (self.old.room < length (written_now self.old.connections) + length bytes.now)) }
        ensures calls { self.new.calls ≡ next_call self.old.calls }
        ensures fails { self.new.fails ≡ self.old.fails }
    {
        if self.is_listed() {
            return Err(self.fault());
        }
        if write_connection(&mut self.present, bytes).is_err() {
            return Err(self.fault());
        }
        Ok(bytes.len())
    }
}

impl Door for ListDoor {
    ghost use Rattle.std.specs.Prelude.{◌≡◌, ◌⊎◌, ◌+◌, ◌<◌, false, length, IsErr, OnOk, OnErr, Some, Contains, refl};
    ghost use Rattle.device_facts.specs.Count.{CountsFault};
    ghost use Rattle.disk_core.specs.Streams.{next_call};
    ghost use Rattle.disk_core.specs.Doors.{AdmitsNext};
    ghost use Rattle.disk_core.specs.DoorLaws.{read_adds, write_adds};

    ghost connections = { λ d. Some d.connections };

    ghost missed = { λ d. d.missed };

    ghost source_left = { λ d. refl };

    ghost sink_held = { λ d. refl };

    ghost one_count = { λ d. refl };

    ghost read_adds = { λ old new bytes same parts.
        read_adds old.connections new.connections bytes same.0 parts };

    ghost write_adds = { λ old new bytes same grown.
        write_adds old.connections new.connections bytes same.0 grown };

    ghost write_leaves_end = { λ old new same. same.1 };

    ghost read_misses_none = { λ old new same. same.1 };

    ghost write_misses_none = { λ old new same. same.2 };

    fn next(&mut self) -> Result<bool, Failed>
        ensures connections { AdmitsNext (Some self.old.connections) (Some self.new.connections)
            result }
        ensures begins { OnOk result (self.new.ended ≡ false) }
        ensures stays { OnErr result (self.new.ended ≡ self.old.ended) }
        ensures cause { CountsFault self.old.faults self.new.faults result }
        ensures missed { CountsFault self.old.missed self.new.missed result }
        ensures listed { Contains self.old.fails (next_call self.old.calls) → IsErr result }
        ensures unlisted { OnErr result (Contains self.old.fails (next_call self.old.calls)
            ⊎ (self.old.past_room < length self.old.connections.past + 1)) }
        ensures calls { self.new.calls ≡ next_call self.old.calls }
        ensures fails { self.new.fails ≡ self.old.fails }
    {
        if self.is_listed() {
            return Err(self.miss());
        }
        if self.past.reserve(1).is_err() {
            return Err(self.miss());
        }
        put_behind(&mut self.past, self.present.take());
        self.present = begin_first(self.alloc, &mut self.waiting);
        self.ended = false;
        Ok(self.present.is_some())
    }
}

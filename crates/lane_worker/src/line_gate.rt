use crate::gate::Gate;
use crate::gate_lines::write_opening;
use book_words::Caller;
use device_facts::counted_once_more;
use disk_core::{Failed, Sink};
use std::marker::Model;

/// A gate over a sink of lines: `open N` for each pack. The packs for which it opened aren't told.
#[derive(Drop)]
pub struct LineGate<K: Sink> {
    sink: K,
    faults: u64,
}

impl<K: Sink> Model for LineGate<K> {
    ghost use Rattle.disk_core.specs.Streams.{RealSink};

    ghost Value = { RealSink K };

    ghost view = { λ g. record { writer = g.sink; faults = g.faults } };
}

impl<K: Sink> LineGate<K> {
    ghost use Rattle.std.specs.Prelude.{◌≡◌};
    ghost use Rattle.disk_core.specs.Streams.{RealSink};

    /// A gate over a sink. It has failed nowhere yet.
    pub fn new(sink: K) -> Self
        ensures { result ≡ record { writer = sink; faults = 0 } }
    {
        LineGate { sink, faults: 0 }
    }

    /// The sink, to be looked at.
    pub fn sink(&self) -> &K
        ensures { result.now ≡ self.now.writer }
    {
        &self.sink
    }
}

impl<K: Sink> Gate for LineGate<K> {
    ghost use Rattle.std.specs.Prelude.{None, OnOk};
    ghost use Rattle.std.specs.Io.KnownBytes.{Appends};
    ghost use Rattle.device_facts.specs.Count.{CountsFault};
    ghost use Rattle.device_facts.specs.Frame.{NothingElse};
    ghost use Rattle.lane_worker.specs.GateLines.{opening_line};

    ghost opened = { λ _. None };

    ghost faults = { λ g. g.faults };

    ghost keeps_rest = { NothingElse };

    fn lift<C: Caller>(&mut self, _caller: &C, pack: u32) -> Result<(), Failed>
        ensures line { OnOk result (Appends
            (K.held self.old.writer) (K.held self.new.writer) (opening_line pack)) }
        ensures cause { CountsFault self.old.faults self.new.faults result }
    {
        let written = write_opening(&mut self.sink, pack);
        if written.is_err() {
            self.faults = counted_once_more(self.faults);
        }
        written
    }
}

use crate::scale_lines::ScaleLines;
use disk_core::{Door, Failed, Sink, Source};
use std::io::Eprint;
use std::marker::Model;

// No bytes.
const NOTHING: &[u8] = &[];

/// The port of a scale. It gives and takes what its door does; standard error is told of lines that
/// look as if two scales sent to it, or as if the hall had begun anew.
#[derive(Drop)]
pub struct ScaleDoor<O: Door + Drop, E: Eprint + Drop> {
    door: O,
    errors: E,
    lines: ScaleLines,
}

impl<O: Door + Drop, E: Eprint + Drop> Model for ScaleDoor<O, E> {
    ghost Value = { O };

    ghost view = { λ scale. scale.door };
}

impl<O: Door + Drop, E: Eprint + Drop> ScaleDoor<O, E> {
    ghost use Rattle.std.specs.Prelude.{◌≡◌};

    /// The door at this port, of which nothing was heard yet.
    pub fn new(door: O, errors: E, port: u16) -> Self
        ensures { result ≡ door }
    {
        ScaleDoor {
            door,
            errors,
            lines: ScaleLines::new(port),
        }
    }
}

impl<O: Door + Drop, E: Eprint + Drop> Source for ScaleDoor<O, E> {
    ghost left = { O.left };

    ghost ended = { O.ended };

    ghost faults = { O.Source.faults };

    ghost keeps_rest = { O.Source.keeps_rest };

    ghost frame = { O.Source.frame };

    fn read(&mut self, into: &mut [u8]) -> Result<usize, Failed> {
        let count = self.door.read(into)?;
        let bytes = into.get(..count).unwrap_or(NOTHING);
        self.lines.hear(&self.errors, bytes);
        Ok(count)
    }
}

impl<O: Door + Drop, E: Eprint + Drop> Sink for ScaleDoor<O, E> {
    ghost held = { O.held };

    ghost faults = { O.Sink.faults };

    ghost keeps_rest = { O.Sink.keeps_rest };

    ghost frame = { O.Sink.frame };

    fn write(&mut self, bytes: &[u8]) -> Result<usize, Failed> {
        self.door.write(bytes)
    }
}

impl<O: Door + Drop, E: Eprint + Drop> Door for ScaleDoor<O, E> {
    ghost connections = { O.connections };

    ghost missed = { O.missed };

    ghost source_left = { O.source_left };

    ghost sink_held = { O.sink_held };

    ghost one_count = { O.one_count };

    ghost read_adds = { O.read_adds };

    ghost write_adds = { O.write_adds };

    ghost write_leaves_end = { O.write_leaves_end };

    ghost read_misses_none = { O.read_misses_none };

    ghost write_misses_none = { O.write_misses_none };

    fn next(&mut self) -> Result<bool, Failed> {
        self.lines.begin();
        self.door.next()
    }
}

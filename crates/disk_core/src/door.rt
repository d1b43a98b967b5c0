ghost use Rattle.std.specs.Prelude.{◌≡◌, ℕ, false, List, Option, option_map, OnOk, OnErr};
ghost use Rattle.std.specs.Io.KnownBytes.{Appends, Consumes};
ghost use Rattle.device_facts.specs.Count.{CountsFault};
ghost use Rattle.disk_core.specs.Doors.{Connections, AdmitsNext, left_now, written_now, with_taken, with_written};

use crate::sink::Sink;
use crate::source::Source;
use crate::types::Failed;

/// A door to which connections come, one after another. It is the source and the sink of the
/// present one. Before the first `next` that answers true, and after one that answers false, none
/// is present: a read then gives no byte, and a write that isn't empty fails.
pub trait Door: Source + Sink {
    /// Its connections, where it tells them. A door that tells them goes on telling, and one that
    /// doesn't never begins to.
    ghost connections: { Self → Option Connections };

    /// How often it couldn't admit the next connection, up to the greatest number of 64 bits.
    ghost missed: { Self → ℕ };

    /// Leaves the present connection and admits the next: true where there is one, and false at the
    /// end. Nothing is taken from it or written to it yet, and its end wasn't given. `Failed`
    /// leaves the connections as they were and raises the count of faults by one, and `missed`.
    fn next(&mut self) -> Result<bool, Failed>
        ensures connections { AdmitsNext (connections self.old) (connections self.new) result }
        ensures begins { OnOk result (Self.ended self.new ≡ false) }
        ensures stays { OnErr result (Self.ended self.new ≡ Self.ended self.old) }
        ensures cause { CountsFault
            (Self.Source.faults self.old) (Self.Source.faults self.new) result }
        ensures missed { CountsFault (missed self.old) (missed self.new) result };

    /// As a source it has left what the present connection has left.
    ghost source_left: { (door : Self) → Self.left door ≡ option_map left_now (connections door) };

    /// As a sink it holds what was written to the present connection.
    ghost sink_held: { (door : Self)
        → Self.held door ≡ option_map written_now (connections door) };

    /// Its count of faults is one number, as a source and as a sink.
    ghost one_count: { (door : Self) → Self.Sink.faults door ≡ Self.Source.faults door };

    /// A read adds the bytes that it gives to those taken of the present connection, and changes
    /// nothing else of the connections.
    ghost read_adds: { (old new : Self) (bytes : List ℕ) → Self.Source.keeps_rest old new
        → Consumes (Self.left old) (Self.left new) bytes
        → connections new ≡ option_map (with_taken bytes) (connections old) };

    /// A write adds the bytes that it takes to those written to the present connection, and changes
    /// nothing else of the connections.
    ghost write_adds: { (old new : Self) (bytes : List ℕ) → Self.Sink.keeps_rest old new
        → Appends (Self.held old) (Self.held new) bytes
        → connections new ≡ option_map (with_written bytes) (connections old) };

    /// A write leaves whether the end was given.
    ghost write_leaves_end: { (old new : Self) → Self.Sink.keeps_rest old new
        → Self.ended new ≡ Self.ended old };

    /// No read misses a connection, nor does a write.
    ghost read_misses_none: { (old new : Self) → Self.Source.keeps_rest old new
        → missed new ≡ missed old };

    ghost write_misses_none: { (old new : Self) → Self.Sink.keeps_rest old new
        → missed new ≡ missed old };
}

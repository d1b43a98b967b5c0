ghost use Rattle.std.specs.Prelude.{ℕ, ◌<◌, ◌≤◌, List, length, take, IfOk, IfErr, OnOk, Option};
ghost use Rattle.std.specs.Io.KnownBytes.{Appends, WriteAppends};
ghost use Rattle.device_facts.specs.Count.{CountsFault};
ghost use Rattle.device_facts.specs.Frame.{IsFrame};
ghost use Rattle.device_facts.specs.Known.{TellsAsBefore};

use crate::types::{Failed, Partly};

/// Where bytes go.
pub trait Sink {
    /// The bytes that it holds, where it tells them.
    ghost held: { Self → Option (List ℕ) };

    /// How often it failed, up to the greatest number of 64 bits.
    ghost faults: { Self → ℕ };

    /// Nothing differs between two states but what writes change: what it holds, and how often it
    /// failed.
    ghost keeps_rest: { Self → Self → Type 0 };

    /// Takes a prefix of the bytes and answers how many they are: at least one, where there is one.
    /// `Failed` takes nothing and raises the count of faults by one.
    fn write(&mut self, bytes: &[u8]) -> Result<usize, Failed>
        ensures bound { IfOk result (λ count. count ≤ length bytes.now) }
        ensures some { IfOk result (λ count. 0 < length bytes.now → 0 < count) }
        ensures bytes { WriteAppends (held self.old) (held self.new) result bytes.now }
        ensures tells { TellsAsBefore (held self.old) (held self.new) }
        ensures cause { CountsFault (faults self.old) (faults self.new) result }
        ensures rest { keeps_rest self.old self.new };

    /// So it is over no write, and over writes one after another.
    ghost frame: { IsFrame keeps_rest };
}

/// Writes all of the bytes; it takes no memory. `Partly` comes only where the sink failed; then the
/// first `done` bytes went out, and at least one didn't.
pub fn write_all<K: Sink>(sink: &mut K, bytes: &[u8]) -> Result<(), Partly>
    ensures written { OnOk result (Appends (K.held sink.old) (K.held sink.new) bytes.now) }
    ensures partly { IfErr result (λ partly.
        Appends (K.held sink.old) (K.held sink.new) (take partly.done bytes.now)) }
    ensures some_left { IfErr result (λ partly. partly.done < length bytes.now) }
    ensures tells { TellsAsBefore (K.held sink.old) (K.held sink.new) }
    ensures cause { CountsFault (K.faults sink.old) (K.faults sink.new) result }
    ensures rest { K.keeps_rest sink.old sink.new }
{
    let mut done = 0;
    while done < bytes.len() {
        match sink.write(&bytes[done..]) {
            Ok(count) => done += count,
            Err(Failed) => return Err(Partly { done }),
        }
    }
    Ok(())
}

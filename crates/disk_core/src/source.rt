ghost use Rattle.std.specs.Prelude.{◌≡◌, ℕ, ◌≤◌, min, Bool, false, List, length, take, IfOk, Option};
ghost use Rattle.std.specs.Io.KnownBytes.{ReadConsumes};
ghost use Rattle.device_facts.specs.Count.{CountsFault};
ghost use Rattle.device_facts.specs.Frame.{IsFrame};
ghost use Rattle.device_facts.specs.Known.{TellsAsBefore};
ghost use Rattle.disk_core.specs.Streams.{is_end, gave_end};

use crate::types::Failed;

/// Where bytes come from.
pub trait Source {
    /// The bytes that it has left, where it tells them.
    ghost left: { Self → Option (List ℕ) };

    /// Whether its end was given.
    ghost ended: { Self → Bool };

    /// How often it failed, up to the greatest number of 64 bits.
    ghost faults: { Self → ℕ };

    /// Nothing differs between two states but what reads change: what is left, whether the end was
    /// given, and how often it failed.
    ghost keeps_rest: { Self → Self → Type 0 };

    /// Reads the next bytes, in order, into the beginning of a buffer, and answers how many they
    /// are. For a buffer that isn't empty, 0 is the end, and after it nothing more is read.
    /// `Failed` takes nothing and raises the count of faults by one.
    fn read(&mut self, into: &mut [u8]) -> Result<usize, Failed>
        requires { ended self.old ≡ false }
        ensures bound { IfOk result (λ count. count ≤ length into.new) }
        ensures bytes { ReadConsumes (left self.old) (left self.new) result into.new }
        ensures end { ended self.new ≡ gave_end result into.new }
        ensures tells { TellsAsBefore (left self.old) (left self.new) }
        ensures cause { CountsFault (faults self.old) (faults self.new) result }
        ensures rest { keeps_rest self.old self.new };

    /// So it is over no read, and over reads one after another.
    ghost frame: { IsFrame keeps_rest };
}

/// Copies the first of some bytes into the beginning of a buffer, as many as both have, and answers
/// how many.
pub(crate) fn fill_front(into: &mut [u8], from: &[u8]) -> usize
    ensures count { result ≡ min (length into.old) (length from.now) }
    ensures bytes { take result into.new ≡ take result from.now }
{
    let count = into.len().min(from.len());
    into[..count].copy_from_slice(&from[..count]);
    count
}

/// Whether so many bytes are the end: none, where there was room for one.
pub(crate) fn is_end(count: usize, into: &[u8]) -> bool
    ensures { result ≡ is_end count into.now }
{
    count == 0 && !into.is_empty()
}

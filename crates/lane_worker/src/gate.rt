ghost use Rattle.std.specs.Prelude.{ℕ, List, Option};
ghost use Rattle.device_facts.specs.Count.{CountsFault};
ghost use Rattle.lane_worker.specs.Gates.{HasPassed, OpensFor};

use book_words::Caller;
use disk_core::Failed;

/// A gate: it lets a pack out, or turns it aside.
pub trait Gate {
    /// The numbers of the packs for which it opened, in order, where it tells them.
    ghost opened: { Self → Option (List ℕ) };

    /// How often it failed, up to the greatest number of 64 bits.
    ghost faults: { Self → ℕ };

    /// Nothing differs between two states but what lifting changes: the packs for which it opened,
    /// and how often it failed.
    ghost keeps_rest: { Self → Self → Type 0 };

    /// Opens for a pack. The rows that the book acknowledged to the caller hold the weighing of the
    /// pack, and it passed. `Failed` leaves the gate shut and raises the count of faults by one.
    fn lift<C: Caller>(&mut self, caller: &C, pack: u32) -> Result<(), Failed>
        requires passed { HasPassed (C.known caller.now).mine pack }
        ensures opened { OpensFor (opened self.old) (opened self.new) pack result }
        ensures cause { CountsFault (faults self.old) (faults self.new) result }
        ensures rest { keeps_rest self.old self.new };
}

ghost use Rattle.std.specs.Prelude.{◌≡◌, ℕ};
ghost use Rattle.device_facts.specs.Count.{CountsFault};
ghost use Rattle.lane_worker.specs.Cells.{Feed, GivesNext};

use crate::types::CellNext;
use disk_core::Failed;

/// A scale: it gives the weights of packs, one after another.
pub trait Cell {
    /// The items that it has left, where it tells them; behind them comes `End`, at each call. And
    /// the weights and batches that it gave so far, where it tells those.
    ghost feed: { Self → Feed };

    /// How often it failed, up to the greatest number of 64 bits.
    ghost faults: { Self → ℕ };

    /// Nothing differs between two states but what weighing changes: what is left, what was given,
    /// and how often it failed.
    ghost keeps_rest: { Self → Self → Type 0 };

    /// Gives the next item; behind those that it tells to have left it gives `End` at each call. What
    /// isn't a weight is an item like another. `Failed` takes none and raises the count of faults by
    /// one.
    fn next(&mut self) -> Result<CellNext, Failed>
        ensures item { GivesNext (feed self.old) (feed self.new) result }
        ensures cause { CountsFault (faults self.old) (faults self.new) result }
        ensures rest { keeps_rest self.old self.new };

    /// Its lane changes its batch, so that what names one is an item from now on, where it was bad
    /// before. This takes no item.
    fn expect_batches(&mut self)
        ensures feed { feed self.new ≡ feed self.old }
        ensures faults { faults self.new ≡ faults self.old }
        ensures rest { keeps_rest self.old self.new };
}

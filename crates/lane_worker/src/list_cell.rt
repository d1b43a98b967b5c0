use crate::cell::Cell;
use crate::types::CellNext;
use device_facts::counted_once_more;
use disk_core::Failed;
use std::marker::Model;

/// A cell over a list of items, of which the calls with the numbers in a list fail, counted from 1.
/// Behind its items it gives `End` at each call.
pub struct ListCell {
    items: Vec<CellNext>,
    place: usize,
    calls: u32,
    fails: Vec<u32>,
    faults: u64,
}

// By hand, so that letting one go is one call, where a derived drop is spelled at each exit.
impl Drop for ListCell {
    fn drop(self) {
        let Self {
            items: _,
            place: _,
            calls: _,
            fails: _,
            faults: _,
        } = self;
    }
}

impl Model for ListCell {
    ghost use Rattle.std.specs.Prelude.{◌≤◌, drop, vec_len};
    ghost use Rattle.lane_worker.specs.Cells.{CellState};

    ghost Value = { CellState };

    ghost view = { λ c. record {
      left = drop c.place c.items.items;
      calls = c.calls;
      fails = c.fails.items;
      faults = c.faults;
    } };

    ghost invariant = { λ c. c.place ≤ vec_len c.items };
}

impl ListCell {
    ghost use Rattle.std.specs.Prelude.{◌≡◌, drop};
    ghost use Rattle.lane_worker.specs.Cells.{CellState, next_item};

    /// A cell that has these items left and has failed nowhere yet; its calls with these numbers
    /// will fail. The number of a call stands still at the greatest `u32`.
    pub fn new(items: Vec<CellNext>, fails: Vec<u32>) -> Self
        ensures { result
            ≡ record { left = items.items; calls = 0; fails = fails.items; faults = 0 } }
    {
        ListCell {
            items,
            place: 0,
            calls: 0,
            fails,
            faults: 0,
        }
    }

    // Takes the next item.
    fn take_item(&mut self) -> CellNext
        ensures item { result ≡ next_item self.old.left }
        ensures rest { self.new ≡ record self.old { left = drop 1 self.old.left } }
    {
        match self.items.get(self.place) {
            Some(item) => {
                let item = *item;
                self.place += 1;
                item
            }
            None => CellNext::End,
        }
    }
}

impl Cell for ListCell {
    ghost use Rattle.std.specs.Prelude.{◌≡◌, ◌↔◌, IsErr, Some, Contains};
    ghost use Rattle.device_facts.specs.Count.{CountsFault};
    ghost use Rattle.disk_core.specs.Streams.{next_call};
    ghost use Rattle.device_facts.specs.Frame.{NothingElse};
    ghost use Rattle.lane_worker.specs.Cells.{GivesFirst, told_left};

    ghost feed = { λ c. told_left (Some c.left) };

    ghost faults = { λ c. c.faults };

    ghost keeps_rest = { NothingElse };

    fn next(&mut self) -> Result<CellNext, Failed>
        ensures item { GivesFirst (Some self.old.left) (Some self.new.left) result }
        ensures cause { CountsFault self.old.faults self.new.faults result }
        ensures listed { IsErr result ↔ Contains self.old.fails (next_call self.old.calls) }
        ensures calls { self.new.calls ≡ next_call self.old.calls }
        ensures fails { self.new.fails ≡ self.old.fails }
    {
        self.calls = self.calls.saturating_add(1);
        if self.fails.contains(&self.calls) {
            self.faults = counted_once_more(self.faults);
            return Err(Failed);
        }
        Ok(self.take_item())
    }

    fn expect_batches(&mut self) {}
}

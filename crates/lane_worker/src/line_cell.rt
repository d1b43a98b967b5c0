use crate::cell::Cell;
use crate::held_lines::HeldLines;
use crate::types::CellNext;
use device_facts::counted_once_more;
use disk_core::{Failed, Source};
use std::marker::Model;

/// A cell over a source of lines: a text of grams in each. One CR before an LF is passed over, and
/// the last line may lack its LF. A line that says anything else, or is longer than `MAX_CELL_LINE`
/// bytes, is `Bad`; the next call goes on behind its LF, and passes over what follows of a line that
/// was too long. Lines are counted up to the greatest `u32`.
///
/// It reads what is there and waits for no more than a line, so a scale may be heard as it speaks.
/// Where the source tells its bytes, the cell tells the items that these give.
#[derive(Drop)]
pub struct LineCell<S: Source> {
    source: S,
    held: HeldLines,
    ended: bool,
    faults: u64,
}

impl<S: Source> Model for LineCell<S> {
    ghost use Rattle.std.specs.Prelude.{◌≡◌, true};
    ghost use Rattle.std.specs.Io.KnownBytes.{IsAtEnd};
    ghost use Rattle.lane_worker.specs.CellLines.{LineState};

    ghost Value = { LineState S };

    ghost view = { λ c. record {
      reader = c.source;
      held = c.held;
      ended = c.ended;
      faults = c.faults;
    } };

    ghost invariant = { λ c. (S.ended c.source ≡ c.ended)
        × (c.ended ≡ true → IsAtEnd (S.left c.source)) };
}

impl<S: Source> LineCell<S> {
    ghost use Rattle.std.specs.Prelude.{◌≡◌, false, option_map};
    ghost use Rattle.lane_worker.specs.Cells.{GivesFirst};
    ghost use Rattle.lane_worker.specs.CellLines.{LineState, none_held, bytes_give, cell_left};

    /// A cell over a source whose end wasn't given. All that the source's bytes give is left, and
    /// it has failed nowhere yet.
    pub fn new(source: S) -> Self
        requires unended { S.ended source ≡ false }
        ensures state { result ≡ record {
          reader = source;
          held = none_held;
          ended = false;
          faults = 0;
        } }
        ensures left { cell_left S.left result ≡ option_map (bytes_give 0) (S.left source) }
    {
        LineCell {
            source,
            held: HeldLines::new(),
            ended: false,
            faults: 0,
        }
    }

    /// The source, to be looked at.
    pub fn source(&self) -> &S
        ensures { result.now ≡ self.now.reader }
    {
        &self.source
    }

    // Reads until the next item is known, and takes it.
    fn next_item(&mut self) -> Result<CellNext, Failed>
        ensures item { GivesFirst (cell_left S.left self.old) (cell_left S.left self.new) result }
        ensures faults { self.new.faults ≡ self.old.faults }
    {
        for _read in 0..u64::MAX {
            self.held.pass_over();
            if self.ended || self.held.has_item() {
                return Ok(self.held.take_item());
            }
            self.ended = self.held.read_from(&mut self.source)?;
        }
        Err(Failed)
    }
}

impl<S: Source> Cell for LineCell<S> {
    ghost use Rattle.device_facts.specs.Count.{CountsFault};
    ghost use Rattle.device_facts.specs.Frame.{NothingElse};
    ghost use Rattle.lane_worker.specs.Cells.{GivesFirst, told_left};
    ghost use Rattle.lane_worker.specs.CellLines.{cell_left};

    ghost feed = { λ c. told_left (cell_left S.left c) };

    ghost faults = { λ c. c.faults };

    ghost keeps_rest = { NothingElse };

    fn next(&mut self) -> Result<CellNext, Failed>
        ensures item { GivesFirst (cell_left S.left self.old) (cell_left S.left self.new) result }
        ensures cause { CountsFault self.old.faults self.new.faults result }
    {
        let item = self.next_item();
        if item.is_err() {
            self.faults = counted_once_more(self.faults);
        }
        item
    }

    fn expect_batches(&mut self) {}
}

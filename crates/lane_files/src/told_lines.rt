use crate::kept_source::KeptSource;
use crate::teller::Teller;
use disk_core::{Failed, Source};
use lane_worker::{Cell, CellNext, LineCell};
use std::io::Eprint;
use std::marker::Model;

/// A cell over a source of lines, as `LineCell` is. It tells on standard error each line that isn't a
/// weight, nor a batch where its lane changes that, and its end.
#[derive(Drop)]
pub struct ToldLines<S: Source, E: Eprint + Drop> {
    lines: LineCell<KeptSource<S>>,
    batches: bool,
    teller: Teller<E>,
}

impl<S: Source, E: Eprint + Drop> Model for ToldLines<S, E> {
    ghost use Rattle.lane_worker.specs.CellLines.{LineState};

    ghost Value = { LineState S };

    ghost view = { λ cell. cell.lines };
}

impl<S: Source, E: Eprint + Drop> ToldLines<S, E> {
    ghost use Rattle.std.specs.Prelude.{◌≡◌, false, option_map};
    ghost use Rattle.lane_worker.specs.CellLines.{bytes_give, cell_left};

    /// A cell over a source whose end wasn't given. What is told goes to this standard error, under
    /// this path.
    pub fn new(source: S, errors: E, path: String) -> Self
        requires unended { S.ended source ≡ false }
        ensures left { cell_left S.left result ≡ option_map (bytes_give 0) (S.left source) }
        ensures faults { result.faults ≡ 0 }
        ensures reader { result.reader ≡ source }
    {
        ToldLines {
            lines: LineCell::new(KeptSource::new(source)),
            batches: false,
            teller: Teller::new(errors, path),
        }
    }
}

impl<S: Source, E: Eprint + Drop> Cell for ToldLines<S, E> {
    ghost use Rattle.device_facts.specs.Frame.{NothingElse};
    ghost use Rattle.lane_worker.specs.Cells.{told_left};
    ghost use Rattle.lane_worker.specs.CellLines.{cell_left};

    ghost feed = { λ cell. told_left (cell_left S.left cell) };

    ghost faults = { λ cell. cell.faults };

    ghost keeps_rest = { NothingElse };

    fn next(&mut self) -> Result<CellNext, Failed> {
        let item = self.lines.next();
        match &item {
            Ok(CellNext::End) => self.teller.tell_end(),
            Ok(CellNext::Batch { .. }) if self.batches => {}
            Ok(CellNext::Batch { line, .. } | CellNext::Bad { line }) => {
                self.teller.tell_bad(*line, self.lines.source().line(*line));
            }
            _ => {}
        }
        item
    }

    fn expect_batches(&mut self) {
        self.batches = true;
        self.lines.expect_batches();
    }
}

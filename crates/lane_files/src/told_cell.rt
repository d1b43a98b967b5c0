use crate::teller::Teller;
use disk_core::Failed;
use lane_worker::{Cell, CellNext};
use std::io::Eprint;
use std::marker::Model;

/// A cell of any kind. It tells on standard error the number of each item that isn't a weight, and its
/// end.
#[derive(Drop)]
pub struct ToldCell<C: Cell, E: Eprint + Drop> {
    cell: C,
    teller: Teller<E>,
}

impl<C: Cell, E: Eprint + Drop> Model for ToldCell<C, E> {
    ghost Value = { C };

    ghost view = { λ told. told.cell };
}

impl<C: Cell, E: Eprint + Drop> ToldCell<C, E> {
    ghost use Rattle.std.specs.Prelude.{◌≡◌};

    /// A cell, of which nothing was told yet. What is told goes to this standard error, under this
    /// name.
    pub fn new(cell: C, errors: E, name: String) -> Self
        ensures { result ≡ cell }
    {
        ToldCell {
            cell,
            teller: Teller::new(errors, name),
        }
    }
}

impl<C: Cell, E: Eprint + Drop> Cell for ToldCell<C, E> {
    ghost feed = { C.feed };

    ghost faults = { C.faults };

    ghost keeps_rest = { C.keeps_rest };

    fn next(&mut self) -> Result<CellNext, Failed> {
        let item = self.cell.next();
        match &item {
            Ok(CellNext::End) => self.teller.tell_end(),
            Ok(CellNext::Bad { line }) => self.teller.tell_bad(*line, None),
            _ => {}
        }
        item
    }

    fn expect_batches(&mut self) {
        self.cell.expect_batches();
    }
}

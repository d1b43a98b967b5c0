//! Sums, and beside them a plain list of the same packs.

ghost use Rattle.std.specs.Prelude.{◌≡◌, pos, ◌<◌, ◌≤◌, ◌≤ℤ◌, length};
ghost use Rattle.batch_sums.specs.Changes.{IsUpTo};

use crate::plain::{PlainPack, plain_page, plain_totals};
use annex_tables::Limits;
use batch_sums::{BatchSums, NoMemory, Steps, Totals};
use hall_limits::{MAX_DAY, MAX_GROSS, MAX_TARE};
use pack_judge::{Pile, Span};
use std::alloc::Global;
use std::marker::{Brand, Model};
use std::sync::ledger::{Blank, Ledger};

/// A batch of a plain list.
#[derive(Clone, Copy)]
struct PlainBatch {
    product: u32,
    limits: Limits,
}

/// Sums, and beside them a plain list of the same packs. All packs of a day have the same tare when
/// they are added, and a correction ends the day.
#[derive(Drop)]
pub struct Hall {
    pub sums: BatchSums,
    batches: Vec<PlainBatch>,
    packs: Vec<PlainPack>,
    // The number of the next pack.
    next: u32,
    /// The day today.
    pub day: i32,
    tare: i64,
}

impl Model for Hall {
    ghost use Rattle.std.specs.Prelude.{◌≡◌, length};
    ghost use Rattle.batch_sums.specs.Totals.{Sums};
    ghost use Rattle.batch_sums_tests.specs.Halls.{IsKept};

    ghost Value = { Sums };

    ghost view = { λ h. h.sums };

    ghost invariant = { λ h.
        (length h.sums.batches ≡ length h.batches.items)
        × IsKept h.next h.day h.tare h.sums.packs };
}

impl Hall {
    /// A hall without batches on day 0, with this tare.
    pub fn new(alloc: Global, tare: i64) -> Hall
        requires { IsUpTo MAX_TARE tare }
    {
        Hall {
            sums: BatchSums::new(alloc),
            batches: Vec::new(alloc),
            packs: Vec::new(alloc),
            next: 0,
            day: 0,
            tare,
        }
    }

    /// Begins anew.
    pub fn empty(&mut self, alloc: Global, tare: i64)
        requires { IsUpTo MAX_TARE tare }
    {
        *self = Hall::new(alloc, tare);
    }

    /// Adds a batch.
    pub fn add_batch(&mut self, product: u32, limits: Limits) -> Result<u32, NoMemory> {
        self.batches.reserve(1)?;
        let batch = self.sums.add_batch(product, limits)?;
        let Ok(()) = self.batches.push(PlainBatch { product, limits }) else {
            unreachable!()
        };
        Ok(batch)
    }

    /// Adds a pack of today, if its batch is there and its gross can be.
    pub fn add(&mut self, batch: u32, gross: i64, pile: Pile) -> Result<(), NoMemory> {
        let Some(&PlainBatch { product, .. }) = self.batches.get(batch as usize) else {
            return Ok(());
        };
        if gross < 0 || gross > MAX_GROSS || self.next == u32::MAX {
            return Ok(());
        }
        let (day, tare) = (self.day, self.tare);
        self.packs.push(PlainPack {
            product,
            batch,
            day,
            gross,
            tare,
            pile,
        })?;
        self.sums.add(batch, self.next, day, gross, tare, pile)?;
        self.next += 1;
        Ok(())
    }

    /// Moves a pack to a pile, if it is there.
    pub fn shift(&mut self, pack: u32, to: Pile) {
        if pack >= self.next {
            return;
        }
        let Some(known) = self.packs.get_mut(pack as usize) else {
            return;
        };
        known.pile = to;
        self.sums.shift(pack, to);
    }

    /// Corrects the tare of a product in a span, if it can be, and ends the day; the packs of the
    /// next have this tare.
    pub fn correct(&mut self, product: u32, span: Span, tare: i64) {
        self.correct_counted::<Brand>(product, span, tare, Blank::new(1));
    }

    fn correct_counted<L: Ledger>(&mut self, product: u32, span: Span, tare: i64, blank: Blank)
        requires name { blank.name ≡ L.name }
        requires parts { blank.parts ≡ L.parts }
        requires some { 0 < blank.parts }
    {
        if self.day >= MAX_DAY || tare < 0 || tare > MAX_TARE {
            return;
        }
        correct_plain(&mut self.packs, product, &span, tare);
        let mut steps: Steps<L> = Steps::new(blank);
        self.sums.rejudge(product, span, tare, &mut steps);
        self.day += 1;
        self.tare = tare;
    }

    /// Takes room in the sums for so many packs and batches more.
    pub fn reserve(&mut self, more: u32) -> Result<(), NoMemory> {
        self.sums.reserve(more)
    }

    /// The totals of a batch, if it is there.
    pub fn totals(&self, batch: u32) -> Option<Totals> {
        if batch as usize >= self.batches.len() {
            return None;
        }
        Some(self.sums.totals(batch))
    }

    /// The numbers of the packs in the population of a batch, if it is there.
    pub fn population(&self, alloc: Global, batch: u32) -> Result<Option<Vec<u64>>, NoMemory> {
        if batch as usize >= self.batches.len() {
            return Ok(None);
        }
        Ok(Some(self.sums.population(alloc, batch)?))
    }

    /// The numbers above one of the packs of a batch, at most so many, if it is there.
    pub fn packs_after(
        &self,
        alloc: Global,
        batch: u32,
        after: u32,
        most: u32,
    ) -> Result<Option<Vec<u32>>, NoMemory> {
        if batch as usize >= self.batches.len() {
            return Ok(None);
        }
        Ok(Some(self.sums.packs_after(alloc, batch, after, most)?))
    }

    /// The number behind which a page of a batch, of at most so many packs, isn't that of the plain
    /// list; `None` where none is so.
    pub fn wrong_page(
        &self,
        alloc: Global,
        batch: u32,
        most: u32,
    ) -> Result<Option<u32>, NoMemory> {
        for after in 0..self.next {
            let told = self.packs_after(alloc, batch, after, most)?;
            let wanted = plain_page(alloc, &self.packs, batch, after, most)?;
            if told != Some(wanted) {
                return Ok(Some(after));
            }
        }
        Ok(None)
    }

    /// The first of the chosen batches that has a pack of a product in a span, if there is a flag
    /// for each batch.
    pub fn first_concerned(&self, product: u32, span: &Span, chosen: &[bool]) -> Option<u32> {
        if chosen.len() != self.batches.len() {
            return None;
        }
        self.sums.first_concerned(product, span, chosen)
    }

    /// Whether the totals of each batch are those of the plain list.
    pub fn agrees(&self) -> bool {
        for (number, batch) in self.batches.iter().enumerate() {
            let Ok(number) = u32::try_from(number) else {
                return false;
            };
            if self.sums.totals(number) != plain_totals(&self.packs, number, &batch.limits) {
                return false;
            }
        }
        true
    }
}

// Corrects the tare of a product in a span of a plain list.
fn correct_plain(packs: &mut [PlainPack], product: u32, span: &Span, tare: i64) {
    for pack in packs {
        let before_end = match span.until {
            None => true,
            Some(until) => pack.day < until,
        };
        if pack.product == product && span.from <= pack.day && before_end {
            pack.tare = tare;
        }
    }
}

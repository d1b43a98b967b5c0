//! Asks that are mostly accepted: they lead one batch after the other from its opening to its
//! verdict, and sometimes ask for what comes too early or too late.

use crate::drawn_acts::{Draws, NOMINALS};
use annex_tables::Mode;
use book_words::{Act, Ask, BatchState, Entry, Name, Unit};
use plain_book::{
    Bounds, NoMemory, PlainBook, Sample, bounds_of, defectives, first_unmeasured, is_open,
    lane_batch, measured_count, newest_day, opening_of, pack_of, population, product_named,
    sample_of, state_of, tare_of_pack, tare_of_product, unsettled_of,
};
use std::alloc::Global;

// How many weighings each batch but the first gets.
const SIZES: [u32; 4] = [1, 6, 20, 45];

// In mg a litre.
const DENSITIES: [u32; 4] = [500_000, 917_431, 1_030_000, 2_000_000];

// In mg: the tare that each product begins with, and corrections.
const TARES: [i64; 6] = [10_000, 10_000, 10_001, 9_500, 19_000, 40_000];

// How many packs of a sample are to be defective, where there are many and where there are few.
const LOWS_OF_MANY: [u32; 8] = [0, 1, 2, 2, 2, 2, 2, 3];

const LOWS_OF_FEW: [u32; 8] = [0, 0, 0, 0, 1, 2, 3, 5];

// The least mass in mg that isn't below a quantity of a batch.
fn mass_of(bounds: &Bounds, quantity: i64) -> i64 {
    let exact = bounds.density.wrapping_mul(quantity);
    exact.wrapping_add(999_999) / 1_000_000
}

// The lane of some that has a batch, or 0.
fn lane_with(entries: &[Entry], batch: Name) -> u8 {
    for lane in 1..17 {
        if lane_batch(entries, lane) == Some(batch) {
            return lane;
        }
    }
    0
}

// The tare in mg of the product of a batch on the newest day.
fn tare_now(entries: &[Entry], batch: Name) -> Option<i64> {
    let product = opening_of(entries, batch)?.product;
    tare_of_product(entries, product, newest_day(entries)?)
}

impl Draws {
    // The quantity that is meant for a pack of a batch that runs. Where they don't lie round the
    // limits, a few are just above two errors below the nominal quantity.
    fn aim(&mut self, bounds: &Bounds) -> i64 {
        let near = self.quantity(2_000);
        let far = self.quantity(bounds.nominal);
        match self.below(32) {
            0 => bounds.t2.saturating_add(near % 400),
            _ if self.filling == 2 => bounds.t1.saturating_add(near % 400),
            _ if !self.rough => bounds.nominal.saturating_add(near),
            1..=4 => bounds.t1,
            5..=8 => bounds.t2,
            9..=16 => bounds.t1.saturating_add(near),
            _ => bounds.nominal.saturating_add(far),
        }
    }

    // A weighing on a lane of a batch that runs on it.
    fn weigh(&mut self, entries: &[Entry], lane: u8, batch: Name) -> Act {
        let tare = tare_now(entries, batch).unwrap_or(0);
        let around = self.quantity(3).saturating_sub(1);
        let mass = match bounds_of(entries, batch) {
            Some(bounds) => mass_of(&bounds, self.aim(&bounds)),
            None => 0,
        };
        Act::Weigh {
            lane,
            gross: mass.saturating_add(tare).saturating_add(around),
            prior: self.prior(entries, lane),
        }
    }

    // A weighing on a lane, or its start for a batch.
    fn on_lane(&mut self, entries: &[Entry], batch: Name) -> Act {
        let lane = if self.one_of(3) { 2 } else { 1 };
        match lane_batch(entries, lane) {
            Some(batch) if !self.one_of(20) => self.weigh(entries, lane, batch),
            _ => Act::StartLane { lane, batch },
        }
    }

    // Another tare for the product of a batch, most times for the newest day.
    fn correct(&mut self, entries: &[Entry], batch: Name) -> Act {
        let back = if self.one_of(4) { 1 } else { 0 };
        let day = newest_day(entries).unwrap_or(0).saturating_sub(back);
        let product = match opening_of(entries, batch) {
            Some(opening) => opening.product,
            None => batch,
        };
        Act::PutTare {
            product,
            day,
            tare: TARES[self.below(6)],
        }
    }

    // A void of a pack: of the unsettled one of a lane, or any.
    fn take_back(&mut self, entries: &[Entry]) -> Act {
        let any = self.row(entries);
        let unsettled = unsettled_of(entries, 1).unwrap_or(any);
        Act::Void {
            pack: if self.one_of(2) { unsettled } else { any },
        }
    }

    // What a product needs before a batch of it is opened, and then its opening.
    fn before_opening(&mut self, entries: &[Entry], batch: Name) -> Act {
        let name = self.names.products[self.place % 3];
        let day = newest_day(entries).unwrap_or(0);
        let Some(product) = product_named(entries, name) else {
            return Act::PutProduct {
                name,
                nominal: NOMINALS[self.below(12)],
                unit: self.unit(),
            };
        };
        if tare_of_product(entries, name, day).is_none() && !self.one_of(8) {
            return Act::PutTare {
                product: name,
                day,
                tare: 10_000,
            };
        }
        self.mean();
        let drawn = DENSITIES[self.below(4)];
        Act::OpenBatch {
            batch,
            product: name,
            density: match product.unit {
                Unit::Mass if !self.one_of(8) => 0,
                _ => drawn,
            },
        }
    }

    // Draws what is meant for the batch that comes next.
    fn mean(&mut self) {
        self.filling = self.below(4).saturating_sub(1);
        if self.place == 0 {
            self.left = self.many;
            self.rough = false;
            self.low = LOWS_OF_MANY[self.below(8)];
            self.second_low = self.low.saturating_add(u32::from(self.one_of(3)));
        } else {
            self.left = SIZES[self.below(4)];
            self.rough = self.one_of(2);
            self.low = LOWS_OF_FEW[self.below(8)];
        }
    }

    // Most times a weighing; sometimes a day, a void or another tare.
    fn next_weighing(&mut self, entries: &[Entry], batch: Name) -> Act {
        let has_tare = tare_now(entries, batch).is_some();
        match self.below(24) {
            0 | 1 if self.rough => self.correct(entries, batch),
            2 => {
                self.day = self.day.saturating_add(1);
                Act::NewDay { day: self.day }
            }
            3 => self.take_back(entries),
            4..=9 if !has_tare => self.correct(entries, batch),
            _ => self.on_lane(entries, batch),
        }
    }

    // A batch that runs is weighed so often as is meant, and then its lanes stop and it ends.
    fn while_running(&mut self, entries: &[Entry], batch: Name) -> Act {
        if self.left > 0 {
            self.left = self.left.saturating_sub(1);
            return self.next_weighing(entries, batch);
        }
        let lane = lane_with(entries, batch);
        if lane == 0 || self.one_of(8) {
            return Act::EndRun { batch };
        }
        Act::StopLane {
            lane,
            prior: self.prior(entries, lane),
        }
    }

    // A batch that has ended is drawn from, or closed where it is empty.
    fn when_ended(&mut self, batch: Name, is_empty: bool) -> Act {
        if is_empty != self.one_of(4) {
            return Act::Close { batch };
        }
        Act::Draw {
            batch,
            mode: self.mode(),
            word: self.number(),
        }
    }

    // The contents in mg that a pack of a sample is to have: defective, or as the batch is filled.
    fn contents(&mut self, bounds: &Bounds, is_low: bool) -> i64 {
        let error = bounds.nominal.saturating_sub(bounds.t1);
        let above = self.quantity(error);
        let least = mass_of(bounds, bounds.t1);
        if is_low {
            return least.saturating_sub(1);
        }
        match self.filling {
            0 => mass_of(bounds, bounds.nominal.saturating_add(above)),
            1 => mass_of(bounds, bounds.nominal.saturating_sub(error / 2))
                .saturating_add(above)
                .saturating_sub(error / 8),
            _ => least,
        }
    }

    // A measurement of a pack, which is to be defective or not.
    fn measure(
        &mut self,
        entries: &[Entry],
        bounds: &Bounds,
        mode: Mode,
        pack: u32,
        is_low: bool,
    ) -> Act {
        let contents = self.contents(bounds, is_low);
        let known = pack_of(entries, pack);
        let tare = match &known {
            Some(known) => tare_of_pack(entries, known).unwrap_or(0),
            None => 0,
        };
        let drawn = self.quantity(20_000);
        let empty = if mode == Mode::Keep { 0 } else { drawn };
        let around = if mode == Mode::Keep { tare } else { drawn };
        Act::Measure {
            pack,
            gross: contents.saturating_add(around),
            empty,
        }
    }

    // What the samples of a batch need next: measurements, a second draw, or the verdict.
    fn next_step(
        &mut self,
        entries: &[Entry],
        batch: Name,
        bounds: &Bounds,
        sample: &Sample,
    ) -> Act {
        let second = &sample.second;
        if let Some(pack) = first_unmeasured(entries, &sample.first) {
            let is_low = measured_count(entries, &sample.first) < self.low;
            return self.measure(entries, bounds, sample.mode, pack, is_low);
        }
        let (d1, _) = defectives(entries, bounds, sample);
        if !is_open(&sample.plan, d1) {
            return Act::Close { batch };
        }
        if let Some(pack) = first_unmeasured(entries, second) {
            let is_low = measured_count(entries, second) < self.second_low;
            return self.measure(entries, bounds, sample.mode, pack, is_low);
        }
        if sample.has_second || self.one_of(2) {
            return Act::Close { batch };
        }
        let word = self.number();
        Act::DrawSecond { batch, word }
    }

    // What comes too early or too late for a sample, or changes what it needs.
    fn odd_step(
        &mut self,
        entries: &[Entry],
        batch: Name,
        bounds: &Bounds,
        sample: &Sample,
    ) -> Act {
        let any = self.row(entries);
        let word = self.number();
        let place = self.below(20);
        let drawn = sample.first.get(place).copied().unwrap_or(0);
        let pack = u32::try_from(drawn).unwrap_or(0);
        match self.below(6) {
            0 => Act::DrawSecond { batch, word },
            1 => Act::Close { batch },
            2 => self.measure(entries, bounds, sample.mode, any, false),
            3 => self.correct(entries, batch),
            4 => Act::Measure {
                pack,
                gross: 0,
                empty: 1,
            },
            _ => self.measure(entries, bounds, sample.mode, pack, false),
        }
    }

    // A batch that was drawn from is measured and closed.
    fn when_drawn(&mut self, entries: &[Entry], batch: Name, sample: &Option<Sample>) -> Act {
        match (bounds_of(entries, batch), sample) {
            (Some(bounds), Some(sample)) if self.one_of(10) => {
                self.odd_step(entries, batch, &bounds, sample)
            }
            (Some(bounds), Some(sample)) => self.next_step(entries, batch, &bounds, sample),
            _ => Act::Close { batch },
        }
    }

    // Behind a verdict the tare is asked to change, and the next batch comes.
    fn when_closed(&mut self, entries: &[Entry], batch: Name) -> Act {
        if self.one_of(2) {
            self.place = (self.place % 7).saturating_add(1) % 7;
        }
        self.correct(entries, batch)
    }

    // The act that comes next.
    fn likely_act(&mut self, alloc: Global, entries: &[Entry]) -> Result<Act, NoMemory> {
        let batch = self.names.batches[self.place % 7];
        if newest_day(entries).is_none() {
            return Ok(Act::NewDay { day: self.day });
        }
        match state_of(entries, batch) {
            None => Ok(self.before_opening(entries, batch)),
            Some(BatchState::Running) => Ok(self.while_running(entries, batch)),
            Some(BatchState::Ended) => {
                let is_empty = population(alloc, entries, batch)?.is_empty();
                Ok(self.when_ended(batch, is_empty))
            }
            Some(BatchState::Drawn) => {
                let sample = sample_of(alloc, entries, batch)?;
                Ok(self.when_drawn(entries, batch, &sample))
            }
            Some(BatchState::Closed) => Ok(self.when_closed(entries, batch)),
        }
    }

    /// The next ask, for a book as it stands.
    pub fn ask(&mut self, alloc: Global, plain: &PlainBook) -> Result<Ask, NoMemory> {
        let entries = plain.entries();
        let any = self.any_act(entries);
        if entries.is_empty() && self.one_of(2) {
            return Ok(self.by_any_desk(entries, any));
        }
        match self.below(20) {
            0 => Ok(self.by_any_desk(entries, any)),
            1 => Ok(self.by_good_desk(entries, any)),
            2 | 3 => Ok(self.once_more(entries)),
            4 => Ok(self.any_question(entries)),
            _ => {
                let act = self.likely_act(alloc, entries)?;
                Ok(self.by_good_desk(entries, act))
            }
        }
    }
}

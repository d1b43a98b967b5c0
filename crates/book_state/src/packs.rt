ghost use Rattle.std.specs.Prelude.{◌≡◌, ◌≤◌, ◌≤ℤ◌, ◌==◌, pos, false, length, slice_get, None, Some, IfOk, IfSome, is_none, option_map};
ghost use Rattle.std.specs.Option.{option_and_then, option_map_or};
ghost use Rattle.annex_tables.specs.declared.TheConstants.{MAX_POPULATION};
ghost use Rattle.hall_limits.specs.declared.TheConstants.{MAX_GROSS, MAX_TARE};
ghost use Rattle.book_words.specs.declared.name.Name as names;
ghost use Rattle.book_words.specs.declared.act.Act.TheVariants as act;
ghost use Rattle.book_words.specs.declared.refusal.Refusal.TheVariants as refusal;
ghost use Rattle.book_words.specs.Acts as acts;
ghost use Rattle.book_words.specs.Tares.{tare_of_product};
ghost use Rattle.book_words.specs.Readings.{reading_of};
ghost use Rattle.book_words.specs.Population as population;
ghost use Rattle.book_words.specs.Piles.{pile_of};
ghost use Rattle.book_words.specs.Classes.{density_of_batch, limits_of_batch};
ghost use Rattle.book_words.specs.Refusals as rules;
ghost use Rattle.book_words.specs.Views.{numbers_after};
ghost use Rattle.book_words.specs.Answers.{IsLegal};
ghost use Rattle.book_index.specs.Listed as listed;
ghost use Rattle.book_packs.specs.Densities.{limits_at};
ghost use Rattle.book_packs.specs.Told.{piles_told};
ghost use Rattle.book_state.specs.Known as told;

use crate::state::State;
use crate::types::{KnownPack, NoMemory};
use annex_tables::Limits;
use batch_sums::{Pack, Piles, Totals};
use book_words::{Act, Name};
use hall_limits::MAX_LANE;
use pack_judge::Signal;
use std::alloc::Global;

impl State {
    /// The tare of a product on a day, in mg.
    pub fn tare(&self, product: &Name, day: i32) -> Option<i64>
        ensures value { result ≡ tare_of_product self.now.entries product.now day }
        ensures range { IfSome result (λ tare. (pos 0 ≤ℤ tare) × (tare ≤ℤ MAX_TARE)) }
    {
        let number = self.index.product_number(product)?;
        self.packs.tare(number, day)
    }

    /// The number of the unsettled reading of a lane.
    pub fn unsettled(&self, lane: u8) -> Option<u32>
        ensures { result ≡ option_map (λ reading. reading.number)
            (population.unsettled_reading self.now.entries lane) }
    {
        let _ = &self.packs; // so that what is known of it is known at both ends
        if !is_lane(lane) {
            return None;
        }
        self.packs.unsettled(lane)
    }

    /// What is known of the pack of a number; `None` exactly where there is no such pack.
    pub fn pack(&self, number: u32) -> Option<KnownPack>
        ensures value { result ≡ told.known_pack self.now.entries number }
        ensures legal { IsLegal self.now.entries }
        ensures there { is_none result ≡ is_none (reading_of self.now.entries number) }
        ensures batch { option_map (λ pack. pack.batch) result
            ≡ rules.batch_of_pack self.now.entries number }
        ensures pile { option_map (λ pack. pack.pile) result
            ≡ option_map (pile_of self.now.entries) (reading_of self.now.entries number) }
        ensures gross { IfSome result (λ pack.
            (pos 0 ≤ℤ pack.gross) × (pack.gross ≤ℤ MAX_GROSS)) }
        ensures tare { IfSome result (λ pack.
            (pos 0 ≤ℤ pack.tare) × (pack.tare ≤ℤ MAX_TARE)) }
    {
        let pack = self.packs.pack(number);
        let batch = self.batch_of(pack);
        put_together(pack, batch, self.lane_of_pack(number), self.signal(number))
    }

    // The name of the batch of a pack.
    fn batch_of(&self, pack: Option<Pack>) -> Option<Name>
        ensures { result ≡ option_and_then
            (λ pack. slice_get (acts.said acts.batch_opened self.now.entries) pack.batch) pack }
    {
        let number = pack?.batch;
        self.index.batch_name(number)
    }

    // The lane on which the pack of a number was weighed.
    fn lane_of_pack(&self, number: u32) -> Option<u8>
        ensures { result
            ≡ option_map (λ reading. reading.lane) (reading_of self.now.entries number) }
    {
        let entry = self.entry(number)?;
        lane_weighed(&entry.act)
    }

    // The signal of the entry of a number.
    fn signal(&self, number: u32) -> Option<Signal>
        ensures { result ≡ option_and_then (λ entry. entry.signal)
            (told.entry_numbered self.now.entries number) }
    {
        self.entry(number)?.signal
    }

    /// Whether the pack of a number is the unsettled reading of its lane: the lane, where it is.
    pub fn unsettled_lane(&self, number: u32) -> Option<u8>
        ensures { option_map (λ lane. refusal.Unsettled lane) result
            ≡ rules.unsettled self.now.entries number }
    {
        let lane = self.lane_of_pack(number)?;
        if is_number(self.unsettled(lane), number) {
            Some(lane)
        } else {
            None
        }
    }

    /// The limits of a batch in mg: those of its product's nominal quantity, at the density of the
    /// batch.
    pub fn limits(&self, batch: &Name) -> Option<Limits>
        ensures { result ≡ option_map
            (λ product. limits_at (density_of_batch self.now.entries batch.now)
            (limits_of_batch self.now.entries batch.now))
            (acts.product_of self.now.entries batch.now) }
    {
        let number = self.index.batch_number(batch)?;
        Some(self.packs.limits(number))
    }

    /// The totals of a batch. It takes no memory and no walk.
    pub fn totals(&self, batch: &Name) -> Option<Totals>
        ensures value { result ≡ told.totals_of_batch self.now.entries batch.now }
        ensures few { IfSome result (λ totals. (totals.population ≤ MAX_POPULATION)
            × (totals.nonstandard ≤ totals.population)
            × (totals.inadequate ≤ totals.nonstandard)) }
    {
        let number = self.index.batch_number(batch)?;
        Some(self.packs.totals(number))
    }

    /// How many packs the population of a batch has; none where there is no such batch.
    pub fn population_count(&self, batch: &Name) -> u32
        ensures { result ≡ length (population.population self.now.entries batch.now) }
    {
        match self.index.batch_number(batch) {
            Some(number) => self.packs.totals(number).population,
            None => 0,
        }
    }

    /// The numbers above `after` of the readings of a batch, at most a page of them; none where
    /// there is no such batch. It takes memory for them alone.
    pub fn packs_after(&self, alloc: Global, batch: &Name, after: u32) -> Result<Vec<u32>, NoMemory>
        ensures { IfOk result (λ numbers.
            numbers.items ≡ numbers_after self.now.entries batch.now after) }
    {
        match self.index.batch_number(batch) {
            Some(number) => self.packs.packs_after(alloc, number, after),
            None => Ok(Vec::new(alloc)),
        }
    }

    /// The tallies of the four piles of the whole hall. It takes no memory and no walk.
    pub fn piles(&self) -> Piles
        ensures { result ≡ piles_told self.now.entries }
    {
        self.packs.piles()
    }

    /// The first closed batch, in order of opening, of which a tare gives a reading another one.
    pub fn frozen(&self, product: &Name, day: i32, tare: i64) -> Option<Name>
        ensures { result ≡ told.frozen_batch self.now.entries (act.PutTare product.now day tare) }
    {
        let number = self.index.product_number(product)?;
        let batch = self.packs.frozen(number, day, tare, self.index.closed())?;
        self.index.batch_name(batch)
    }
}

// Whether a number is that of a lane.
fn is_lane(lane: u8) -> bool
    ensures { result ≡ listed.is_lane lane }
{
    lane >= 1 && lane <= MAX_LANE
}

// A pack, its batch, its lane and its signal together, where all of them are there.
fn put_together(
    pack: Option<Pack>,
    batch: Option<Name>,
    lane: Option<u8>,
    signal: Option<Signal>,
) -> Option<KnownPack>
    ensures { result ≡ told.put_together pack batch lane signal }
{
    let pack = pack?;
    Some(KnownPack {
        batch: batch?,
        lane: lane?,
        day: pack.day,
        gross: pack.gross,
        tare: pack.tare,
        signal: signal?,
        pile: pack.pile,
    })
}

// The lane on which an act weighs a pack.
fn lane_weighed(act: &Act) -> Option<u8>
    ensures { result ≡ told.lane_weighed act.now }
{
    match act {
        Act::Weigh { lane, .. } => Some(*lane),
        _ => None,
    }
}

// Whether a number is there, and is this one.
fn is_number(found: Option<u32>, number: u32) -> bool
    ensures { result ≡ option_map_or (λ other. other == number) found false }
{
    match found {
        Some(other) => other == number,
        None => false,
    }
}

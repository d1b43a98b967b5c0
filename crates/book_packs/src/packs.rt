ghost use Rattle.std.specs.Prelude.{◌≡◌, ℕ, ℤ, List, [], length, ◌<◌, ◌≤◌, IfOk, IsOk, OnOk, Option, Some, ◌++◌, ◌∷◌, ◌+◌, ◌*◌};
ghost use Rattle.std.specs.List.Sorted.{IsStrictlyIncreasing};
ghost use Rattle.book_words.specs.declared.name.Name.{Name};
ghost use Rattle.book_words.specs.declared.act.Entry.{Entry};
ghost use Rattle.book_words.specs.declared.act.Act.TheVariants.{PutTare, Weigh};
ghost use Rattle.book_words.specs.Answers.{IsLegal};
ghost use Rattle.book_words.specs.Order.{product_number, batch_number};
ghost use Rattle.book_words.specs.Tares.{tare_of_product};
ghost use Rattle.book_words.specs.Population.{population};
ghost use Rattle.book_words.specs.Samples.{numbers_of};
ghost use Rattle.book_words.specs.Views.{numbers_after};
ghost use Rattle.book_packs.specs.Stand.{IsPacksOf, limits_told, unsettled_number};
ghost use Rattle.book_packs.specs.Entering.{IsWeighing, IsStop, IsVoid, IsDraw, MayDraw, IsTarePut, IsOpening, MayPutTare, MayWeigh, MayStop, MayVoid, newly_unsettled};
ghost use Rattle.batch_sums.specs.Changes.{concerned, group_count, HasFewPerGroup};
ghost use Rattle.tare_register.specs.Tares.{span_of};
ghost use Rattle.book_packs.specs.Told.{pack_told, totals_told, piles_told, met_at, closed_in, frozen_told};

use crate::settling::{leaving, met_less, sample, settle, signal_pile};
use crate::types::{AtWeighing, NoMemory, Weighing};
use annex_tables::Limits;
use batch_sums::{BatchSums, Pack, Piles, STEPS_PER_GROUP, Steps, Totals};
use book_words::{MAX_PAGE, Prior};
use hall_limits::MAX_LANE;
use pack_judge::{Pile, Signal};
use std::alloc::Global;
use std::marker::Model;
use std::sync::ledger::Ledger;
use tare_register::Tares;

/// How many lanes there are.
pub const LANES: usize = MAX_LANE as usize;

/// The tares, the packs with their piles and running sums, and the unsettled readings, of a list of
/// entries that is kept elsewhere. Products and batches are given by their numbers: their places in
/// the order in which they were entered, from 0.
pub struct Packs {
    tares: Tares,
    sums: BatchSums,
    unsettled: [Option<u32>; LANES],
}

// By hand, so that letting one go is one call, where a derived drop is spelled at each exit.
impl Drop for Packs {
    fn drop(self) {
        let Self {
            tares: _,
            sums: _,
            unsettled: _,
        } = self;
    }
}

impl Model for Packs {
    ghost use Rattle.std.specs.Prelude.{length, ◌≡◌, min};
    ghost use Rattle.hall_limits.specs.declared.TheConstants.{MAX_LANE};
    ghost use Rattle.book_packs.specs.Stand.{Standing};

    ghost Value = { Standing };

    ghost view = { λ p. record {
      tares = p.tares.entries;
      batches = p.sums.batches;
      packs = p.sums.packs;
      unsettled = p.unsettled;
      spare = min p.tares.spare p.sums.spare;
    } };

    ghost invariant = { λ p. length p.unsettled ≡ MAX_LANE };
}

impl Packs {
    /// Nothing is kept yet. It takes no memory.
    pub fn new(alloc: Global) -> Packs
        ensures { IsPacksOf [] result }
    {
        Packs {
            tares: Tares::new(alloc),
            sums: BatchSums::new(alloc),
            unsettled: [None; LANES],
        }
    }

    /// The tare of a product on a day, in mg; `None` where there is none.
    pub fn tare(&self, product: u32, day: i32) -> Option<i64>
        ensures { (entries : List Entry) (name : Name) → IsPacksOf entries self.now
            → product_number entries name ≡ Some product
            → result ≡ tare_of_product entries name day }
    {
        self.tares.at(product, day)
    }

    /// The pack of a reading's number; `None` exactly where no reading has it.
    pub fn pack(&self, number: u32) -> Option<Pack>
        ensures { (entries : List Entry) → IsPacksOf entries self.now
            → result ≡ pack_told entries number }
    {
        self.sums.pack(number)
    }

    /// The number of the unsettled reading of a lane, where it has one.
    pub fn unsettled(&self, lane: u8) -> Option<u32>
        requires least { 1 ≤ lane }
        requires greatest { lane ≤ MAX_LANE }
        ensures { (entries : List Entry) → IsPacksOf entries self.now
            → result ≡ unsettled_number entries lane }
    {
        self.unsettled[lane as usize - 1]
    }

    /// The totals of a batch. It takes no memory and no walk.
    pub fn totals(&self, batch: u32) -> Totals
        requires { batch < length self.now.batches }
        ensures { (entries : List Entry) (name : Name) → IsPacksOf entries self.now
            → IsLegal entries → batch_number entries name ≡ Some batch
            → result ≡ totals_told entries name }
    {
        self.sums.totals(batch)
    }

    /// The limits of a batch in mg, at its density. It takes no memory and no walk.
    pub fn limits(&self, batch: u32) -> Limits
        requires { batch < length self.now.batches }
        ensures { (entries : List Entry) (name : Name) → IsPacksOf entries self.now
            → batch_number entries name ≡ Some batch → result ≡ limits_told entries name }
    {
        self.sums.limits(batch)
    }

    /// What a weighing of a lane finds in a batch: the population as the act leaves it, by what it
    /// says of the gate at the lane's unsettled reading, before its own pack. It takes no memory
    /// and no walk.
    pub fn totals_at(&self, lane: u8, prior: Prior, batch: u32) -> AtWeighing
        requires least { 1 ≤ lane }
        requires greatest { lane ≤ MAX_LANE }
        requires batch { batch < length self.now.batches }
        ensures { (entries : List Entry) (name : Name) (gross : ℤ) → IsPacksOf entries self.now
            → IsLegal entries → batch_number entries name ≡ Some batch
            → result ≡ met_at entries (Weigh lane gross prior) name }
    {
        let totals = self.sums.totals(batch);
        let limits = self.sums.limits(batch);
        let leaving = leaving(&self.sums, self.unsettled[lane as usize - 1], prior);
        met_less(&totals, &limits, batch, leaving)
    }

    /// The number of the first closed batch, in the order of opening, of which a tare of a product
    /// from a day on would change a net; `None` where there is none. `closed` has a flag for each
    /// batch. It takes no memory. Of the batches of the product on each day that the tare decides, by
    /// their rising numbers, it looks at those up to the first closed one.
    pub fn frozen(&self, product: u32, day: i32, tare: i64, closed: &[bool]) -> Option<u32>
        requires { length closed.now ≡ length self.now.batches }
        ensures { (entries : List Entry) (name : Name) → IsPacksOf entries self.now
            → IsLegal entries → product_number entries name ≡ Some product
            → closed.now ≡ closed_in entries
            → result ≡ frozen_told entries (PutTare name day tare) }
    {
        let span = self.tares.span(product, day);
        if self.tares.at(product, day) == Some(tare) {
            return None;
        }
        self.sums.first_concerned(product, &span, closed)
    }

    /// The tallies of the four piles of the whole hall. It takes no memory and no walk.
    pub fn piles(&self) -> Piles
        ensures { (entries : List Entry) → IsPacksOf entries self.now
            → result ≡ piles_told entries }
    {
        self.sums.piles()
    }

    /// The numbers of the packs in the population of a batch, in the order in which they were
    /// weighed. It takes memory for them alone.
    pub fn population(&self, alloc: Global, batch: u32) -> Result<Vec<u64>, NoMemory>
        requires { batch < length self.now.batches }
        ensures exact { (entries : List Entry) (name : Name) → IsPacksOf entries self.now
            → IsLegal entries → batch_number entries name ≡ Some batch
            → IfOk result (λ packs. packs.items ≡ numbers_of (population entries name)) }
        ensures ascending { (entries : List Entry) (name : Name) → IsPacksOf entries self.now
            → IsLegal entries → batch_number entries name ≡ Some batch
            → IfOk result (λ packs. IsStrictlyIncreasing packs.items) }
    {
        self.sums.population(alloc, batch)
    }

    /// The numbers above `after` of the readings of a batch, at most a page of them, in the order
    /// in which they were weighed. It takes memory for them alone.
    pub fn packs_after(&self, alloc: Global, batch: u32, after: u32) -> Result<Vec<u32>, NoMemory>
        requires { batch < length self.now.batches }
        ensures { (entries : List Entry) (name : Name) → IsPacksOf entries self.now
            → IsLegal entries → batch_number entries name ≡ Some batch
            → IfOk result (λ numbers. numbers.items ≡ numbers_after entries name after) }
    {
        self.sums.packs_after(alloc, batch, after, MAX_PAGE)
    }

    /// Reserves room for `more` further acts; where there is room, nothing is done. While there is
    /// room, no change takes memory, and none can fail.
    pub fn reserve(&mut self, more: u32) -> Result<(), NoMemory>
        ensures ok { OnOk result (more ≤ self.new.spare) }
        ensures room { more ≤ self.old.spare → IsOk result }
        ensures spare { self.old.spare ≤ self.new.spare }
        ensures kept { (entries : List Entry) → IsPacksOf entries self.old
            → IsPacksOf entries self.new }
    {
        self.tares.reserve(more)?;
        self.sums.reserve(more)?;
        Ok(())
    }

    /// Takes down a weighing: the lane's unsettled reading is settled by what is said of the gate,
    /// and the pack is added to the pile of its signal.
    pub fn weigh(&mut self, weighing: &Weighing)
        requires room { 0 < self.old.spare }
        requires next { MayWeigh self.old weighing.now }
        ensures spare { self.old.spare ≤ self.new.spare + 1 }
        ensures kept { (entries : List Entry) (entry : Entry) → IsPacksOf entries self.old
            → IsWeighing entries entry weighing.now → IsPacksOf (entries ++ entry ∷ []) self.new }
    {
        let place = weighing.lane as usize - 1;
        settle(&mut self.sums, self.unsettled[place], weighing.prior);
        let added = self.sums.add(
            weighing.batch,
            weighing.number,
            weighing.day,
            weighing.gross,
            weighing.tare,
            signal_pile(weighing.signal),
        );
        let Ok(()) = added else { unreachable!() };
        self.unsettled[place] = newly_unsettled(weighing);
    }

    /// Takes down a stop of a lane, which settles its unsettled reading.
    pub fn stop(&mut self, lane: u8, prior: Prior)
        requires next { MayStop self.old lane prior }
        ensures spare { self.new.spare ≡ self.old.spare }
        ensures kept { (entries : List Entry) (entry : Entry) → IsPacksOf entries self.old
            → IsStop entries entry lane prior → IsPacksOf (entries ++ entry ∷ []) self.new }
    {
        let place = lane as usize - 1;
        settle(&mut self.sums, self.unsettled[place], prior);
        self.unsettled[place] = None;
    }

    /// Takes down that a pack is taken back.
    pub fn void(&mut self, pack: u32)
        requires next { MayVoid self.old pack }
        ensures spare { self.new.spare ≡ self.old.spare }
        ensures kept { (entries : List Entry) (entry : Entry) → IsPacksOf entries self.old
            → IsVoid entries entry pack → IsPacksOf (entries ++ entry ∷ []) self.new }
    {
        self.sums.shift(pack, Pile::Voided);
    }

    /// Takes down that packs of the batch of a number are drawn for a sample.
    pub fn draw(&mut self, batch: u32, picks: &[u64])
        requires next { MayDraw self.old batch picks.now }
        ensures spare { self.new.spare ≡ self.old.spare }
        ensures kept { (entries : List Entry) (entry : Entry) → IsPacksOf entries self.old
            → IsDraw entries entry batch picks.now → IsPacksOf (entries ++ entry ∷ []) self.new }
    {
        sample(&mut self.sums, batch, picks);
    }

    /// Takes down that a batch is opened, of the product of a number, with its limits in mg.
    pub fn open_batch(&mut self, product: u32, limits: &Limits)
        requires room { 0 < self.old.spare }
        ensures spare { self.old.spare ≤ self.new.spare + 1 }
        ensures kept { (entries : List Entry) (entry : Entry) → IsPacksOf entries self.old
            → IsOpening entries entry product limits.now
            → IsPacksOf (entries ++ entry ∷ []) self.new }
    {
        let added = self.sums.add_batch(product, *limits);
        let Ok(_) = added else { unreachable!() };
    }

    /// Takes down a tare of the product of a number, from a day on, in mg. The packs on the days
    /// that it decides get it, by groups: at most 40 steps for each batch and day of these packs.
    pub fn put_tare<L: Ledger>(&mut self, product: u32, day: i32, tare: i64, steps: &mut Steps<L>)
        requires room { 0 < self.old.spare }
        requires next { MayPutTare self.old product day tare }
        ensures spare { self.old.spare ≤ self.new.spare + 1 }
        ensures kept { (entries : List Entry) (entry : Entry) → IsPacksOf entries self.old
            → IsTarePut entries entry product day tare
            → IsPacksOf (entries ++ entry ∷ []) self.new }
        ensures cost { HasFewPerGroup self.old.packs
            → steps.new ≤ steps.old + STEPS_PER_GROUP * group_count
            (concerned self.old.batches product (span_of self.old.tares product day)
            self.old.packs) }
    {
        let span = self.tares.span(product, day);
        let put = self.tares.put(product, day, tare);
        let Ok(()) = put else { unreachable!() };
        self.sums.rejudge(product, span, tare, steps);
    }
}

// The number of a weighing's pack, where its reading is unsettled.
fn newly_unsettled(weighing: &Weighing) -> Option<u32>
    ensures { result ≡ newly_unsettled weighing.now }
{
    match weighing.signal {
        Signal::Pass => Some(weighing.number),
        Signal::Reject(_) => None,
    }
}

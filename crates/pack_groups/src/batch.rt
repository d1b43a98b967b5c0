ghost use Rattle.std.specs.Prelude.{◌-◌, ◌^◌, ◌≡◌, pos, length, ◌+◌, ◌<◌, ◌≤◌, ◌≤ℤ◌};
ghost use Rattle.pack_groups.specs.Population.{is_counted};
ghost use Rattle.pack_groups.specs.Running.{sum_in, pile_sum, CountsOneMore, WeighsMore, shown_tallies, IsEntered, HasRoom, Covers, HasShare, IsCorrected, IsBounded, shown};
ghost use Rattle.pack_groups.specs.Groups.{IsJudged, face_of};
ghost use Rattle.pack_judge.specs.declared.types.Pile.{Pile};

use crate::group::{Group, count_one, least_grosses};
use crate::steps::Steps;
use crate::types::{Piles, Totals};
use annex_tables::{Limits, MAX_POPULATION};
use hall_limits::MAX_TARE;
use pack_judge::{Pile, Tally};
use std::sync::ledger::Ledger;

/// How many packs each pile has.
#[derive(Clone, Copy)]
pub struct PileCounts {
    pub passed: u32,
    pub rejected: u32,
    pub sampled: u32,
    pub voided: u32,
}

/// The sum of the grosses of each pile's packs, in mg.
#[derive(Clone, Copy)]
pub struct PileGrosses {
    pub passed: u64,
    pub rejected: u64,
    pub sampled: u64,
    pub voided: u64,
}

/// The sums of some packs, a pile each. Counts and grosses lie apart, so that no room is lost
/// between them.
#[derive(Clone, Copy)]
pub struct PileSums {
    pub counts: PileCounts,
    pub grosses: PileGrosses,
}

/// A batch and the sums of its packs. All masses are in mg. Numbers of four bytes lie in pairs, so
/// that no room is lost between fields.
#[derive(Clone, Copy)]
pub struct Batch {
    pub product: u32,
    /// How many packs of all batches there were when its newest one had been added: 0 where it has
    /// none.
    pub reach: u32,
    pub limits: Limits,
    pub piles: PileSums,
    /// The sum of the tares of the population.
    pub tares: u64,
    /// How many packs of the population have a net below `t1`, inadequate ones among them.
    pub nonstandard: u32,
    /// How many packs of the population have a net below `t2`.
    pub inadequate: u32,
}

/// Whether a pack of this pile counts for the population.
pub fn counts_for_population(pile: Pile) -> bool
    ensures { result ≡ is_counted pile }
{
    match pile {
        Pile::Passed | Pile::Sampled => true,
        Pile::Rejected | Pile::Voided => false,
    }
}

// The number of packs of a pile and the sum of their grosses in mg.
fn tally_of(count: u32, gross: u64) -> Tally
    requires { gross < 2 ^ 63 }
    ensures { result ≡ record { count = count; gross = pos gross } }
{
    Tally {
        count,
        gross: gross as i64,
    }
}

// A pack comes into a pile.
fn come(packs: &mut u32, sum: &mut u64, gross: u32)
    requires count { packs.old < 2 ^ 32 - 1 }
    requires gross { sum.old < 2 ^ 63 }
    ensures count { packs.new ≡ packs.old + 1 }
    ensures gross { sum.new ≡ sum.old + gross }
{
    *packs += 1;
    *sum += gross as u64;
}

// A pack goes out of a pile.
fn go(packs: &mut u32, sum: &mut u64, gross: u32)
    requires count { 0 < packs.old }
    requires gross { gross ≤ sum.old }
    ensures count { packs.new + 1 ≡ packs.old }
    ensures gross { sum.new + gross ≡ sum.old }
{
    *packs -= 1;
    *sum -= gross as u64;
}

impl PileSums {
    /// The sums of no packs.
    pub fn new() -> PileSums
        ensures { (pile : Pile) → sum_in result pile ≡ record { count = 0; gross = 0 } }
    {
        PileSums {
            counts: PileCounts {
                passed: 0,
                rejected: 0,
                sampled: 0,
                voided: 0,
            },
            grosses: PileGrosses {
                passed: 0,
                rejected: 0,
                sampled: 0,
                voided: 0,
            },
        }
    }

    /// A pack of this pile and gross in mg comes in.
    pub fn enter(&mut self, pile: Pile, gross: u32)
        requires count { (sum_in self.old pile).count < 2 ^ 32 - 1 }
        requires gross { (sum_in self.old pile).gross < 2 ^ 63 }
        ensures count { CountsOneMore self.old self.new pile }
        ensures gross { WeighsMore self.old self.new pile gross }
    {
        let (counts, grosses) = (&mut self.counts, &mut self.grosses);
        match pile {
            Pile::Passed => come(&mut counts.passed, &mut grosses.passed, gross),
            Pile::Rejected => come(&mut counts.rejected, &mut grosses.rejected, gross),
            Pile::Sampled => come(&mut counts.sampled, &mut grosses.sampled, gross),
            Pile::Voided => come(&mut counts.voided, &mut grosses.voided, gross),
        }
    }

    /// A pack of this pile and gross in mg goes out.
    pub fn leave(&mut self, pile: Pile, gross: u32)
        requires count { 0 < (sum_in self.old pile).count }
        requires gross { gross ≤ (sum_in self.old pile).gross }
        ensures count { CountsOneMore self.new self.old pile }
        ensures gross { WeighsMore self.new self.old pile gross }
    {
        let (counts, grosses) = (&mut self.counts, &mut self.grosses);
        match pile {
            Pile::Passed => go(&mut counts.passed, &mut grosses.passed, gross),
            Pile::Rejected => go(&mut counts.rejected, &mut grosses.rejected, gross),
            Pile::Sampled => go(&mut counts.sampled, &mut grosses.sampled, gross),
            Pile::Voided => go(&mut counts.voided, &mut grosses.voided, gross),
        }
    }

    /// How many of the packs don't count for the population.
    pub fn left_out(&self) -> u32
        requires { self.now.counts.rejected + self.now.counts.voided < 2 ^ 32 }
        ensures { result ≡ self.now.counts.rejected + self.now.counts.voided }
    {
        self.counts.rejected + self.counts.voided
    }

    /// The tallies of the packs, a pile each.
    pub fn tallies(&self) -> Piles
        requires { (pile : Pile) → (sum_in self.now pile).gross < 2 ^ 63 }
        ensures { result ≡ shown_tallies self.now }
    {
        Piles {
            passed: tally_of(self.counts.passed, self.grosses.passed),
            rejected: tally_of(self.counts.rejected, self.grosses.rejected),
            sampled: tally_of(self.counts.sampled, self.grosses.sampled),
            voided: tally_of(self.counts.voided, self.grosses.voided),
        }
    }
}

impl Batch {
    /// A batch without packs.
    pub fn new(product: u32, limits: &Limits) -> Batch
        ensures product { result.product ≡ product }
        ensures limits { result.limits ≡ limits.now }
        ensures reach { result.reach ≡ 0 }
        ensures piles { (pile : Pile) → pile_sum result pile ≡ record { count = 0; gross = 0 } }
        ensures tares { result.tares ≡ 0 }
        ensures nonstandard { result.nonstandard ≡ 0 }
        ensures inadequate { result.inadequate ≡ 0 }
    {
        Batch {
            product,
            reach: 0,
            limits: *limits,
            piles: PileSums::new(),
            tares: 0,
            nonstandard: 0,
            inadequate: 0,
        }
    }

    /// How many packs count for the population.
    pub fn population(&self) -> u32
        requires { self.now.piles.counts.passed + self.now.piles.counts.sampled < 2 ^ 32 }
        ensures { result ≡ self.now.piles.counts.passed + self.now.piles.counts.sampled }
    {
        self.piles.counts.passed + self.piles.counts.sampled
    }

    /// The totals of the batch.
    pub fn totals(&self) -> Totals
        requires { IsBounded self.now }
        ensures { result ≡ shown self.now }
    {
        let PileSums { counts, grosses } = self.piles;
        Totals {
            passed: tally_of(counts.passed, grosses.passed),
            rejected: tally_of(counts.rejected, grosses.rejected),
            sampled: tally_of(counts.sampled, grosses.sampled),
            voided: tally_of(counts.voided, grosses.voided),
            population: self.population(),
            net: (grosses.passed + grosses.sampled) as i64 - self.tares as i64,
            nonstandard: self.nonstandard,
            inadequate: self.inadequate,
        }
    }

    /// A pack of this pile, gross and tare, both in mg, comes into the batch.
    pub fn enter(&mut self, pile: Pile, gross: u32, tare: u32)
        requires tare { pos tare ≤ℤ MAX_TARE }
        requires room { HasRoom self.old pile }
        ensures entered { IsEntered self.old self.new pile gross tare }
        ensures reach { self.new.reach ≡ self.old.reach }
    {
        if counts_for_population(pile) {
            let least = least_grosses(&self.limits, tare);
            self.tares += tare as u64;
            self.nonstandard += count_one(gross, least.standard);
            self.inadequate += count_one(gross, least.adequate);
        }
        self.piles.enter(pile, gross);
    }

    /// A pack of this pile, gross and tare, both in mg, goes out of the batch.
    pub fn leave(&mut self, pile: Pile, gross: u32, tare: u32)
        requires tare { pos tare ≤ℤ MAX_TARE }
        requires covered { Covers self.old pile gross tare }
        ensures entered { IsEntered self.new self.old pile gross tare }
        ensures reach { self.new.reach ≡ self.old.reach }
    {
        if counts_for_population(pile) {
            let least = least_grosses(&self.limits, tare);
            self.tares -= tare as u64;
            self.nonstandard -= count_one(gross, least.standard);
            self.inadequate -= count_one(gross, least.adequate);
        }
        self.piles.leave(pile, gross);
    }

    /// The packs of one of the batch's groups have this tare in mg from now on.
    pub fn correct<L: Ledger>(&mut self, group: &mut Group, tare: u32, steps: &mut Steps<L>)
        requires tare { pos tare ≤ℤ MAX_TARE }
        requires share { HasShare self.old group.old }
        ensures judged { IsJudged self.old.limits group.new }
        ensures face { face_of group.new ≡ record { key = group.old.key; tare = tare } }
        ensures grosses { group.new.grosses ≡ group.old.grosses }
        ensures corrected { IsCorrected self.old self.new group.old group.new }
        ensures reach { self.new.reach ≡ self.old.reach }
        ensures cost { length group.old.grosses ≤ MAX_POPULATION → steps.new ≤ steps.old + 36 }
    {
        let count = group.grosses.count() as u64;
        self.tares -= count * group.tare as u64;
        self.nonstandard -= group.nonstandard;
        self.inadequate -= group.inadequate;
        group.correct(&self.limits, tare, steps);
        self.tares += count * group.tare as u64;
        self.nonstandard += group.nonstandard;
        self.inadequate += group.inadequate;
    }
}

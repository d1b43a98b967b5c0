ghost use Rattle.std.specs.Prelude.{◌≡◌, ℕ, pos, ◌+◌, ◌^◌, ◌<◌, ◌≤◌, ◌≤ℤ◌, ◌==◌, int_lt, nat_lt, count_by, length, vec_len, vec_capacity, true, [], if◌then◌else◌};
ghost use Rattle.pack_groups.specs.Rising.{mass_of, HasOneMore, HasMoreIf};
ghost use Rattle.pack_groups.specs.Groups.{rank_of, threshold, IsJudged, face_of};
ghost use Rattle.pack_groups.specs.Population.{is_counted};

use crate::batch::counts_for_population;
use crate::grosses::{Gross, Grosses};
use crate::steps::Steps;
use annex_tables::{Limits, MAX_POPULATION};
use balanced_tree::Node;
use hall_limits::{MAX_GROSS, MAX_TARE};
use pack_judge::Pile;
use std::sync::ledger::Ledger;

/// What a group is found by. The groups of a product stand together, those of a day within it, and
/// in these the batches.
#[derive(Clone, Copy)]
pub struct Key {
    pub product: u32,
    /// In days since 1970-01-01.
    pub day: u32,
    pub batch: u32,
}

impl Key {
    /// Whether this key stands before another.
    pub fn is_before(&self, other: &Key) -> bool
        ensures { result ≡ nat_lt (rank_of self.now) (rank_of other.now) }
    {
        let (mine, its) = (*self, *other);
        if mine.product != its.product {
            return mine.product < its.product;
        }
        if mine.day != its.day {
            return mine.day < its.day;
        }
        mine.batch < its.batch
    }

    /// Whether this key is the same as another.
    pub fn is_same(&self, other: &Key) -> bool
        ensures rank { result ≡ (rank_of self.now == rank_of other.now) }
        ensures same { result ≡ true → self.now ≡ other.now }
    {
        let (mine, its) = (*self, *other);
        mine.product == its.product && mine.day == its.day && mine.batch == its.batch
    }
}

/// The packs of one batch on one day, which share their tare.
#[derive(Drop)]
pub struct Group {
    pub key: Key,
    /// In mg.
    pub tare: u32,
    /// The grosses of the packs that count for the population.
    pub grosses: Grosses,
    /// How many of them have a net below the first limit of the batch.
    pub nonstandard: u32,
    /// How many of them have a net below the second.
    pub inadequate: u32,
}

// The least gross in mg whose net isn't below a limit in mg, among those that a pack may have; one
// more where there is none.
fn least_gross(limit: i64, tare: u32) -> u32
    requires { pos tare ≤ℤ MAX_TARE }
    ensures { result ≡ threshold limit tare }
{
    if limit > MAX_GROSS {
        return MAX_GROSS as u32 + 1;
    }
    let least = limit + tare as i64;
    if least < 0 { 0 } else { least as u32 }
}

/// The least grosses in mg that two limits of a batch let stand, at a tare.
#[derive(Clone, Copy)]
pub struct LeastGrosses {
    // Whose net isn't below `t1`.
    pub standard: u32,
    // Whose net isn't below `t2`.
    pub adequate: u32,
}

/// The least grosses that the limits let stand, at a tare in mg.
pub fn least_grosses(limits: &Limits, tare: u32) -> LeastGrosses
    requires { pos tare ≤ℤ MAX_TARE }
    ensures standard { result.standard ≡ threshold limits.now.t1 tare }
    ensures adequate { result.adequate ≡ threshold limits.now.t2 tare }
{
    LeastGrosses {
        standard: least_gross(limits.t1, tare),
        adequate: least_gross(limits.t2, tare),
    }
}

/// 1 for a gross that is below a limit, both in mg, and else 0.
pub fn count_one(gross: u32, limit: u32) -> u32
    ensures { result ≡ (if nat_lt gross limit then 1 else 0) }
{
    if gross < limit { 1 } else { 0 }
}

impl Group {
    /// A group without packs, with a tare in mg.
    pub fn new(key: Key, tare: u32) -> Group
        ensures key { result.key ≡ key }
        ensures tare { result.tare ≡ tare }
        ensures grosses { result.grosses ≡ [] }
        ensures nonstandard { result.nonstandard ≡ 0 }
        ensures inadequate { result.inadequate ≡ 0 }
    {
        Group {
            key,
            tare,
            grosses: Grosses::new(),
            nonstandard: 0,
            inadequate: 0,
        }
    }

    // A gross in mg joins those of the population.
    fn take_in(&mut self, limits: &Limits, gross: u32, node: Box<Node<Gross>>)
        requires tare { pos self.old.tare ≤ℤ MAX_TARE }
        requires few { length self.old.grosses + 1 < 2 ^ 32 }
        requires judged { IsJudged limits.now self.old }
        ensures judged { IsJudged limits.now self.new }
        ensures key { self.new.key ≡ self.old.key }
        ensures tare { self.new.tare ≡ self.old.tare }
        ensures grosses { HasOneMore gross self.old.grosses self.new.grosses }
    {
        self.grosses.insert(gross, node);
        let least = least_grosses(limits, self.tare);
        self.nonstandard += count_one(gross, least.standard);
        self.inadequate += count_one(gross, least.adequate);
    }

    // A gross in mg leaves those of the population.
    fn give_up(&mut self, limits: &Limits, gross: u32) -> Box<Node<Gross>>
        requires tare { pos self.old.tare ≤ℤ MAX_TARE }
        requires contained { 0 < count_by (λ other. mass_of other == gross) self.old.grosses }
        requires judged { IsJudged limits.now self.old }
        ensures judged { IsJudged limits.now self.new }
        ensures key { self.new.key ≡ self.old.key }
        ensures tare { self.new.tare ≡ self.old.tare }
        ensures grosses { HasOneMore gross self.new.grosses self.old.grosses }
    {
        let node = self.grosses.remove(gross);
        let least = least_grosses(limits, self.tare);
        self.nonstandard -= count_one(gross, least.standard);
        self.inadequate -= count_one(gross, least.adequate);
        node
    }

    /// A pack of this pile and gross in mg comes into the group. It takes a spare node where it
    /// counts for the population.
    pub fn enter(
        &mut self,
        limits: &Limits,
        pile: Pile,
        gross: u32,
        nodes: &mut Vec<Box<Node<Gross>>>,
    )
        requires tare { pos self.old.tare ≤ℤ MAX_TARE }
        requires few { length self.old.grosses + 1 < 2 ^ 32 }
        requires judged { IsJudged limits.now self.old }
        requires spare { 0 < vec_len nodes.old }
        ensures judged { IsJudged limits.now self.new }
        ensures face { face_of self.new ≡ face_of self.old }
        ensures grosses { HasMoreIf (is_counted pile) gross self.old.grosses self.new.grosses }
        ensures nodes { vec_len nodes.new + (if is_counted pile then 1 else 0) ≡ vec_len nodes.old }
        ensures capacity { vec_capacity nodes.new ≡ vec_capacity nodes.old }
    {
        if counts_for_population(pile) {
            let Some(node) = nodes.pop() else {
                unreachable!()
            };
            self.take_in(limits, gross, node);
        }
    }

    /// A pack of this pile and gross in mg goes out of the group. Its node becomes a spare one
    /// where it counted for the population.
    pub fn leave(
        &mut self,
        limits: &Limits,
        pile: Pile,
        gross: u32,
        nodes: &mut Vec<Box<Node<Gross>>>,
    )
        requires tare { pos self.old.tare ≤ℤ MAX_TARE }
        requires contained { is_counted pile ≡ true
            → 0 < count_by (λ other. mass_of other == gross) self.old.grosses }
        requires judged { IsJudged limits.now self.old }
        requires room { is_counted pile ≡ true → vec_len nodes.old < vec_capacity nodes.old }
        ensures judged { IsJudged limits.now self.new }
        ensures face { face_of self.new ≡ face_of self.old }
        ensures grosses { HasMoreIf (is_counted pile) gross self.new.grosses self.old.grosses }
        ensures nodes { vec_len nodes.new ≡ vec_len nodes.old + (if is_counted pile then 1 else 0) }
        ensures capacity { vec_capacity nodes.old ≤ vec_capacity nodes.new }
    {
        if counts_for_population(pile) {
            let node = self.give_up(limits, gross);
            let Ok(()) = nodes.push(node) else {
                unreachable!()
            };
        }
    }

    /// The packs have this tare in mg from now on.
    pub fn correct<L: Ledger>(&mut self, limits: &Limits, tare: u32, steps: &mut Steps<L>)
        requires tare { pos tare ≤ℤ MAX_TARE }
        ensures judged { IsJudged limits.now self.new }
        ensures face { face_of self.new ≡ record { key = self.old.key; tare = tare } }
        ensures grosses { self.new.grosses ≡ self.old.grosses }
        ensures cost { length self.old.grosses ≤ MAX_POPULATION → steps.new ≤ steps.old + 36 }
    {
        let least = least_grosses(limits, tare);
        self.tare = tare;
        self.nonstandard = self.grosses.count_below(least.standard, steps);
        self.inadequate = self.grosses.count_below(least.adequate, steps);
    }
}

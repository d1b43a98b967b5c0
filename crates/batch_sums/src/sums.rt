ghost use Rattle.std.specs.Prelude.{◌≡◌, ℕ, List, pos, find, map, ◌==◌, ◌*◌, max, Some, IsTrue, true, false, ◌≤ℤ◌, ◌+◌, ◌-◌, ◌<◌, ◌≤◌, [], ◌∷◌, ◌++◌, length, IsOk, IfOk, OnOk, OnErr, if◌then◌else◌};
ghost use Rattle.batch_sums.specs.Kept.{counted_number};
ghost use Rattle.pack_groups.specs.Population.{is_counted};
ghost use Rattle.batch_sums.specs.Totals.{population, left_out, of_batch, kept_totals, kept_limits};
ghost use Rattle.batch_sums.specs.Asked.{numbers_of, numbers_after, piles_of, concerned_in, chosen_batches, IsLeast, IsLeastWith};
ghost use Rattle.batch_sums.specs.Changes.{IsAbove, is_added, moved, corrected, concerned, group_count, IsUpTo, IsTareOf, HasFewPerGroup};

use crate::chain::{links_behind, numbers_behind};
use crate::pool::{place_of, reserve_nodes, reserve_places};
use crate::types::{Held, NoMemory, Pack};
use annex_tables::Limits;
use balanced_tree::{Node, Tree};
use hall_limits::{MAX_DAY, MAX_GROSS, MAX_TARE};
use pack_groups::{
    Batch, Gross, Group, Key, PileSums, Piles, STEPS_PER_GROUP, Steps, Stretch, Totals,
    counts_for_population, days_of, find_or_open, next_lesser, stretch_of,
};
use pack_judge::{Pile, Span};
use std::alloc::{AllocError, Global};
use std::marker::Model;
use std::sync::ledger::Ledger;

/// The totals of each batch over the packs that were added.
pub struct BatchSums {
    batches: Vec<Batch>,
    groups: Vec<Group>,
    // The places of the groups in the order of their keys.
    order: Tree<u32>,
    // The packs in the order in which they were added, by their rising numbers.
    packs: Vec<Held>,
    // The sums of the packs of all batches.
    piles: PileSums,
    // Spare nodes: one for each pack that doesn't count for a population, and for each place that
    // is reserved; and one for the group that each reserved place may open.
    gross_nodes: Vec<Box<Node<Gross>>>,
    order_nodes: Vec<Box<Node<u32>>>,
    // How many packs and batches more are sure to find room.
    spare: u32,
}

// By hand, so that letting one go is one call, where a derived drop is spelled at each exit.
impl Drop for BatchSums {
    fn drop(self) {
        let Self {
            batches: _,
            groups: _,
            order: _,
            packs: _,
            piles: _,
            gross_nodes: _,
            order_nodes: _,
            spare: _,
        } = self;
    }
}

impl Model for BatchSums {
    ghost use Rattle.std.specs.Prelude.{map, vec_len};
    ghost use Rattle.batch_sums.specs.Totals.{Sums};

    ghost Value = { Sums };

    ghost use Rattle.pack_groups.specs.Groups.{faces};
    ghost use Rattle.batch_sums.specs.Kept.{seen, terms_of};
    ghost use Rattle.batch_sums.specs.Invariant.{IsKept};

    ghost view = { λ s. record {
      batches = map terms_of s.batches.items;
      packs = map (seen (faces s.groups.items)) s.packs.items;
      spare = s.spare;
      nodes = vec_len s.gross_nodes;
    } };

    ghost invariant = { IsKept };
}

impl BatchSums {
    /// Sums without batches. It takes no memory.
    pub fn new(alloc: Global) -> BatchSums
        ensures batches { result.batches ≡ [] }
        ensures packs { result.packs ≡ [] }
    {
        BatchSums {
            batches: Vec::new(alloc),
            groups: Vec::new(alloc),
            order: Tree::Leaf,
            packs: Vec::new(alloc),
            piles: PileSums::new(),
            gross_nodes: Vec::new(alloc),
            order_nodes: Vec::new(alloc),
            spare: 0,
        }
    }

    /// Adds a batch of a product. The limits are in mg: a net below `t1` is non-standard, one below
    /// `t2` inadequate; equality with a limit is not below it. For goods by volume the caller hands
    /// in limits in mg that are rounded up for their density. The result is the number of the
    /// batch: the first is 0.
    ///
    /// It is refused only for want of memory, and never while a place is reserved.
    pub fn add_batch(&mut self, product: u32, limits: Limits) -> Result<u32, NoMemory>
        ensures ok { IfOk result (λ batch. (batch ≡ length self.old.batches)
            × (self.new.batches
            ≡ self.old.batches ++ record { product = product; limits = limits } ∷ [])) }
        ensures err { OnErr result (self.new.batches ≡ self.old.batches) }
        ensures packs { self.new.packs ≡ self.old.packs }
        ensures room { 0 < self.old.spare → IsOk result }
        ensures spare { self.old.spare ≤ self.new.spare + 1 }
        ensures nodes { self.new.nodes ≤ max self.old.nodes (left_out self.old.packs + 1) }
    {
        self.reserve(1)?;
        let batch = self.batches.len() as u32;
        self.batches.push_reserved(Batch::new(product, &limits));
        self.spare -= 1;
        Ok(batch)
    }

    /// Reserves places for `more` further packs and batches. It takes the nodes that lack alone, so
    /// that memory doesn't grow with each call, nor with each batch.
    pub fn reserve(&mut self, more: u32) -> Result<(), NoMemory>
        ensures ok { OnOk result (more ≤ self.new.spare) }
        ensures spare { self.old.spare ≤ self.new.spare }
        ensures room { more ≤ self.old.spare → IsOk result }
        ensures nodes { self.new.nodes ≤ self.old.nodes + (more - self.old.spare) }
        ensures lacking { self.new.nodes ≤ max self.old.nodes (left_out self.old.packs + more) }
        ensures batches { self.new.batches ≡ self.old.batches }
        ensures packs { self.new.packs ≡ self.old.packs }
    {
        if more <= self.spare {
            return Ok(());
        }
        let most = u32::MAX - more;
        if self.batches.len() > most as usize || self.packs.len() > most as usize {
            return Err(AllocError);
        }
        reserve_places(&mut self.batches, &mut self.groups, &mut self.packs, more)?;
        reserve_nodes(
            &mut self.gross_nodes,
            &mut self.order_nodes,
            self.packs.len(),
            self.piles.left_out() + more,
            more,
        )?;
        self.spare = more;
        Ok(())
    }

    /// Adds a pack of a batch, with its number, its day since 1970-01-01, its gross and the tare of
    /// its batch and day in mg, and the pile that it lies in. The number is above those of all packs
    /// before.
    ///
    /// It is refused only for want of memory, and never while a place is reserved.
    pub fn add(
        &mut self,
        batch: u32,
        pack: u32,
        day: i32,
        gross: i64,
        tare: i64,
        pile: Pile,
    ) -> Result<(), NoMemory>
        requires batch { batch < length self.old.batches }
        requires new { IsAbove self.old.packs pack }
        requires day { IsUpTo MAX_DAY day }
        requires gross { IsUpTo MAX_GROSS gross }
        requires tare { IsUpTo MAX_TARE tare }
        requires same_tare { IsTareOf batch day tare self.old.packs }
        ensures ok { OnOk result (self.new.packs ≡ self.old.packs
            ++ record {
              number = pack;
              batch = batch;
              day = day;
              gross = gross;
              tare = tare;
              pile = pile;
            } ∷ []) }
        ensures err { OnErr result (self.new.packs ≡ self.old.packs) }
        ensures batches { self.new.batches ≡ self.old.batches }
        ensures room { 0 < self.old.spare → IsOk result }
        ensures spare { self.old.spare ≤ self.new.spare + 1 }
    {
        self.reserve(1)?;
        self.put(batch, pack, day as u32, gross as u32, tare as u32, pile);
        Ok(())
    }

    // Adds a pack for which a place is reserved.
    fn put(&mut self, batch: u32, pack: u32, day: u32, gross: u32, tare: u32, pile: Pile)
        requires room { 0 < self.old.spare }
        requires batch { batch < length self.old.batches }
        requires new { IsAbove self.old.packs pack }
        requires day { pos day ≤ℤ MAX_DAY }
        requires gross { pos gross ≤ℤ MAX_GROSS }
        requires tare { pos tare ≤ℤ MAX_TARE }
        requires same_tare { IsTareOf batch (pos day) (pos tare) self.old.packs }
        ensures packs { self.new.packs ≡ self.old.packs
            ++ record {
              number = pack;
              batch = batch;
              day = pos day;
              gross = pos gross;
              tare = pos tare;
              pile = pile;
            } ∷ [] }
        ensures batches { self.new.batches ≡ self.old.batches }
        ensures spare { self.new.spare + 1 ≡ self.old.spare }
    {
        let home = self.batches[batch as usize];
        let links = links_behind(&self.packs, home.reach);
        let key = Key {
            product: home.product,
            day,
            batch,
        };
        let (groups, nodes) = (&mut self.groups, &mut self.order_nodes);
        let group = find_or_open(groups, &mut self.order, nodes, key, tare);
        self.packs.push_reserved(Held {
            number: pack,
            group,
            links,
            gross,
            pile,
        });
        let batch = &mut self.batches[batch as usize];
        let group = &mut self.groups[group as usize];
        batch.reach = self.packs.len() as u32;
        batch.enter(pile, gross, tare);
        group.enter(&batch.limits, pile, gross, &mut self.gross_nodes);
        self.piles.enter(pile, gross);
        self.spare -= 1;
    }

    /// Moves a pack to a pile; it may move between any two. It takes no memory.
    pub fn shift(&mut self, pack: u32, to: Pile)
        requires { IsTrue (is_added self.old.packs pack) }
        ensures packs { self.new.packs ≡ moved pack to self.old.packs }
        ensures batches { self.new.batches ≡ self.old.batches }
        ensures spare { self.new.spare ≡ self.old.spare }
    {
        let Some(place) = place_of(&self.packs, pack) else {
            unreachable!()
        };
        let held = self.packs[place];
        let group = &mut self.groups[held.group as usize];
        let batch = &mut self.batches[group.key.batch as usize];
        batch.leave(held.pile, held.gross, group.tare);
        group.leave(&batch.limits, held.pile, held.gross, &mut self.gross_nodes);
        batch.enter(to, held.gross, group.tare);
        group.enter(&batch.limits, to, held.gross, &mut self.gross_nodes);
        self.piles.leave(held.pile, held.gross);
        self.piles.enter(to, held.gross);
        self.packs[place] = Held { pile: to, ..held };
    }

    /// The packs of a product on the days of a span have this tare in mg from now on. It takes no
    /// memory, and for each group of these packs, those of one batch and day, at most 40 steps
    /// where no group has more than 10 000 packs in its population.
    pub fn rejudge<L: Ledger>(&mut self, product: u32, span: Span, tare: i64, steps: &mut Steps<L>)
        requires tare { IsUpTo MAX_TARE tare }
        ensures packs { self.new.packs
            ≡ corrected self.old.batches product span tare self.old.packs }
        ensures batches { self.new.batches ≡ self.old.batches }
        ensures spare { self.new.spare ≡ self.old.spare }
        ensures cost { HasFewPerGroup self.old.packs → steps.new ≤ steps.old
            + STEPS_PER_GROUP
            * group_count (concerned self.old.batches product span self.old.packs) }
    {
        let Stretch { first, end } = stretch_of(&self.order, &self.groups, product, days_of(&span));
        let tare = tare as u32;
        for place in first..end {
            let Some(group) = self.order.get(place) else {
                unreachable!()
            };
            let group = &mut self.groups[group as usize];
            let batch = &mut self.batches[group.key.batch as usize];
            batch.correct(group, tare, steps);
        }
    }

    /// The totals of a batch over the packs that were added. It takes no memory and no walk.
    pub fn totals(&self, batch: u32) -> Totals
        requires { batch < length self.now.batches }
        ensures { kept_totals self.now batch ≡ Some result }
    {
        let batch = &self.batches[batch as usize];
        batch.totals()
    }

    /// The limits in mg that a batch was added with. It takes no memory and no walk.
    pub fn limits(&self, batch: u32) -> Limits
        requires { batch < length self.now.batches }
        ensures { kept_limits self.now batch ≡ Some result }
    {
        self.batches[batch as usize].limits
    }

    /// The pack that was added with this number, as it now is, and `None` where none was. It takes
    /// no memory and no walk.
    pub fn pack(&self, number: u32) -> Option<Pack>
        ensures { result ≡ find (λ pack. pack.number == number) self.now.packs }
    {
        let place = place_of(&self.packs, number)?;
        let held = self.packs[place];
        let group = &self.groups[held.group as usize];
        Some(Pack {
            number,
            batch: group.key.batch,
            day: group.key.day as i32,
            gross: held.gross as i64,
            tare: group.tare as i64,
            pile: held.pile,
        })
    }

    /// The numbers of the packs of a batch that count for its population, in the order in which
    /// they were added. It takes memory for the result alone, and walks over the packs of the batch
    /// alone.
    pub fn population(&self, alloc: Global, batch: u32) -> Result<Vec<u64>, NoMemory>
        requires { batch < length self.now.batches }
        ensures { IfOk result (λ v.
            v.items ≡ numbers_of (population (of_batch batch self.now.packs))) }
    {
        let batch = &self.batches[batch as usize];
        let mut numbers = Vec::with_capacity(alloc, batch.population() as usize)?;
        let mut reach = batch.reach;
        while reach > 0 {
            let held = &self.packs[reach as usize - 1];
            note(&mut numbers, held)?;
            reach = held.links.before;
        }
        numbers.reverse();
        Ok(numbers)
    }

    /// The numbers above `after` of the packs of a batch, at most `most` of them, in the order in
    /// which they were added. It takes memory for them alone, and a step for each of them beside
    /// the search for the first and the last.
    pub fn packs_after(
        &self,
        alloc: Global,
        batch: u32,
        after: u32,
        most: u32,
    ) -> Result<Vec<u32>, NoMemory>
        requires { batch < length self.now.batches }
        ensures { IfOk result (λ v.
            v.items ≡ numbers_after after most (of_batch batch self.now.packs)) }
    {
        let newest = self.batches[batch as usize].reach;
        numbers_behind(alloc, &self.packs, newest, after, most)
    }

    /// The least number of a batch of a product that is chosen and has a pack on a day of a span,
    /// whatever its pile, and `None` where no batch is so; `chosen` has a flag for each batch. It
    /// takes no memory. Of the batches of the product on each day of the span, by their rising
    /// numbers, it looks at those up to the first that is chosen, or that isn't less than one found
    /// before.
    pub fn first_concerned(&self, product: u32, span: &Span, chosen: &[bool]) -> Option<u32>
        requires { length chosen.now ≡ length self.now.batches }
        ensures { IsLeast
            (chosen_batches chosen.now (concerned_in self.now product span.now)) result }
    {
        let Stretch { first, end } = stretch_of(&self.order, &self.groups, product, days_of(span));
        let mut least = None;
        let mut place = first;
        while place < end {
            let Some(group) = self.order.get(place) else {
                unreachable!()
            };
            let batch = self.groups[group as usize].key.batch;
            least = lesser(least, batch, chosen[batch as usize]);
            place = next_lesser(&self.order, &self.groups, group, place, end, least);
        }
        least
    }

    /// The tallies of the packs of all batches together, a pile each. It takes no memory and no
    /// walk.
    pub fn piles(&self) -> Piles
        ensures { result ≡ piles_of self.now.packs }
    {
        self.piles.tallies()
    }
}

// Puts the number of a pack after others where it counts for the population.
fn note(numbers: &mut Vec<u64>, held: &Held) -> Result<(), NoMemory>
    ensures { OnOk result (numbers.new.items ≡ numbers.old.items ++ counted_number held.now) }
{
    if counts_for_population(held.pile) {
        numbers.push(held.number as u64)?;
    }
    Ok(())
}

// The lesser of the batch that is known and another, where that one is chosen.
fn lesser(known: Option<u32>, batch: u32, chosen: bool) -> Option<u32>
    ensures chosen { chosen ≡ true → IsLeastWith batch known result }
    ensures others { chosen ≡ false → result ≡ known }
{
    if !chosen {
        return known;
    }
    match known {
        Some(least) if least <= batch => Some(least),
        _ => Some(batch),
    }
}

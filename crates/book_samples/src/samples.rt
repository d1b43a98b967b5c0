ghost use Rattle.std.specs.Prelude.{◌≡◌, ℕ, ◌+◌, ◌<◌, ◌≤◌, ◌^◌, List, [], Some, IsOk, OnOk, All, length, option_copied};
ghost use Rattle.book_words.specs.declared.name.Name as names;
ghost use Rattle.book_words.specs.declared.act.Entry.{Entry};
ghost use Rattle.book_words.specs.Order.{batch_number};
ghost use Rattle.book_words.specs.Samples.{sample_of};
ghost use Rattle.book_words.specs.Measures as measures;
ghost use Rattle.book_samples.specs.Kept.{measured_in, IsSamplesOf, StandsForAll, TakesDown, IsOpening, IsFirstDraw, IsSecondDraw, IsMeasurement};
ghost use Rattle.book_samples.specs.Room.{room_for};

use crate::places::{count_measured, find_unmeasured, measured_at, put_first, put_second};
use crate::types::{Measured, Sample};
use sample_draw::{NoMemory, Picks};
use std::alloc::Global;
use std::collections::HashMap;
use std::marker::Model;

/// The samples that were drawn from each batch, and what was measured of their packs.
///
/// A batch goes by its number: its place in the order of opening, from 0. Each look-up takes as
/// long as the packs that it is asked for, however many batches and packs there are.
pub struct Samples {
    // The samples of each batch, in order of opening.
    drawn: Vec<Option<Sample>>,
    measured: HashMap<u32, Measured>,
}

// By hand, so that letting one go is one call, where a derived drop is spelled at each exit.
impl Drop for Samples {
    fn drop(self) {
        let Self {
            drawn: _,
            measured: _,
        } = self;
    }
}

impl Model for Samples {
    ghost use Rattle.book_samples.specs.Kept.{Kept};

    ghost Value = { Kept };

    ghost use Rattle.book_samples.specs.Room.{kept_by};

    ghost view = { λ s. kept_by s.drawn s.measured };
}

impl Samples {
    /// What is kept before anything was entered. It takes no memory.
    pub fn new(alloc: Global) -> Samples
        ensures { IsSamplesOf [] result }
    {
        Samples {
            drawn: Vec::new(alloc),
            measured: HashMap::new(alloc),
        }
    }

    /// Makes room for `more` further batches, and as many measurements.
    pub fn reserve(&mut self, more: u32) -> Result<(), NoMemory>
        ensures ok { OnOk result (more ≤ self.new.spare) }
        ensures room { more ≤ self.old.spare → IsOk result }
        ensures spare { self.old.spare ≤ self.new.spare }
        ensures kept { StandsForAll self.old self.new }
    {
        reserve_room(&mut self.drawn, &mut self.measured, more as usize)?;
        Ok(())
    }

    /// Takes down that a batch is opened.
    pub fn open_batch(&mut self)
        requires room { 0 < self.old.spare }
        ensures opened { TakesDown IsOpening self.old self.new }
        ensures spare { self.old.spare ≤ self.new.spare + 1 }
    {
        let Ok(()) = self.drawn.push(None) else {
            unreachable!()
        };
    }

    /// Takes down the first sample of the batch of this number.
    pub fn enter_first(&mut self, number: u32, sample: Sample)
        ensures drawn { TakesDown (IsFirstDraw number sample) self.old self.new }
        ensures spare { self.old.spare ≤ self.new.spare }
    {
        put_first(&mut self.drawn, number as usize, sample);
    }

    /// Takes down the packs of the second sample of the batch of this number.
    pub fn enter_second(&mut self, number: u32, picks: Picks)
        ensures drawn { TakesDown (IsSecondDraw number picks) self.old self.new }
        ensures spare { self.old.spare ≤ self.new.spare }
    {
        put_second(&mut self.drawn, number as usize, picks);
    }

    /// Takes down what a pack weighed in the test, and what it weighed empty, in mg.
    pub fn measure(&mut self, pack: u32, gross: i64, empty: i64)
        requires room { 0 < self.old.spare }
        ensures measured { TakesDown (IsMeasurement pack gross empty) self.old self.new }
        ensures spare { self.old.spare ≤ self.new.spare + 1 }
    {
        let Ok(_) = self.measured.insert(pack, Measured::new(gross, empty)) else {
            unreachable!()
        };
    }

    /// The samples of the batch of this number, where some were drawn.
    pub fn sample(&self, number: u32) -> Option<&Sample>
        ensures { (entries : List Entry) (batch : names.Name) → IsSamplesOf entries self.now
            → batch_number entries batch ≡ Some number
            → option_copied result ≡ sample_of entries batch }
    {
        self.drawn.get(number as usize)?.as_ref()
    }

    /// What was measured of a pack, where it was.
    pub fn measured(&self, pack: u32) -> Option<Measured>
        ensures { (entries : List Entry) → IsSamplesOf entries self.now
            → result ≡ measures.measured_of entries pack }
    {
        measured_at(&self.measured, pack)
    }

    /// The first of these packs that wasn't measured.
    pub fn first_unmeasured(&self, packs: &[u64]) -> Option<u32>
        requires packs { All (λ pack. pack < 2 ^ 32) packs.now }
        ensures { (entries : List Entry) → IsSamplesOf entries self.now
            → result ≡ measures.first_unmeasured entries packs.now }
    {
        find_unmeasured(&self.measured, packs)
    }

    /// How many of these packs were measured.
    pub fn measured_count(&self, packs: &[u64]) -> u32
        requires packs { All (λ pack. pack < 2 ^ 32) packs.now }
        requires few { length packs.now < 2 ^ 32 }
        ensures { (entries : List Entry) → IsSamplesOf entries self.now
            → result ≡ measures.measured_count entries packs.now }
    {
        count_measured(&self.measured, packs)
    }
}

// Makes room for so many more batches and measurements.
fn reserve_room(
    drawn: &mut Vec<Option<Sample>>,
    measured: &mut HashMap<u32, Measured>,
    more: usize,
) -> Result<(), NoMemory>
    ensures ok { OnOk result (more ≤ room_for drawn.new measured.new) }
    ensures room { more ≤ room_for drawn.old measured.old → IsOk result }
    ensures spare { room_for drawn.old measured.old ≤ room_for drawn.new measured.new }
    ensures drawn { drawn.new.items ≡ drawn.old.items }
    ensures measured { (pack : ℕ) → measured_in measured.new.entries pack
        ≡ measured_in measured.old.entries pack }
{
    drawn.reserve(more)?;
    measured.reserve(more)?;
    Ok(())
}

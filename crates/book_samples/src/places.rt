ghost use Rattle.std.specs.Prelude.{◌≡◌, ◌<◌, ◌^◌, Some, All, length, find, count_by, is_none, is_some};
ghost use Rattle.book_samples.specs.Kept.{measured_in};
ghost use Rattle.book_samples.specs.Changed.{change_at, with_second};

use crate::types::{Measured, Sample};
use sample_draw::Picks;
use std::collections::HashMap;

/// Puts the first sample of a batch in its place, where there is such a place.
pub fn put_first(drawn: &mut [Option<Sample>], place: usize, sample: Sample)
    ensures { drawn.new ≡ change_at (λ none. Some sample) place drawn.old }
{
    if place < drawn.len() {
        drawn[place] = Some(sample);
    }
}

/// Puts the second sample of a batch beside its first, where there is one.
pub fn put_second(drawn: &mut [Option<Sample>], place: usize, picks: Picks)
    ensures { drawn.new ≡ change_at (with_second picks) place drawn.old }
{
    if place < drawn.len() {
        join_second(&mut drawn[place], picks);
    }
}

// Puts the second sample beside the first, where there is one.
fn join_second(first: &mut Option<Sample>, picks: Picks)
    ensures { first.new ≡ with_second picks first.old }
{
    if let Some(sample) = first {
        sample.take_second(picks);
    }
}

/// What was measured of a pack, where it was.
pub fn measured_at(measured: &HashMap<u32, Measured>, pack: u32) -> Option<Measured>
    ensures { result ≡ measured_in measured.now.entries pack }
{
    measured.get(&pack).copied()
}

/// The first of these packs that wasn't measured.
pub fn find_unmeasured(measured: &HashMap<u32, Measured>, packs: &[u64]) -> Option<u32>
    requires packs { All (λ pack. pack < 2 ^ 32) packs.now }
    ensures { result ≡ find (λ pack. is_none (measured_in measured.now.entries pack)) packs.now }
{
    for pack in packs {
        let pack = *pack as u32;
        if measured_at(measured, pack).is_none() {
            return Some(pack);
        }
    }
    None
}

/// How many of these packs were measured.
pub fn count_measured(measured: &HashMap<u32, Measured>, packs: &[u64]) -> u32
    requires packs { All (λ pack. pack < 2 ^ 32) packs.now }
    requires few { length packs.now < 2 ^ 32 }
    ensures { result
        ≡ count_by (λ pack. is_some (measured_in measured.now.entries pack)) packs.now }
{
    let mut count = 0;
    for pack in packs {
        count += u32::from(measured_at(measured, *pack as u32).is_some());
    }
    count
}

ghost use Rattle.std.specs.Prelude.{◌≡◌, ◌≢◌, ◌+◌, ◌≤◌, length, IfOk, All, AllPairs, Contains};
ghost use Rattle.std.specs.List.Sorted.{IsStrictlyIncreasing};
ghost use Rattle.sample_draw.specs.Draws.{drawn, packs_left};

use crate::types::{NoMemory, Picks};
use crate::word::{following, place_in};
use std::alloc::Global;

/// Draws `k` packs of the ascending list `packs` by `word`.
///
/// The word is stepped once for each pack. The new word points to a pack of those that remain,
/// which is taken, and the list closes up. The same word, list and number always draw the same
/// packs.
pub fn draw(alloc: Global, word: u64, packs: &[u64], k: u32) -> Result<Picks, NoMemory>
    requires ascending { IsStrictlyIncreasing packs.now }
    requires enough { k ≤ length packs.now }
    ensures exact { IfOk result (λ picks. picks ≡ drawn word packs.now k) }

    // What a sample is, whatever the word.
    ensures number { IfOk result (λ picks. length picks ≡ k) }
    ensures members { IfOk result (All (Contains packs.now)) }
    ensures distinct { IfOk result (AllPairs (λ earlier later. earlier ≢ later)) }
{
    let remaining = Vec::from_slice(alloc, packs)?;
    let picks = take_packs(alloc, word, remaining, k)?;
    Ok(picks)
}

/// Draws `k` packs by `word` of those packs of the ascending list `packs` that aren't among
/// `taken`, in the way of [`draw`].
pub fn draw_more(
    alloc: Global,
    word: u64,
    packs: &[u64],
    taken: &Picks,
    k: u32,
) -> Result<Picks, NoMemory>
    requires ascending { IsStrictlyIncreasing packs.now }
    requires enough { length taken.now + k ≤ length packs.now }
    ensures exact { IfOk result (λ picks. picks ≡ drawn word (packs_left packs.now taken.now) k) }

    // What a second sample is, whatever the word.
    ensures number { IfOk result (λ picks. length picks ≡ k) }
    ensures members { IfOk result (All (Contains packs.now)) }
    ensures distinct { IfOk result (AllPairs (λ earlier later. earlier ≢ later)) }
    ensures fresh { IfOk result (All (λ pack. ¬ Contains taken.now pack)) }
{
    let remaining = left_of(alloc, packs, taken.as_slice())?;
    let picks = take_packs(alloc, word, remaining, k)?;
    Ok(picks)
}

// The packs of `packs` that aren't among `taken`, in their order.
fn left_of(alloc: Global, packs: &[u64], taken: &[u64]) -> Result<Vec<u64>, NoMemory>
    ensures { IfOk result (λ left. left.items ≡ packs_left packs.now taken.now) }
{
    packs
        .iter()
        .copied()
        .filter(|pack| !taken.contains(pack))
        .collect(alloc)
}

// Takes `k` packs out of `remaining`, in drawing order.
fn take_packs(
    alloc: Global,
    mut word: u64,
    mut remaining: Vec<u64>,
    k: u32,
) -> Result<Picks, NoMemory>
    requires { k ≤ length remaining.items }
    ensures { IfOk result (λ picks. picks ≡ drawn word remaining.items k) }
{
    let mut picks = Vec::with_capacity(alloc, k as usize)?;
    for _turn in 0..k {
        word = following(word);
        let place = place_in(word, remaining.len());
        picks.push(remaining.remove(place))?;
    }
    Ok(Picks::from(picks))
}

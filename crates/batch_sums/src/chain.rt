//! The packs of a batch, walked from the newest back. Each is linked with the one before it, and
//! with one further back, to which a search jumps. The jumps are those of the skew binary numbers
//! (Myers, 1983): where the two jumps behind the pack before are equally long, a pack jumps over
//! both, and else to that pack alone. So a search takes a number of steps that grows with the
//! logarithm of the batch: below 50 in a million packs.

ghost use Rattle.std.specs.Prelude.{◌≡◌, true, false, ◌+◌, ◌-◌, ◌*◌, ◌<◌, ◌≤◌, ◌^◌, nat_eq, length, take, drop, slice_index, IfOk};
ghost use Rattle.batch_sums.specs.Totals.{of_batch};
ghost use Rattle.batch_sums.specs.Asked.{numbers_after};
ghost use Rattle.batch_sums.specs.Kept.{IsLinked, reach_of};
ghost use Rattle.batch_sums.specs.Invariant.{numbers_held};
ghost use Rattle.batch_sums.specs.Chains.{Chain, Reaches, StandsAt, IsBack, AreUpTo, homes_in, packs_in, rank_to, numbers_to};

use crate::types::{Held, Links, NoMemory};
use std::alloc::Global;

// The links of the last of so many packs, one of a batch; there may be none.
fn links_at(packs: &[Held], reach: u32) -> Links
    requires { (chain : Chain packs.now) × Reaches packs.now chain reach }
    ensures { (chain : Chain packs.now) → Reaches packs.now chain reach
        → StandsAt chain.batch (homes_in packs.now chain) reach result }
{
    if reach == 0 {
        return Links {
            before: 0,
            skip: 0,
            rank: 0,
        };
    }
    packs[reach as usize - 1].links
}

/// The links of a pack that comes behind all others, where those of its batch reach so far.
pub fn links_behind(packs: &[Held], before: u32) -> Links
    requires few { length packs.now + 1 < 2 ^ 32 }
    requires newest { (chain : Chain packs.now)
        × (before ≡ reach_of chain.batch (homes_in packs.now chain)) }
    ensures { (chain : Chain packs.now) → before ≡ reach_of chain.batch (homes_in packs.now chain)
        → IsLinked chain.batch (homes_in packs.now chain) result }
{
    let near = links_at(packs, before);
    let far = links_at(packs, near.skip);
    let further = links_at(packs, far.skip);
    Links {
        before,
        skip: if are_level(near.rank, far.rank, further.rank) {
            far.skip
        } else {
            before
        },
        rank: near.rank + 1,
    }
}

// Whether the second is as far from the first as from the third.
fn are_level(near: u32, far: u32, further: u32) -> bool
    ensures { result ≡ nat_eq (near + further) (2 * far) }
{
    u64::from(near) + u64::from(further) == 2 * u64::from(far)
}

// Whether the last of so many packs has a number above one.
fn is_above(packs: &[Held], reach: u32, number: u32) -> bool
    requires { reach ≤ length packs.now }
    ensures above { result ≡ true → (0 < reach)
        × (number < slice_index (numbers_held packs.now) (reach - 1)) }
    ensures up_to { result ≡ false → 0 < reach
        → slice_index (numbers_held packs.now) (reach - 1) ≤ number }
{
    if reach == 0 {
        return false;
    }
    packs[reach as usize - 1].number > number
}

// A step back in a batch, or a jump over packs whose numbers are all above one.
fn step_by_number(packs: &[Held], reach: u32, number: u32) -> u32
    requires chained { (chain : Chain packs.now) × Reaches packs.now chain reach }
    requires some { 0 < reach }
    requires above { number < slice_index (numbers_held packs.now) (reach - 1) }
    ensures less { result < reach }
    ensures back { (chain : Chain packs.now) → Reaches packs.now chain reach
        → IsBack packs.now chain number reach result }
{
    let links = links_at(packs, reach);
    if is_above(packs, links.skip, number) {
        links.skip
    } else {
        links.before
    }
}

// How far the packs of a batch reach that have no number above one, of those that reach so far.
fn reach_up_to(packs: &[Held], newest: u32, number: u32) -> u32
    requires { (chain : Chain packs.now) × Reaches packs.now chain newest }
    ensures back { (chain : Chain packs.now) → Reaches packs.now chain newest
        → IsBack packs.now chain number newest result }
    ensures up_to { (chain : Chain packs.now) → Reaches packs.now chain newest
        → AreUpTo packs.now number result }
{
    let mut reach = newest;
    while is_above(packs, reach, number) {
        reach = step_by_number(packs, reach, number);
    }
    reach
}

// A step back in a batch, or a jump that leaves so many of its packs.
fn step_by_rank(packs: &[Held], reach: u32, rank: u32) -> u32
    requires { (chain : Chain packs.now) × Reaches packs.now chain reach
        × (rank < rank_to packs.now chain reach) }
    ensures less { result < reach }
    ensures back { (chain : Chain packs.now) → Reaches packs.now chain reach
        → rank < rank_to packs.now chain reach
        → Reaches packs.now chain result × (rank ≤ rank_to packs.now chain result) }
{
    let links = links_at(packs, reach);
    if links_at(packs, links.skip).rank >= rank {
        links.skip
    } else {
        links.before
    }
}

// How far so many packs of a batch reach, of those that reach so far.
fn reach_of_rank(packs: &[Held], newest: u32, rank: u32) -> u32
    requires { (chain : Chain packs.now) × Reaches packs.now chain newest }
    ensures less { result ≤ newest }
    ensures reach { (chain : Chain packs.now) → Reaches packs.now chain newest
        → rank ≤ rank_to packs.now chain newest
        → Reaches packs.now chain result × (rank_to packs.now chain result ≡ rank) }
{
    let mut reach = newest;
    while links_at(packs, reach).rank > rank {
        reach = step_by_rank(packs, reach, rank);
    }
    reach
}

// The numbers of the last packs, so many of them, of a batch whose packs reach so far.
fn last_numbers(
    alloc: Global,
    packs: &[Held],
    newest: u32,
    count: u32,
) -> Result<Vec<u32>, NoMemory>
    requires { (chain : Chain packs.now) × Reaches packs.now chain newest
        × (count ≤ rank_to packs.now chain newest) }
    ensures { (chain : Chain packs.now) → Reaches packs.now chain newest
        → count ≤ rank_to packs.now chain newest
        → IfOk result (λ v. v.items ≡ drop (rank_to packs.now chain newest - count)
        (numbers_to packs.now chain newest)) }
{
    let mut numbers = Vec::with_capacity(alloc, count as usize)?;
    let mut reach = newest;
    while numbers.len() < count as usize {
        let held = &packs[reach as usize - 1];
        numbers.push(held.number)?;
        reach = held.links.before;
    }
    numbers.reverse();
    Ok(numbers)
}

/// The numbers above one of the packs of a batch that reach so far, at most so many of them.
pub fn numbers_behind(
    alloc: Global,
    packs: &[Held],
    newest: u32,
    after: u32,
    most: u32,
) -> Result<Vec<u32>, NoMemory>
    requires { (chain : Chain packs.now) × Reaches packs.now chain newest }
    ensures { (chain : Chain packs.now) → Reaches packs.now chain newest
        → IfOk result (λ v. v.items ≡ numbers_after after most
        (of_batch chain.batch (take newest (packs_in packs.now chain)))) }
{
    let all = links_at(packs, newest).rank;
    let before = links_at(packs, reach_up_to(packs, newest, after)).rank;
    let count = most.min(all - before);
    let last = reach_of_rank(packs, newest, before + count);
    last_numbers(alloc, packs, last, count)
}

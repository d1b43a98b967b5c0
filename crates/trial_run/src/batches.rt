ghost use Rattle.std.specs.Prelude.{◌≡◌, ◌+◌, ◌*◌, ◌<◌, ◌≤◌, IfOk};
ghost use Rattle.std.specs.Int.{div_ceil};
ghost use Rattle.store_runs.specs.Books.{stored_book};
ghost use Rattle.trial_run.specs.declared.commands.TheConstants.{BATCH_PACKS};
ghost use Rattle.hall_limits.specs.declared.TheConstants.{MAX_TRIAL};
ghost use Rattle.trial_run.specs.Steps.{Asks};
ghost use Rattle.trial_run.specs.TrialScripts.{word_behind, weighings, packs_of_batch, batch_run, batch_commands, batch_places, in_turn};

use crate::asking::{ask_all, ask_one};
use crate::commands::{BATCH_PACKS, close_commands, end_commands, open_commands, weighing};
use crate::names::batch_name;
use crate::samples::{drawn_packs, measure_packs};
use crate::word::following;
use book_store::OneCaller;
use disk_core::Disk;
use std::alloc::Global;
use store_runs::Stop;

// Weighs so many packs of a batch behind a word, and gives the word behind them.
fn weigh_packs<D: Disk>(caller: &mut OneCaller<D>, word: u64, packs: u32) -> Result<u64, Stop>
    requires calm { caller.old.faults ≡ 0 }
    ensures word { IfOk result (λ last. last ≡ word_behind word packs) }
    ensures asks { Asks D.Disk result caller.old caller.new (weighings word packs) }
{
    let mut last = word;
    for place in 0..packs {
        last = following(last);
        ask_one(caller, &weighing(place, last))?;
    }
    Ok(last)
}

// How many packs the batch at a place has.
fn packs_of_batch(count: u32, place: u32) -> u32
    requires begun { place * BATCH_PACKS ≤ count }
    ensures { result ≡ packs_of_batch count place }
{
    BATCH_PACKS.min(count - place * BATCH_PACKS)
}

// Opens the batch at a place, weighs its packs, ends it and draws its sample; gives the word behind
// its packs.
fn fill_batch<D: Disk>(
    caller: &mut OneCaller<D>,
    number: u64,
    count: u32,
    place: u32,
    word: u64,
) -> Result<u64, Stop>
    requires calm { caller.old.faults ≡ 0 }
    requires most { count ≤ MAX_TRIAL }
    requires begun { place * BATCH_PACKS ≤ count }
    requires word { word ≡ word_behind number (place * BATCH_PACKS) }
    ensures word { IfOk result (λ last. last ≡ word_behind word (packs_of_batch count place)) }
    ensures asks { Asks D.Disk result caller.old caller.new (batch_run number count place) }
{
    let batch = batch_name(place);
    ask_all(caller, &open_commands(batch))?;
    let last = weigh_packs(caller, word, packs_of_batch(count, place))?;
    ask_all(caller, &end_commands(number, batch))?;
    Ok(last)
}

// Runs the batch at a place, from its opening to its close, and gives the word behind its packs.
fn ask_batch<D: Disk>(
    alloc: Global,
    caller: &mut OneCaller<D>,
    number: u64,
    count: u32,
    place: u32,
    word: u64,
) -> Result<u64, Stop>
    requires calm { caller.old.faults ≡ 0 }
    requires most { count ≤ MAX_TRIAL }
    requires begun { place * BATCH_PACKS ≤ count }
    requires word { word ≡ word_behind number (place * BATCH_PACKS) }
    ensures word { IfOk result (λ last. last ≡ word_behind word (packs_of_batch count place)) }
    ensures asks { Asks D.Disk result caller.old caller.new
        (batch_commands number count (stored_book caller.old.store) place) }
{
    let last = fill_batch(caller, number, count, place, word)?;
    let packs = drawn_packs(alloc, caller.store().book(), batch_name(place))?;
    measure_packs(caller, packs.as_slice())?;
    ask_all(caller, &close_commands(batch_name(place)))?;
    Ok(last)
}

/// Runs the batches of a trial, one after another.
pub fn ask_batches<D: Disk>(
    alloc: Global,
    caller: &mut OneCaller<D>,
    number: u64,
    count: u32,
) -> Result<(), Stop>
    requires calm { caller.old.faults ≡ 0 }
    requires most { count ≤ MAX_TRIAL }
    ensures asks { Asks D.Disk result caller.old caller.new
        (in_turn (batch_commands number count) (stored_book caller.old.store)
        (batch_places count)) }
{
    let mut word = number;
    for place in 0..count.div_ceil(BATCH_PACKS) {
        word = ask_batch(alloc, caller, number, count, place, word)?;
    }
    Ok(())
}

ghost use Rattle.std.specs.Prelude.{◌≡◌, IfOk, IfErr};
ghost use Rattle.store_runs.specs.declared.stop.Stop.TheVariants as stop;
ghost use Rattle.store_runs.specs.Books.{book_state, stored_book};
ghost use Rattle.trial_run.specs.Steps.{Asks};
ghost use Rattle.trial_run.specs.TrialScripts.{gross_weighed, told_packs, drawn_packs, measure_at, measure_commands, in_turn};

use crate::asking::ask_one;
use crate::commands::hall_command;
use book_core::{Book, BookError};
use book_store::OneCaller;
use book_words::{Act, Answered, Name, Question, Reply};
use disk_core::Disk;
use sample_draw::Picks;
use script_lines::{Command, Verb};
use std::alloc::Global;
use store_runs::Stop;

// The gross at which an act weighs a pack, where it does.
fn gross_weighed(act: &Act) -> Option<i64>
    ensures { result ≡ gross_weighed act.now }
{
    match act {
        Act::Weigh { gross, .. } => Some(*gross),
        _ => None,
    }
}

// The command that measures a pack at the gross that its row records.
fn measure_at(book: &Book, pack: u64) -> Option<Command>
    ensures { result ≡ measure_at book.now.entries pack }
{
    if pack > u64::from(book.len()) {
        return None;
    }
    let number = pack as u32;
    let entry = book.entry(number)?;
    let gross = gross_weighed(&entry.act)?;
    Some(hall_command(Verb::Measure {
        pack: number,
        gross,
        empty: 0,
    }))
}

// Measures a pack at its own gross.
fn measure_pack<D: Disk>(caller: &mut OneCaller<D>, pack: u64) -> Result<(), Stop>
    requires calm { caller.old.faults ≡ 0 }
    ensures asks { Asks D.Disk result caller.old caller.new
        (measure_commands (stored_book caller.old.store) pack) }
{
    match measure_at(caller.store().book(), pack) {
        Some(command) => ask_one(caller, &command),
        None => Ok(()),
    }
}

/// Measures packs, one after another, each at its own gross.
pub fn measure_packs<D: Disk>(caller: &mut OneCaller<D>, packs: &[u64]) -> Result<(), Stop>
    requires calm { caller.old.faults ≡ 0 }
    ensures asks { Asks D.Disk result caller.old caller.new
        (in_turn measure_commands (stored_book caller.old.store) packs.now) }
{
    for pack in packs {
        measure_pack(caller, *pack)?;
    }
    Ok(())
}

// The packs of the first sample that an answer tells.
fn packs_told(alloc: Global, answered: Answered) -> Picks
    ensures { result ≡ told_packs answered.reply }
{
    match answered.reply {
        Reply::SampleIs(view) => view.first,
        _ => Picks::from(Vec::new(alloc)),
    }
}

/// The packs that were drawn from a batch, in drawing order, unless there is no memory for them.
pub fn drawn_packs(alloc: Global, book: &Book, batch: Name) -> Result<Picks, Stop>
    ensures packs { IfOk result (λ packs. packs ≡ drawn_packs (book_state book.now) batch) }
    ensures lacks { IfErr result (λ how. how ≡ stop.NoMemory) }
{
    match book.look(&Question::Sample { batch }) {
        Ok(answered) => Ok(packs_told(alloc, answered)),
        Err(BookError::Refused(_refused)) => Ok(Picks::from(Vec::new(alloc))),
        Err(BookError::NoMemory) => Err(Stop::NoMemory),
    }
}

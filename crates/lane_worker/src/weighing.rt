ghost use Rattle.std.specs.Prelude.{◌≡◌, ◌+◌, ◌<◌, ◌≤◌, ℕ, IfSome, IfOk, OnOk, MatchResult, length};
ghost use Rattle.hall_limits.specs.declared.TheConstants.{MAX_ROWS};
ghost use Rattle.book_words.specs.declared.name.Name.{Name};
ghost use Rattle.lane_worker.specs.Gates.{HasPassed};
ghost use Rattle.lane_worker.specs.declared.types.CellNext.TheVariants.{Gross};
ghost use Rattle.lane_worker.specs.Works.{site, BreaksAt, IsWork};
ghost use Rattle.lane_worker.specs.Steps.{Weighs, HasWeighed, HasEnded, TakesItem, GoesOn, GoesTo, HasRoom, broken_end};

use crate::asking::{ask_act, pack_told};
use crate::ending::WeighingEnd;
use crate::lane::Lane;
use crate::progress::Progress;
use crate::types::CellNext;
use book_words::{Act, AskError, Caller, Prior};
use disk_core::Failed;

// Opens the gate for the pack that passed, if one did.
fn settle<C: Caller, L: Lane>(
    caller: &C,
    lane: &mut L,
    pack: Option<u32>,
    progress: &mut Progress,
) -> Option<WeighingEnd>
    requires passed { IfSome pack (λ number. HasPassed (C.known caller.now).mine number) }
    requires room { progress.old.opened < MAX_ROWS }
    ensures opened { progress.new.opened ≤ progress.old.opened + 1 }
    ensures goes { (first : C) (start : L) (number : ℕ) (batch : Name)
        → HasWeighed (C.later first caller.now) (site C.Caller L.Cell L.Gate first start)
        (site C.Caller L.Cell L.Gate caller.now lane.old) number batch pack progress.old.opened
        → GoesOn (C.later first caller.now) (site C.Caller L.Cell L.Gate first start)
        (site C.Caller L.Cell L.Gate caller.now lane.new) number batch result progress.new }
{
    let Some(pack) = pack else {
        progress.prior = Prior::Nothing;
        return None;
    };
    match lane.lift(caller, pack) {
        Ok(()) => {
            progress.opened += 1;
            progress.prior = Prior::Opened;
            None
        }
        Err(Failed) => {
            progress.prior = Prior::Stayed;
            Some(WeighingEnd::GateFailed)
        }
    }
}

// Asks the book about the gross of a pack, and then opens the gate if the pack passes.
fn weigh_pack<C: Caller, L: Lane>(
    caller: &mut C,
    lane: &mut L,
    number: u8,
    gross: i64,
    progress: &mut Progress,
) -> Result<Option<WeighingEnd>, AskError>
    requires room { progress.old.opened ≤ length (C.known caller.old).seen }
    ensures room { OnOk result (progress.new.opened ≤ length (C.known caller.new).seen) }
    ensures few { length (C.known caller.new).seen ≤ MAX_ROWS }
    ensures grows { OnOk result
        (length (C.known caller.old).seen < length (C.known caller.new).seen) }
    ensures goes { (first : C) (start before : L) (batch : Name)
        → Weighs (C.later first caller.old) (site C.Caller L.Cell L.Gate first start)
        (site C.Caller L.Cell L.Gate caller.old before) number batch progress.old
        → TakesItem (site C.Caller L.Cell L.Gate caller.old before)
        (site C.Caller L.Cell L.Gate caller.old lane.old) (Gross gross)
        → GoesTo (C.later first caller.new) (BreaksAt C.Caller first caller.new)
        (site C.Caller L.Cell L.Gate first start)
        (site C.Caller L.Cell L.Gate caller.new lane.new) number batch result progress.new }
{
    let act = Act::Weigh {
        lane: number,
        gross,
        prior: progress.prior,
    };
    let answered = ask_act(caller, act)?;
    Ok(settle(caller, lane, pack_told(&answered.reply), progress))
}

// Takes the next item of the cell, and weighs it if it is the gross of a pack.
fn weigh_next<C: Caller, L: Lane>(
    caller: &mut C,
    lane: &mut L,
    number: u8,
    progress: &mut Progress,
) -> Result<Option<WeighingEnd>, AskError>
    requires room { progress.old.opened ≤ length (C.known caller.old).seen }
    ensures room { OnOk result (progress.new.opened ≤ length (C.known caller.new).seen) }
    ensures grows { IfOk result (λ ending. HasRoom ending
        (C.known caller.old).seen (C.known caller.new).seen) }
    ensures goes { (first : C) (start : L) (batch : Name)
        → Weighs (C.later first caller.old) (site C.Caller L.Cell L.Gate first start)
        (site C.Caller L.Cell L.Gate caller.old lane.old) number batch progress.old
        → GoesTo (C.later first caller.new) (BreaksAt C.Caller first caller.new)
        (site C.Caller L.Cell L.Gate first start)
        (site C.Caller L.Cell L.Gate caller.new lane.new) number batch result progress.new }
{
    match lane.next() {
        Ok(CellNext::Gross(gross)) => weigh_pack(caller, lane, number, gross, progress),
        Ok(CellNext::Batch { batch, line }) => Ok(Some(WeighingEnd::Change { batch, line })),
        Ok(CellNext::End) => Ok(Some(WeighingEnd::End)),
        Ok(CellNext::Bad { line }) => Ok(Some(WeighingEnd::Bad { line })),
        Ok(CellNext::Spent) => Ok(Some(WeighingEnd::Spent)),
        Err(Failed) => Ok(Some(WeighingEnd::CellFailed)),
    }
}

// Weighs packs until the cell or the gate ends it. Each accepted weighing makes the list longer, and
// no legal list is longer than a book may be.
pub(crate) fn weigh_packs<C: Caller, L: Lane>(
    caller: &mut C,
    lane: &mut L,
    number: u8,
    progress: &mut Progress,
) -> Result<WeighingEnd, AskError>
    requires room { progress.old.opened ≤ length (C.known caller.old).seen }
    ensures goes { (first : C) (start : L) (batch : Name)
        → Weighs (C.later first caller.old) (site C.Caller L.Cell L.Gate first start)
        (site C.Caller L.Cell L.Gate caller.old lane.old) number batch progress.old
        → MatchResult result
        (λ ending. HasEnded (C.later first caller.new) (site C.Caller L.Cell L.Gate first start)
        (site C.Caller L.Cell L.Gate caller.new lane.new) number batch ending progress.new)
        (λ why. IsWork (C.later first caller.new) (BreaksAt C.Caller first caller.new)
        (site C.Caller L.Cell L.Gate first start)
        (site C.Caller L.Cell L.Gate caller.new lane.new) number batch
        (broken_end progress.new.opened why)) }
{
    'weighing: loop {
        if let Some(ending) = weigh_next(caller, lane, number, progress)? {
            return Ok(ending);
        }
    }
}

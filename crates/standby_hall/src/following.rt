ghost use Rattle.std.specs.Prelude.{◌≡◌, ◌+◌, ◌≤◌, ◌⊎◌, true, false, ℕ, List, length, is_none, Err, IfOk, IfErr, OnOk};
ghost use Rattle.book_words.specs.declared.act.Entry.{Entry};
ghost use Rattle.book_store.specs.Stores.{entries_of, held_of, IsSound};
ghost use Rattle.text_streams.specs.Streams.{Stream, input_at};
ghost use Rattle.store_runs.specs.declared.stop.Stop.TheVariants.{Finished};
ghost use Rattle.store_runs.specs.Runs.{Goes, RunGoes, FailsToKeep, SparesDisk};
ghost use Rattle.standby_hall.specs.Shipments.{IsHead};
ghost use Rattle.standby_hall.specs.Following.{ExplainsFollow, shipment_stop, step_behind, result_with};
ghost use Rattle.standby_hall.specs.Rows.{HasReadHead, HasReadAll, FindsHead, StopsInHead, IsBehindHead, IsBeforeEnd};
ghost use Rattle.standby_hall.specs.Several.{ExplainsSeveral, AnswersFollow, ExplainsFollowRun};

use crate::arriving::fill;
use crate::head::{HEAD_BYTES, parse_head};
use crate::rows::follow_row;
use crate::types::{FollowError, FollowStop, ShipHead};
use book_store::Store;
use disk_core::{Disk, Source};
use store_runs::{RunEnd, Stop, keep_snapshot};

// Reads the head of a further shipment; `None` where the input ends before a byte of it.
fn next_head<S: Source>(input: &mut S) -> Result<Option<ShipHead>, FollowStop>
    requires unended { S.ended input.old ≡ false }
    ensures found { IfOk result (FindsHead (input_at S.Source input.old)
        (input_at S.Source input.new)) }
    ensures ended { IfOk result (λ head. S.ended input.new ≡ is_none head) }
    ensures stops { IfErr result (StopsInHead (input_at S.Source input.old)
        (input_at S.Source input.new)) }
{
    let mut bytes = [0; HEAD_BYTES];
    let Ok(count) = fill(input, &mut bytes) else {
        return Err(FollowStop::ReadFault);
    };
    if count == 0 {
        return Ok(None);
    }
    if count < HEAD_BYTES {
        return Err(FollowStop::Head);
    }
    match parse_head(&bytes) {
        Some(head) => Ok(Some(head)),
        None => Err(FollowStop::Head),
    }
}

// Reads the head of the first shipment.
fn first_head<S: Source>(input: &mut S) -> Result<ShipHead, FollowStop>
    requires unended { S.ended input.old ≡ false }
    ensures read { IfOk result (HasReadHead (input_at S.Source input.old)
        (input_at S.Source input.new)) }
    ensures good { IfOk result IsHead }
    ensures unended { OnOk result (S.ended input.new ≡ false) }
    ensures stops { IfErr result (λ stop. (held : List Entry)
        → ExplainsFollow held (input_at S.Source input.old) (input_at S.Source input.new) held
        (Err stop)) }
    ensures inside { IfErr result IsBeforeEnd }
    ensures spares { IfErr result (λ stop. SparesDisk (shipment_stop stop)) }
{
    match next_head(input)? {
        Some(head) => Ok(head),
        None => Err(FollowStop::Head),
    }
}

// Reads the rows that a head told and carries them, one after another.
fn follow_rows<S: Source, D: Disk>(
    store: &mut Store<D>,
    input: &mut S,
    head: &ShipHead,
) -> Result<(), FollowStop>
    requires unended { S.ended input.old ≡ false }
    requires sound { IsSound D.Disk store.old }
    requires good { IsHead head.now }
    requires enough { head.now.passed ≤ length (entries_of store.old) }
    ensures reads { OnOk result ((start : Stream)
        → HasReadHead start (input_at S.Source input.old) head.now
        → HasReadAll start (input_at S.Source input.new) (entries_of store.old)
        (entries_of store.new) head.now) }
    ensures unended { OnOk result (S.ended input.new ≡ false) }
    ensures stops { IfErr result (λ stop. (start : Stream)
        → HasReadHead start (input_at S.Source input.old) head.now
        → ExplainsFollow (entries_of store.old) start (input_at S.Source input.new)
        (entries_of store.new) (Err stop)) }
    ensures behind { IfErr result IsBehindHead }
    ensures inside { IfErr result IsBeforeEnd }
    ensures goes { Goes D.Disk (step_behind result) store.old store.new }
    ensures sound { IsSound D.Disk store.new }
{
    for before in head.passed..head.all {
        follow_row(store, input, before + 1)?;
    }
    Ok(())
}

// Does the same where the book has the rows that were passed over.
fn follow_head<S: Source, D: Disk>(
    store: &mut Store<D>,
    input: &mut S,
    head: &ShipHead,
) -> Result<(), FollowStop>
    requires unended { S.ended input.old ≡ false }
    requires sound { IsSound D.Disk store.old }
    requires good { IsHead head.now }
    ensures reads { OnOk result ((start : Stream)
        → HasReadHead start (input_at S.Source input.old) head.now
        → HasReadAll start (input_at S.Source input.new) (entries_of store.old)
        (entries_of store.new) head.now) }
    ensures unended { OnOk result (S.ended input.new ≡ false) }
    ensures stops { IfErr result (λ stop. (start : Stream)
        → HasReadHead start (input_at S.Source input.old) head.now
        → ExplainsFollow (entries_of store.old) start (input_at S.Source input.new)
        (entries_of store.new) (Err stop)) }
    ensures behind { IfErr result IsBehindHead }
    ensures inside { IfErr result IsBeforeEnd }
    ensures goes { Goes D.Disk (step_behind result) store.old store.new }
    ensures sound { IsSound D.Disk store.new }
{
    let held = store.len();
    if held < head.passed {
        return Err(FollowStop::Gap { row: held + 1 });
    }
    follow_rows(store, input, head)
}

// Sees that the input ends behind the last row of a book with so many.
fn see_end<S: Source>(input: &mut S, head: &ShipHead) -> Result<(), FollowStop>
    requires unended { S.ended input.old ≡ false }
    ensures ended { OnOk result (S.ended input.new ≡ true) }
    ensures explained { (start : Stream) (held rows : List Entry) (adopted : ℕ)
        → HasReadAll start (input_at S.Source input.old) held rows head.now
        → length rows ≡ length held + adopted
        → ExplainsFollow held start (input_at S.Source input.new) rows (result_with adopted result) }
    ensures behind { IfErr result IsBehindHead }
    ensures spares { IfErr result (λ stop. SparesDisk (shipment_stop stop)) }
{
    let mut byte = [0; 1];
    match fill(input, &mut byte) {
        Ok(0) => Ok(()),
        Ok(_) => Err(FollowStop::Extra { all: head.all }),
        Err(_) => Err(FollowStop::ReadFault),
    }
}

/// Reads shipments, at most `most` and one right after another, and brings the book of a store up to
/// each: rows that the book has are compared with those that came, and the rows behind are added as
/// they stand, whatever the limit. A row is stable on the disk before the next one is read, and
/// nothing is read ahead. `Ok` says how many rows were added, and that the input was read to its end,
/// which may come behind each shipment. The rows before a stop stay; and it can be called again with
/// the same shipments or others, whatever stopped it.
///
/// The bytes are judged in their order, and a stop is that of the last shipment read. `Head` comes
/// exactly where its first 16 bytes aren't the head of a shipment; `Gap` where the book has fewer rows
/// than were passed over, with the next that it lacks, whether or not any are to come; `Row` with the
/// first row that is cut, spells no entry, isn't lawful or isn't the book's; `Extra` where a byte
/// follows the last row of the last that may come. The rows that were passed over aren't compared.
/// `ReadFault` and `DiskFault` come only where the input or the disk failed. It takes no memory but for
/// the rows that it adds.
pub fn follow_shipments<S: Source, D: Disk>(
    store: &mut Store<D>,
    input: &mut S,
    most: u32,
) -> Result<u32, FollowStop>
    requires some { 1 ≤ most }
    requires unended { S.ended input.old ≡ false }
    requires sound { IsSound D.Disk store.old }
    ensures explained { ExplainsSeveral most (entries_of store.old) (input_at S.Source input.old)
        (input_at S.Source input.new) (entries_of store.new) result }
    ensures ended { OnOk result (S.ended input.new ≡ true) }
    ensures goes { Goes D.Disk (step_behind result) store.old store.new }
    ensures sound { IsSound D.Disk store.new }
{
    let held = store.len();
    let mut head = first_head(input)?;
    for _earlier in 0..most - 1 {
        follow_head(store, input, &head)?;
        match next_head(input)? {
            Some(next) => head = next,
            None => return Ok(store.len() - held),
        }
    }
    follow_head(store, input, &head)?;
    see_end(input, &head)?;
    Ok(store.len() - held)
}

/// Follows one shipment as `follow_shipments` does, and tells of a stop only what it was.
pub fn follow<S: Source, D: Disk>(store: &mut Store<D>, input: &mut S) -> Result<u32, FollowError>
    requires unended { S.ended input.old ≡ false }
    requires sound { IsSound D.Disk store.old }
    ensures answered { AnswersFollow D.Disk store.old store.new (input_at S.Source input.old)
        (input_at S.Source input.new) result }
    ensures ended { OnOk result (S.ended input.new ≡ true) }
    ensures sound { IsSound D.Disk store.new }
{
    Ok(follow_shipments(store, input, 1)?)
}

// After shipments that came whole, keeps a snapshot where rows were added.
fn end_run<D: Disk>(store: &mut Store<D>) -> Stop
    requires sound { IsSound D.Disk store.old }
    ensures ends { (result ≡ Finished)
        ⊎ FailsToKeep (held_of store.old) (entries_of store.old) result }
    ensures same { entries_of store.new ≡ entries_of store.old }
    ensures goes { RunGoes D.Disk result store.old store.new }
    ensures sound { IsSound D.Disk store.new }
{
    match keep_snapshot(store) {
        Ok(()) => Stop::Finished,
        Err(stop) => stop,
    }
}

/// Follows at most `most` shipments with a store that was just mounted, and then keeps a snapshot where
/// rows were added. A stop of following is one of the run: at line 0 where what came isn't a shipment,
/// at the row that is bad or lacking, at the row behind the last where something follows it.
pub fn follow_run<S: Source, D: Disk>(store: Store<D>, input: &mut S, most: u32) -> RunEnd<D>
    requires some { 1 ≤ most }
    requires unended { S.ended input.old ≡ false }
    requires opened { held_of store ≡ length (entries_of store) }
    requires sound { IsSound D.Disk store }
    ensures explained { ExplainsFollowRun most (entries_of store) (input_at S.Source input.old)
        (input_at S.Source input.new) (entries_of result.store) result.stop }
    ensures goes { RunGoes D.Disk result.stop store result.store }
    ensures sound { IsSound D.Disk result.store }
{
    let mut store = store;
    match follow_shipments(&mut store, input, most) {
        Ok(_) => {
            let stop = end_run(&mut store);
            RunEnd { stop, store }
        }
        Err(why) => RunEnd {
            stop: Stop::from(why),
            store,
        },
    }
}

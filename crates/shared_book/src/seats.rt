//! What an answer makes of the book seat, and of the pass of the caller that asked.
ghost use Rattle.std.specs.Prelude.{◌≡◌, ◌+◌, ◌<◌, ◌++◌, ◌∷◌, [], IfSome, length};
ghost use mathlib.Core.List.{IsPrefix};
ghost use Rattle.hall_limits.specs.declared.TheConstants.{MAX_ROWS};
ghost use Rattle.turn_pass.specs.History.{appended, own};
ghost use Rattle.book_words.specs.Callers.{faults_told};
ghost use Rattle.shared_book.specs.Locked.{next_row, seat_behind, pass_behind};
ghost use Rattle.shared_book.specs.Passes.{noted};

use book_words::{Answered, AskError, Entry};
use std::sync::ledger::Ledger;
use turn_pass::{BookSeat, PassSeat, Turn};

/// Tells the seats an answer, and the entry that the book took down with it, if any. The pass then
/// has seen the whole list, and what it had seen before begins it.
pub fn tell<L: Ledger, M: Ledger>(
    turn: &Turn<Entry, L, M>,
    seat: &mut BookSeat<Entry, L, M>,
    pass: &mut PassSeat<Entry, L, M>,
    new: Option<Entry>,
    given: &Result<Answered, AskError>,
)
    requires turn { (seat.old.table ≡ turn.now.table) × (pass.old.table ≡ turn.now.table) }
    requires history { pass.old.history ≡ seat.old.history }
    requires room { IfSome new (λ _. seat.old.history + length seat.old.list < MAX_ROWS) }
    ensures seat { seat.new ≡ seat_behind pass.old.by new (faults_told given.now) seat.old }
    ensures pass { pass.new ≡ pass_behind new (faults_told given.now) seat.old pass.old }
    ensures seen { IsPrefix pass.old.seen seat.old.list }
{
    match new {
        Some(entry) => enter(turn, seat, pass, entry),
        None => {
            book_fault(seat, pass, given);
            show(turn, seat, pass);
        }
    }
}

// An entry was taken down: it is appended, and becomes the pass's own.
fn enter<L: Ledger, M: Ledger>(
    turn: &Turn<Entry, L, M>,
    seat: &mut BookSeat<Entry, L, M>,
    pass: &mut PassSeat<Entry, L, M>,
    entry: Entry,
)
    requires turn { (seat.old.table ≡ turn.now.table) × (pass.old.table ≡ turn.now.table) }
    requires history { pass.old.history ≡ seat.old.history }
    requires room { seat.old.history + length seat.old.list < MAX_ROWS }
    ensures seat { seat.new
        ≡ record seat.old { list = seat.old.list ++ appended pass.old.by entry ∷ [] } }
    ensures pass { pass.new ≡ record pass.old {
      seen = seat.old.list ++ appended pass.old.by entry ∷ [];
      mine = pass.old.mine ++ own (next_row seat.old) entry ∷ [];
      rows = pass.old.rows + 1;
      notes = noted pass.old.notes 1;
    } }
    ensures seen { IsPrefix pass.old.seen seat.old.list }
{
    let row = seat.append(turn, pass, entry);
    let note = seat.note(turn);
    pass.meet(turn, note);
    pass.see(turn, row, entry);
}

// Nothing was appended: the pass sees the whole list.
fn show<L: Ledger, M: Ledger>(
    turn: &Turn<Entry, L, M>,
    seat: &mut BookSeat<Entry, L, M>,
    pass: &mut PassSeat<Entry, L, M>,
)
    requires turn { (seat.old.table ≡ turn.now.table) × (pass.old.table ≡ turn.now.table) }
    ensures seat { seat.new ≡ seat.old }
    ensures pass { pass.new
        ≡ record pass.old { seen = seat.old.list; notes = noted pass.old.notes 1 } }
    ensures seen { IsPrefix pass.old.seen seat.old.list }
{
    seat.hear(turn, pass);
    let note = seat.note(turn);
    pass.meet(turn, note);
}

// A fault of the disk that is answered is booked for the pass.
fn book_fault<L: Ledger, M: Ledger>(
    seat: &mut BookSeat<Entry, L, M>,
    pass: &mut PassSeat<Entry, L, M>,
    given: &Result<Answered, AskError>,
)
    ensures seat { seat.new
        ≡ record seat.old { faults = seat.old.faults + faults_told given.now } }
    ensures pass { pass.new
        ≡ record pass.old { faults = pass.old.faults + faults_told given.now } }
{
    if let Err(AskError::DiskFault) = given {
        seat.fault(pass);
    }
}

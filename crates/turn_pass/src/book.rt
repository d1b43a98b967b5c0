//! The one seat that appends. It lies under the lock of the book.
ghost use Rattle.std.specs.Prelude.{◌≡◌, ◌≢◌, ℕ, ◌+◌, ◌<◌, ◌^◌, ◌++◌, ◌∷◌, [], All, length};
ghost use Rattle.turn_pass.specs.Whole.{IsClosed};
ghost use Rattle.turn_pass.specs.History.{appended, newcomer, with_pass, note_of, known_of};
ghost use Rattle.turn_pass.specs.History.{StandsAt, HasNoRow, AllBefore, Agrees};
ghost use mathlib.Core.List.{IsPrefix};
ghost use Rattle.turn_pass.specs.Rule.{first_view};
ghost use Rattle.turn_pass.specs.Seats.{book_state};

use crate::closing::{Closing, last_count};
use crate::pass::{Note, PassSeat};
use crate::rule::{Board, Place};
use crate::steps;
use crate::turn::Turn;
use hall_limits::MAX_ROWS;
use std::marker::{Brand, Model};
use std::sync::ledger::{Blank, Book, Ledger, Share};

/// The one seat that appends. It has the whole list of the session, and books accepted rows and
/// answered faults.
#[derive(Drop)]
pub struct BookSeat<E, L: Ledger, M: Ledger> {
    pub(crate) place: Place<E>,
    pub(crate) rows: Book<L>,
    pub(crate) faults: Book<M>,
    pub(crate) row_share: Share<L>,
    pub(crate) fault_share: Share<M>,
    pub(crate) booked: u64,
}

impl<E, L: Ledger, M: Ledger> Model for BookSeat<E, L, M> {
    ghost use Rattle.std.specs.Prelude.{◌≡◌, []};
    ghost use Rattle.turn_pass.specs.History.{BookState};

    ghost Value = { BookState E };

    ghost use Rattle.turn_pass.specs.Seats.{IsBookSeat, IsOwnShare, book_state};

    ghost view = { λ b.
        book_state b.place.table_id b.place.me.0 b.row_share.parts b.fault_share.parts
        b.faults.total };

    ghost invariant = { λ b.
        IsBookSeat b.place.me.0 b.rows.total b.faults.total b.booked
        × (b.place.me.1 ≡ [])
        × IsOwnShare b.row_share.parts b.row_share.amount
        × IsOwnShare b.fault_share.parts b.fault_share.amount };
}

impl<E: Copy, L: Ledger, M: Ledger> BookSeat<E, L, M> {
    pub(crate) fn of(place: Place<E>, rows: Blank, faults: Blank) -> BookSeat<E, L, M>
        requires place { (history : ℕ)
            × (history < 2 ^ 32) × (place.me ≡ (first_view history, [])) }
        requires rows { (rows.name ≡ L.name) × (rows.parts ≡ L.parts) × (0 < rows.parts) }
        requires faults { (faults.name ≡ M.name) × (faults.parts ≡ M.parts) × (0 < faults.parts) }
        ensures { result ≡ book_state place.table_id place.me.0 rows.parts faults.parts 0 }
    {
        let (rows, row_share) = rows.open::<L>();
        let (faults, fault_share) = faults.open::<M>();
        BookSeat {
            place,
            rows,
            faults,
            row_share,
            fault_share,
            booked: 0,
        }
    }

    /// Takes in each pass and closes the table, as `Turn::close` says.
    pub(crate) fn end(self, board: Board<E>, passes: Vec<PassSeat<E, L, M>>) -> (u32, u64)
        requires words { board.shared.table_id.words ≡ 1 }
        requires slots { board.shared.table_id.slots ≡ 0 }
        requires book { self.table ≡ board.shared.table_id }
        requires passes { All (λ p. p.table ≡ board.shared.table_id) passes.items }
        requires all_rows { length passes.items + self.row_parts ≡ L.parts }
        requires all_faults { length passes.items + self.fault_parts ≡ M.parts }
        ensures { IsClosed self passes.items result.0 result.1 }
    {
        let BookSeat {
            place,
            mut rows,
            mut faults,
            row_share,
            fault_share,
            booked,
        } = self;
        let mut closing = Closing {
            place,
            rows: row_share,
            faults: fault_share,
        };
        closing.gather(&board, passes);
        rows.audit(&mut closing.rows);
        faults.audit(&mut closing.faults);
        let Closing { place, .. } = closing;
        (last_count(board, place), booked)
    }

    /// Makes the pass of the caller with the number `by`: it has seen the whole list, and has
    /// nothing of its own yet. It takes one part of each ledger, and one is left to this seat. No
    /// two passes of a Turn have one number.
    pub fn pass(&mut self, turn: &Turn<E, L, M>, by: u16) -> PassSeat<E, L, M>
        requires turn { self.old.table ≡ turn.now.table }
        requires new { All (λ b. b ≢ by) self.old.bys }
        requires parts { (1 < self.old.row_parts) × (1 < self.old.fault_parts) }
        ensures pass { result ≡ newcomer self.old by }
        ensures book { self.new ≡ with_pass self.old by }
    {
        let place = steps::pass::<E, Brand>(&turn.board, &mut self.place, by);
        let rows = self.row_share.split_off(1, 0);
        let faults = self.fault_share.split_off(1, 0);
        PassSeat::of(place, rows, faults, by)
    }

    /// Appends an entry for the caller of this pass, by the one `fetch_add` on the word, and books
    /// it as an accepted row of the pass. It answers the entry's number, from 1: how many rows
    /// there are with it. It shows, as `hear` does, that what the pass had seen begins the list.
    pub fn append(&mut self, turn: &Turn<E, L, M>, pass: &mut PassSeat<E, L, M>, entry: E) -> u32
        requires turn { (self.old.table ≡ turn.now.table) × (pass.old.table ≡ turn.now.table) }
        requires room { self.old.history + length self.old.list < MAX_ROWS }
        ensures number { result ≡ self.old.history + length self.old.list + 1 }
        ensures book { self.new
            ≡ record self.old { list = self.old.list ++ appended pass.old.by entry ∷ [] } }
        ensures pass { pass.new ≡ record pass.old { rows = pass.old.rows + 1 } }
        ensures stands { StandsAt self.new.history self.new.list result
            (appended pass.old.by entry) }
        ensures agrees { Agrees self.old.history self.old.list (known_of pass.old) }
        ensures behind { IsPrefix pass.old.seen self.new.list }
        ensures new { HasNoRow pass.old.mine result }
        ensures last { AllBefore result pass.old.mine }
    {
        self.hear(turn, pass);
        let number = steps::append::<E, Brand>(&turn.board, &mut self.place, pass.by(), entry);
        self.rows.add(&mut pass.rows, 1);
        number as u32 + 1
    }

    /// Books a fault that is answered to the caller of this pass. It is no step on the word, and
    /// appends nothing.
    pub fn fault(&mut self, pass: &mut PassSeat<E, L, M>)
        ensures book { self.new ≡ record self.old { faults = self.old.faults + 1 } }
        ensures pass { pass.new ≡ record pass.old { faults = pass.old.faults + 1 } }
    {
        self.faults.add(&mut pass.faults, 1);
        self.booked = self.booked.saturating_add(1);
    }

    /// A note of the whole list, for a pass to meet.
    pub fn note(&mut self, turn: &Turn<E, L, M>) -> Note<E>
        requires turn { self.old.table ≡ turn.now.table }
        ensures note { result ≡ note_of self.old }
        ensures book { self.new ≡ self.old }
    {
        Note {
            place: steps::note(&turn.board, &mut self.place),
        }
    }

    /// Hears what a pass knows, and changes nothing. It shows that what the pass has seen begins
    /// the list and that its own entries stand there. An answer that appends nothing begins with
    /// it: the pass then meets a note of the whole list, and so what it had seen begins what it
    /// sees.
    pub fn hear(&mut self, turn: &Turn<E, L, M>, pass: &mut PassSeat<E, L, M>)
        requires turn { (self.old.table ≡ turn.now.table) × (pass.old.table ≡ turn.now.table) }
        ensures agrees { Agrees self.old.history self.old.list (known_of pass.old) }
        ensures book { self.new ≡ self.old }
        ensures pass { pass.new ≡ pass.old }
    {
        let note = steps::note(&turn.board, &mut pass.place);
        steps::hear(&turn.board, &mut self.place, note);
        steps::look(&turn.board, &mut self.place);
    }
}

//! What a caller holds: its pass, and the notes that it meets.
ghost use Rattle.std.specs.Prelude.{◌≡◌, ◌≢◌, ◌+◌, ◌-◌, ◌^◌, ◌++◌, ◌∷◌, [], min, All};
ghost use Rattle.turn_pass.specs.Seats.{IsOf, SitsAt, pass_state};
ghost use Rattle.turn_pass.specs.Rule.{with_ended};
ghost use mathlib.Core.List.{IsPrefix};
ghost use Rattle.turn_pass.specs.declared.rule.Role.TheVariants.{Book, Pass};
ghost use Rattle.turn_pass.specs.History.{appended, own, longer, known_of};
ghost use Rattle.turn_pass.specs.History.{StandsAt, HasNoRow, AllBefore, Agrees, with_own};

use crate::closing::Closing;
use crate::rule::{Board, Place};
use crate::steps;
use crate::turn::Turn;
use std::marker::{Brand, Model};
use std::sync::ledger::{Ledger, Share};

/// One caller's pass: what it has seen of the list, its own entries in it, what was booked for it,
/// and how many notes it took in.
#[derive(Drop)]
pub struct PassSeat<E, L: Ledger, M: Ledger> {
    pub(crate) place: Place<E>,
    pub(crate) rows: Share<L>,
    pub(crate) faults: Share<M>,
    by: u16,
    notes: u64,
}

impl<E, L: Ledger, M: Ledger> Model for PassSeat<E, L, M> {
    ghost use Rattle.std.specs.Prelude.{◌≡◌, []};
    ghost use Rattle.turn_pass.specs.History.{PassState};

    ghost Value = { PassState E };

    ghost use Rattle.turn_pass.specs.declared.rule.Role.TheVariants.{Pass};
    ghost use Rattle.turn_pass.specs.Seats.{pass_state};

    ghost view = { λ p.
        pass_state p.place.table_id p.place.me.0 p.rows.amount p.faults.amount p.notes };

    ghost invariant = { λ p.
        (p.place.me.0.role ≡ Pass)
        × (p.place.me.1 ≡ [])
        × (p.by ≡ p.place.me.0.known.by)
        × (p.rows.parts ≡ 1)
        × (p.faults.parts ≡ 1) };
}

/// The list as it was at one moment, on its way from the book seat to a pass.
#[derive(Drop)]
pub struct Note<E> {
    pub(crate) place: Place<E>,
}

impl<E> Model for Note<E> {
    ghost use Rattle.std.specs.Prelude.{◌≡◌, []};
    ghost use Rattle.turn_pass.specs.History.{NoteState};

    ghost Value = { NoteState E };

    ghost use Rattle.turn_pass.specs.declared.rule.Role.TheVariants.{Note};

    ghost view = { λ n. record { table = n.place.table_id; seen = n.place.me.0.known.seen } };

    ghost invariant = { λ n. (n.place.me.0.role ≡ Note) × (n.place.me.1 ≡ []) };
}

impl<E: Copy, L: Ledger, M: Ledger> PassSeat<E, L, M> {
    pub(crate) fn of(
        place: Place<E>,
        rows: Share<L>,
        faults: Share<M>,
        by: u16,
    ) -> PassSeat<E, L, M>
        requires place { (place.me.0.role ≡ Pass) × (place.me.1 ≡ []) × (place.me.0.known.by ≡ by) }
        requires parts { (rows.parts ≡ 1) × (faults.parts ≡ 1) }
        ensures { result ≡ pass_state place.table_id place.me.0 rows.amount faults.amount 0 }
    {
        PassSeat {
            place,
            rows,
            faults,
            by,
            notes: 0,
        }
    }

    /// The pass is joined to the book seat, and its parts to the seat's own.
    pub(crate) fn end(self, board: &Board<E>, closing: &mut Closing<E, L, M>)
        requires book { IsOf board.now.shared.table_id closing.old.place }
        requires role { closing.old.place.me.0.role ≡ Book }
        requires pass { self.table ≡ board.now.shared.table_id }
        ensures place { SitsAt closing.old.place.table_id
            (with_ended (known_of self ∷ []) closing.old.place.me.0) closing.new.place }
        ensures row_parts { closing.new.rows.parts ≡ closing.old.rows.parts + 1 }
        ensures rows { closing.new.rows.amount ≡ closing.old.rows.amount + self.rows }
        ensures fault_parts { closing.new.faults.parts ≡ closing.old.faults.parts + 1 }
        ensures faults { closing.new.faults.amount ≡ closing.old.faults.amount + self.faults }
    {
        let PassSeat {
            place,
            rows,
            faults,
            by: _,
            notes: _,
        } = self;
        steps::end(board, &mut closing.place, place);
        closing.rows.merge(rows);
        closing.faults.merge(faults);
    }

    /// The number that its entries bear. No call changes it.
    pub fn by(&self) -> u16
        ensures { result ≡ self.now.by }
    {
        self.by
    }

    /// Takes in a note, and counts it. What the pass has seen becomes the note's list, or stays as
    /// it is where that is shorter. Of the two the longer begins with the shorter.
    pub fn meet(&mut self, turn: &Turn<E, L, M>, note: Note<E>)
        requires turn { (self.old.table ≡ turn.now.table) × (note.table ≡ turn.now.table) }
        ensures pass { self.new ≡ record self.old {
          seen = longer self.old.seen note.seen;
          notes = min (self.old.notes + 1) (2 ^ 64 - 1);
        } }
        ensures grows { IsPrefix self.old.seen self.new.seen }
        ensures met { IsPrefix note.seen self.new.seen }
        ensures later { IsPrefix self.old.seen note.seen → self.new.seen ≡ note.seen }
    {
        steps::meet(&turn.board, &mut self.place, note.place);
        steps::look(&turn.board, &mut self.place);
        self.notes = self.notes.saturating_add(1);
    }

    /// Makes the entry at this number one of the pass's own, by one load of the word. It was
    /// appended for this pass, and the pass has seen it. Own entries ascend by their numbers: one
    /// that was appended after all others becomes the last.
    pub fn see(&mut self, turn: &Turn<E, L, M>, row: u32, entry: E)
        requires turn { self.old.table ≡ turn.now.table }
        requires stands { StandsAt self.old.history self.old.seen row (appended self.old.by entry) }
        requires new { HasNoRow self.old.mine row }
        ensures pass { self.new
            ≡ record self.old { mine = with_own self.old.mine (own row entry) } }
        ensures last { AllBefore row self.old.mine
            → self.new ≡ record self.old { mine = self.old.mine ++ own row entry ∷ [] } }
        ensures agrees { Agrees self.new.history self.new.seen (known_of self.new) }
    {
        steps::see::<E, Brand>(&turn.board, &mut self.place, row, entry);
    }
}

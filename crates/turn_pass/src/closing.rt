//! The end of a session: the passes come back, and the word gives its last count.
ghost use Rattle.std.specs.Prelude.{◌≡◌, ◌≢◌, ◌+◌, ◌<◌, ◌^◌, ◌∷◌, [], All, AllPairs, length, map};
ghost use Rattle.std.specs.List.{sum_by};
ghost use Rattle.turn_pass.specs.declared.rule.Role.TheVariants.{Book};
ghost use Rattle.turn_pass.specs.History.{known_of, Agrees};
ghost use Rattle.turn_pass.specs.Rule.{with_ended};
ghost use Rattle.turn_pass.specs.Seats.{IsOf, SitsAt};

use crate::pass::PassSeat;
use crate::rule::{Board, Place};
use std::sync::ledger::{Ledger, Share};

/// The book seat's place, and its shares of the two ledgers, as the passes come back to it.
#[derive(Drop)]
pub(crate) struct Closing<E, L: Ledger, M: Ledger> {
    pub(crate) place: Place<E>,
    pub(crate) rows: Share<L>,
    pub(crate) faults: Share<M>,
}

impl<E: Copy, L: Ledger, M: Ledger> Closing<E, L, M> {
    /// Ends each of the passes.
    pub(crate) fn gather(&mut self, board: &Board<E>, mut passes: Vec<PassSeat<E, L, M>>)
        requires book { IsOf board.now.shared.table_id self.old.place }
        requires role { self.old.place.me.0.role ≡ Book }
        requires passes { All (λ p. p.table ≡ board.now.shared.table_id) passes.items }
        ensures place { SitsAt self.old.place.table_id
            (with_ended (map known_of passes.items) self.old.place.me.0) self.new.place }
        ensures row_parts { self.new.rows.parts ≡ length passes.items + self.old.rows.parts }
        ensures rows { self.new.rows.amount
            ≡ sum_by (λ p. p.rows) passes.items + self.old.rows.amount }
        ensures fault_parts { self.new.faults.parts ≡ length passes.items + self.old.faults.parts }
        ensures faults { self.new.faults.amount
            ≡ sum_by (λ p. p.faults) passes.items + self.old.faults.amount }
    {
        while let Some(pass) = passes.pop() {
            pass.end(board, self);
        }
    }
}

/// What the word has at last, and what the rule says of the book seat's view then.
pub(crate) fn last_count<E>(board: Board<E>, place: Place<E>) -> u32
    requires of { IsOf board.shared.table_id place }
    requires book { place.me.0.role ≡ Book }
    requires room { place.me.0.history + length place.me.0.known.seen < 2 ^ 32 }
    ensures count { result ≡ place.me.0.history + length place.me.0.known.seen }
    ensures ended { All (Agrees place.me.0.history place.me.0.known.seen) place.me.0.ended }
    ensures apart { AllPairs (λ j k. j.by ≢ k.by) place.me.0.ended }
{
    let closed = board.close_with(place);
    let count = closed.word(0);
    closed.free();
    count as u32
}

//! A caller of the book: its pass.
use crate::session::Session;
use crate::shared::Shared;
use book_words::{Answered, Ask, AskError, Caller, Entry};
use disk_core::Disk;
use std::marker::Model;
use std::sync::Wait;
use std::sync::ledger::Ledger;
use turn_pass::PassSeat;

/// What a pass leaves as it ends, and what it is made of: the seat of its caller.
pub type PassEnd<L, M> = PassSeat<Entry, L, M>;

/// A caller of a shared book, beside others.
pub struct Pass<'a, D: Disk, R: Wait, L: Ledger, M: Ledger, N: Session> {
    shared: &'a Shared<D, L, M, N>,
    rt: &'a R,
    seat: PassEnd<L, M>,
}

impl<'a, D: Disk, R: Wait, L: Ledger, M: Ledger, N: Session> Model for Pass<'a, D, R, L, M, N> {
    ghost use Rattle.turn_pass.specs.History.{PassState};
    ghost use Rattle.book_words.specs.declared.act.Entry.{Entry};

    ghost Value = { PassState Entry };

    ghost use Rattle.shared_book.specs.Passes.{IsPassOf};

    ghost view = { λ p. p.seat };

    ghost invariant = { λ p. IsPassOf N.Session p.seat };
}

impl<'a, D: Disk, R: Wait, L: Ledger, M: Ledger, N: Session> Pass<'a, D, R, L, M, N> {
    ghost use Rattle.std.specs.Prelude.{◌≡◌};
    ghost use Rattle.shared_book.specs.Passes.{IsPassOf};

    pub(crate) fn of(
        shared: &'a Shared<D, L, M, N>,
        rt: &'a R,
        seat: PassEnd<L, M>,
    ) -> Pass<'a, D, R, L, M, N>
        requires seat { IsPassOf N.Session seat }
        ensures { result ≡ seat }
    {
        Pass { shared, rt, seat }
    }

    /// Ends the pass. Its seat goes back to `Shared::close`.
    pub fn end(self) -> PassEnd<L, M>
        ensures seat { result ≡ self.entry }
        ensures pass { IsPassOf N.Session result }
    {
        let Pass {
            shared: _,
            rt: _,
            seat,
        } = self;
        seat
    }
}

impl<'a, D: Disk, R: Wait, L: Ledger, M: Ledger, N: Session> Caller for Pass<'a, D, R, L, M, N> {
    ghost use Rattle.std.specs.Prelude.{◌≡◌, ◌+◌, ◌≤◌, [], ◌∷◌, Err, true, length};
    ghost use Rattle.book_words.specs.Callers.{IsAsked, faults_told};
    ghost use Rattle.book_words.specs.declared.caller.AskError.TheVariants as error;
    ghost use Rattle.shared_book.specs.Sessions.{weighs};
    ghost use Rattle.shared_book.specs.Passes.{known_of, room_of, IsReachedBy};
    ghost use Rattle.shared_book.specs.PassLaws.{is_reached};

    ghost known = { λ pass. known_of N.Session pass };

    ghost later = { λ old new asks. IsReachedBy N.Session old new asks };

    /// Asks the book, as soon as nobody else asks. The answer is the book's over the list of then,
    /// which the pass has seen afterwards: what it had seen before begins it, and an entry that was
    /// added stands behind it. The ask is counted. A fault of the disk is booked for this pass. A weighing
    /// finds no memory only where the session has taken down as many rows as there was room for as
    /// it began.
    fn ask(&mut self, ask: &Ask) -> Result<Answered, AskError>
        ensures asked { IsAsked (known_of N.Session self.old) (known_of N.Session self.new)
            ask.now result }
        ensures later { IsReachedBy N.Session self.old self.new (ask.now ∷ []) }
        ensures room { result ≡ Err error.NoMemory → weighs ask.now.want ≡ true
            → room_of N.Session ≤ length (known_of N.Session self.new).seen }
        ensures booked { self.new.faults ≡ self.old.faults + faults_told result }
    {
        self.shared.ask(self.rt, &mut self.seat, ask)
    }

    ghost reached = { is_reached N.Session };
}

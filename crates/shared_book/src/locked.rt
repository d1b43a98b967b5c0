//! What lies under the lock: the store of a session, and the seat that appends.
use crate::held::HeldStore;
use crate::seats;
use crate::session::Session;
use book_store::Store;
use book_words::{Answered, Ask, AskError, Entry};
use disk_core::Disk;
use std::marker::Model;
use std::sync::ledger::Ledger;
use turn_pass::{BookSeat, PassSeat, Turn};

/// The store with its book seat. Whenever the lock is free the store keeps what `IsKeptSince` says,
/// and the seat what `KeepsSeat` says.
pub struct LockedBook<D: Disk, L: Ledger, M: Ledger, N: Session> {
    held: HeldStore<D, N>,
    seat: BookSeat<Entry, L, M>,
}

impl<D: Disk, L: Ledger, M: Ledger, N: Session> Model for LockedBook<D, L, M, N> {
    ghost use Rattle.shared_book.specs.Locked.{LockedView, KeepsSeat};

    ghost Value = { LockedView D };

    ghost view = { λ b. record { store = b.held; seat = b.seat } };

    ghost invariant = { λ b. KeepsSeat D.Disk N.Session b.held b.seat };
}

impl<D: Disk, L: Ledger, M: Ledger, N: Session> LockedBook<D, L, M, N> {
    ghost use Rattle.std.specs.Prelude.{◌≡◌, ◌+◌, ◌≤◌, Err, true, length};
    ghost use Rattle.book_words.specs.Callers.{IsAsked, faults_told};
    ghost use Rattle.book_words.specs.declared.caller.AskError.TheVariants as error;
    ghost use Rattle.book_words.specs.Answers.{added};
    ghost use Rattle.book_store.specs.Stores.{entries_of, IsSound};
    ghost use Rattle.book_store.specs.Offers.{Offers};
    ghost use Rattle.shared_book.specs.Sessions.{Begins, IsKeptSince, weighs};
    ghost use Rattle.shared_book.specs.Locked.{KeepsSeat, IsNewSeat};
    ghost use Rattle.shared_book.specs.Passes.{IsPassOf, HasUsedRoom, known_of, noted, room_of};

    /// The book of a new session, all of whose passes were made.
    pub fn new(store: Store<D>, seat: BookSeat<Entry, L, M>) -> LockedBook<D, L, M, N>
        requires sound { IsSound D.Disk store }
        requires begins { Begins D.Disk N.Session store }
        requires seat { IsNewSeat N.Session seat }
        ensures store { result.store ≡ store }
        ensures seat { result.seat ≡ seat }
    {
        LockedBook {
            held: HeldStore::new(store),
            seat,
        }
    }

    /// Answers an ask of the caller of this pass, as `Pass::ask` says. A crash at any moment of the
    /// call leaves the rows before it, and at most the entry that is offered or the one that hung
    /// besides.
    pub fn ask(
        &mut self,
        turn: &Turn<Entry, L, M>,
        pass: &mut PassSeat<Entry, L, M>,
        ask: &Ask,
    ) -> Result<Answered, AskError>
        requires turn { turn.now.table ≡ N.table }
        requires pass { IsPassOf N.Session pass.old }
        ensures asked { IsAsked (known_of N.Session pass.old) (known_of N.Session pass.new)
            ask.now result }
        ensures room { result ≡ Err error.NoMemory → weighs ask.now.want ≡ true
            → room_of N.Session ≤ length (known_of N.Session pass.new).seen }
        ensures used { HasUsedRoom (room_of N.Session) (known_of N.Session pass.old)
            (known_of N.Session pass.new) ask.now }
        ensures noted { pass.new.notes ≡ noted pass.old.notes 1 }
        ensures booked { pass.new.faults ≡ pass.old.faults + faults_told result }
        ensures offers { Offers D.Disk
            (added N.limit (entries_of self.old.store) pass.old.by ask.now)
            self.old.store self.new.store }
        ensures pass { IsPassOf N.Session pass.new }
    {
        let next = self.held.len() + 1;
        let given = self.held.ask(pass.by(), ask);
        let new = self.held.entry(next);
        seats::tell(turn, &mut self.seat, pass, new, &given);
        given
    }

    /// The store and the seat, as the session ends.
    pub fn into_parts(self) -> (Store<D>, BookSeat<Entry, L, M>)
        ensures store { result.0 ≡ self.store }
        ensures seat { result.1 ≡ self.seat }
        ensures kept { IsKeptSince D.Disk N.Session result.0 }
        ensures keeps { KeepsSeat D.Disk N.Session result.0 result.1 }
    {
        let LockedBook { held, seat } = self;
        (held.into_store(), seat)
    }
}

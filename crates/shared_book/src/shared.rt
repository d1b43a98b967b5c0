//! The book that all passes of a session share.
use crate::locked::LockedBook;
use crate::pass::{Pass, PassEnd};
use crate::session::Session;
use book_store::Store;
use book_words::{Answered, Ask, AskError, Entry};
use disk_core::Disk;
use std::marker::Model;
use std::sync::ledger::Ledger;
use std::sync::{Mutex, Wait};
use turn_pass::{BookSeat, Turn};

/// A book under one lock, and the Turn of its session. `L` is the ledger of accepted rows, `M` that
/// of answered faults.
pub struct Shared<D: Disk, L: Ledger, M: Ledger, N: Session> {
    turn: Turn<Entry, L, M>,
    book: Mutex<LockedBook<D, L, M, N>>,
}

impl<D: Disk, L: Ledger, M: Ledger, N: Session> Model for Shared<D, L, M, N> {
    ghost use Rattle.turn_pass.specs.History.{TurnState};
    ghost use Rattle.shared_book.specs.Passes.{IsTurnOf};

    ghost Value = { TurnState };

    ghost view = { λ s. s.turn };

    ghost invariant = { λ s. IsTurnOf N.Session s.turn };
}

/// What a session leaves: the store, and how many faults of the disk its passes were answered, up
/// to the greatest number of 64 bits.
pub struct Closed<D: Disk> {
    pub store: Store<D>,
    pub faults: u64,
}

impl<D: Disk, L: Ledger, M: Ledger, N: Session> Shared<D, L, M, N> {
    ghost use Rattle.std.specs.Prelude.{◌≡◌, ◌+◌, ◌-◌, ◌^◌, ◌<◌, ◌≤◌, ℕ, List, Err, true, All, length, min};
    ghost use Rattle.std.specs.List.{sum_by};
    ghost use Rattle.device_facts.specs.Count.{Counted};
    ghost use Rattle.book_words.specs.declared.act.Entry.{Entry as Entered};
    ghost use Rattle.book_words.specs.Callers.{IsAsked, faults_told};
    ghost use Rattle.book_words.specs.declared.caller.AskError.TheVariants as error;
    ghost use Rattle.book_store.specs.declared.store.Store.{Store as Stored};
    ghost use Rattle.book_store.specs.Stores.{disk_of, entries_of, IsSound};
    ghost use Rattle.shared_book.specs.Sessions.{Begins, IsKeptSince, KeepsRun, RestsOnDisk, weighs};
    ghost use Rattle.shared_book.specs.Locked.{IsNewSeat};
    ghost use Rattle.shared_book.specs.Passes.{IsPassOf, IsTurnOf, HasUsedRoom, known_of, noted, room_of};
    ghost use Rattle.shared_book.specs.Closing.{MakeRows, IsCalm};

    /// Begins a session with this store, in which nothing hangs. The Turn was begun behind the
    /// store's rows, its book seat has appended and booked nothing, and all passes of the session
    /// were made: it has one part of each ledger left. Takes no memory.
    pub fn new(
        store: Store<D>,
        turn: Turn<Entry, L, M>,
        seat: BookSeat<Entry, L, M>,
    ) -> Shared<D, L, M, N>
        requires sound { IsSound D.Disk store }
        requires begins { Begins D.Disk N.Session store }
        requires turn { IsTurnOf N.Session turn }
        requires seat { IsNewSeat N.Session seat }
        ensures { result ≡ turn }
    {
        Shared {
            turn,
            book: Mutex::new(LockedBook::new(store, seat)),
        }
    }

    /// The caller whose seat this is. Neither waits nor takes memory.
    pub fn pass<'a, R: Wait>(&'a self, rt: &'a R, seat: PassEnd<L, M>) -> Pass<'a, D, R, L, M, N>
        requires seat { IsPassOf N.Session seat }
        ensures { result ≡ seat }
    {
        Pass::of(self, rt, seat)
    }

    /// Takes the lock, and answers an ask of the caller of this pass.
    pub(crate) fn ask<R: Wait>(
        &self,
        rt: &R,
        pass: &mut PassEnd<L, M>,
        ask: &Ask,
    ) -> Result<Answered, AskError>
        requires pass { IsPassOf N.Session pass.old }
        ensures asked { IsAsked (known_of N.Session pass.old) (known_of N.Session pass.new)
            ask.now result }
        ensures room { result ≡ Err error.NoMemory → weighs ask.now.want ≡ true
            → room_of N.Session ≤ length (known_of N.Session pass.new).seen }
        ensures used { HasUsedRoom (room_of N.Session) (known_of N.Session pass.old)
            (known_of N.Session pass.new) ask.now }
        ensures noted { pass.new.notes ≡ noted pass.old.notes 1 }
        ensures booked { pass.new.faults ≡ pass.old.faults + faults_told result }
        ensures pass { IsPassOf N.Session pass.new }
    {
        self.book.lock(rt).ask(&self.turn, pass, ask)
    }

    /// Ends the session once every pass that was made has come back, which the parts of the ledgers
    /// show. The rows of the store are those of before and behind them the own rows of the passes,
    /// and no others. The faults that were answered are those of the disk since the session began.
    /// What a crash may leave is kept since then, and with it what a whole run kept before. Takes no
    /// memory.
    pub fn close(self, ends: Vec<PassEnd<L, M>>) -> Closed<D>
        requires ends { All (IsPassOf N.Session) ends.items }
        requires all_rows { length ends.items + 1 ≡ L.parts }
        requires all_faults { length ends.items + 1 ≡ M.parts }
        ensures rows { MakeRows N.before (entries_of result.store) ends.items }
        ensures counted { 0 < sum_by (λ p. p.faults) ends.items
            → Counted N.faults (D.faults (disk_of result.store))
            (sum_by (λ p. p.faults) ends.items) }
        ensures calm { sum_by (λ p. p.faults) ends.items ≡ 0
            → IsCalm D.Disk N.Session result.store }
        ensures faults { result.faults ≡ min (sum_by (λ p. p.faults) ends.items) (2 ^ 64 - 1) }
        ensures kept { IsKeptSince D.Disk N.Session result.store }
        ensures run { (held : List Entered) (start : D) (first : Stored D)
            → Begins D.Disk N.Session first → RestsOnDisk D.Disk first
            → KeepsRun D.Disk held start first → KeepsRun D.Disk held start result.store }
    {
        let Shared { turn, book } = self;
        let (store, seat) = book.into_inner().into_parts();
        let (_, faults) = turn.close(seat, ends);
        Closed { store, faults }
    }
}

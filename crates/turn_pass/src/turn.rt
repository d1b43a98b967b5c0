//! The session's word, from its first row to its close.
ghost use Rattle.std.specs.Prelude.{◌≡◌, ◌≢◌, ◌+◌, ◌-◌, ◌^◌, ◌<◌, min, length, All, AllPairs, IfOk};
ghost use Rattle.std.specs.List.{sum_by};
ghost use Rattle.turn_pass.specs.History.{opening, known_of, Agrees};
ghost use Rattle.turn_pass.specs.Whole.{MakeAll};

use crate::book::BookSeat;
use crate::pass::PassSeat;
use crate::rule::Board;
use crate::steps;
use std::alloc::{AllocError, Global};
use std::marker::{Model, PhantomData};
use std::sync::ledger::{Blank, Ledger};

/// The answer for want of memory.
pub type NoMemory = AllocError;

/// The one word that all seats of a session share: how many rows there are. `L` is the ledger of
/// accepted rows, `M` that of answered faults.
#[derive(Drop)]
pub struct Turn<E, L: Ledger, M: Ledger> {
    pub(crate) board: Board<E>,
    of: PhantomData<(L, M)>,
}

impl<E, L: Ledger, M: Ledger> Model for Turn<E, L, M> {
    ghost use Rattle.std.specs.Prelude.{◌≡◌};
    ghost use Rattle.turn_pass.specs.History.{TurnState};

    ghost Value = { TurnState };

    ghost view = { λ t. record { table = t.board.shared.table_id; history = t.board.shared.key } };

    ghost invariant = { λ t.
        (t.board.shared.table_id.words ≡ 1) × (t.board.shared.table_id.slots ≡ 0) };
}

impl<E: Copy, L: Ledger, M: Ledger> Turn<E, L, M> {
    /// Begins a session after `history` rows. Each blank opens one of the two ledgers: `rows`
    /// counts accepted rows, `faults` answered faults. A blank has one part for the book seat and
    /// one for each pass that will be made. This is the only call that takes memory.
    pub fn begin(
        alloc: Global,
        history: u32,
        rows: Blank,
        faults: Blank,
    ) -> Result<(Turn<E, L, M>, BookSeat<E, L, M>), NoMemory>
        requires rows { (rows.name ≡ L.name) × (rows.parts ≡ L.parts) × (0 < rows.parts) }
        requires faults { (faults.name ≡ M.name) × (faults.parts ≡ M.parts) × (0 < faults.parts) }
        ensures turn { IfOk result (λ r. r.0.history ≡ history) }
        ensures book { IfOk result (λ r. r.1 ≡ opening r.0 rows.parts faults.parts) }
    {
        let (board, place) = steps::open(alloc, history)?;
        let turn = Turn {
            board,
            of: PhantomData,
        };
        Ok((turn, BookSeat::of(place, rows, faults)))
    }

    /// Ends the session once every pass that was made has come back, which the parts of the ledgers
    /// show. It answers the final number of rows, as the word has it, and how many faults were
    /// booked; that count stays at 2^64 - 1 once it is there. What each pass has seen begins the
    /// final list, and where each has as many entries of its own as were booked for it, the passes
    /// make the list together: nothing was lost, and there is no entry of anyone else.
    pub fn close(self, book: BookSeat<E, L, M>, passes: Vec<PassSeat<E, L, M>>) -> (u32, u64)
        requires book { book.table ≡ self.table }
        requires passes { All (λ p. p.table ≡ self.table) passes.items }
        requires all_rows { length passes.items + book.row_parts ≡ L.parts }
        requires all_faults { length passes.items + book.fault_parts ≡ M.parts }
        ensures count { result.0 ≡ book.history + length book.list }
        ensures faults { result.1 ≡ min book.faults (2 ^ 64 - 1) }
        ensures rows_booked { sum_by (λ p. p.rows) passes.items ≡ length book.list }
        ensures faults_booked { sum_by (λ p. p.faults) passes.items ≡ book.faults }
        ensures agree { All (λ p. Agrees book.history book.list (known_of p)) passes.items }
        ensures apart { AllPairs (λ p q. p.by ≢ q.by) passes.items }
        ensures whole { All (λ p. p.rows ≡ length p.mine) passes.items
            → MakeAll book.history book.list passes.items }
    {
        let Turn { board, of: _ } = self;
        book.end(board, passes)
    }
}

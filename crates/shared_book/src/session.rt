//! The names of a session.
use std::marker::Brand;

/// Which session it is. Each call of a program picks it, as the session begins. Its names stand for
/// contracts alone: what lies under a lock and what each caller holds speak of one session by them.
pub trait Session {
    ghost use Rattle.std.specs.Prelude.{ℕ, List, Option};
    ghost use Rattle.turn_pass.specs.History.{TableId};
    ghost use Rattle.book_words.specs.declared.act.Entry.{Entry};

    /// The table of its Turn.
    ghost table: { TableId };

    /// The rows before it.
    ghost before: { List Entry };

    /// The most rows of its book.
    ghost limit: { ℕ };

    /// For how many rows there was room.
    ghost spare: { ℕ };

    /// How many rows the disk held as it was mounted.
    ghost held: { ℕ };

    /// The time of the disk.
    ghost start: { ℕ };

    /// The disk's count of faults.
    ghost faults: { ℕ };

    /// What its disk reads, where it tells.
    ghost reads: { Option (List ℕ) };

    /// What a crash since each earlier time may have left.
    ghost past: { ℕ → List ℕ → Type 0 };

    /// That the disk has the book, and each crash leaves it.
    ghost rests: { Type 0 };
}

impl Session for Brand {
    ghost use Rattle.std.specs.Prelude.{[], ⊤, None};
    ghost use Rattle.turn_pass.specs.History.{no_table};

    ghost table = { no_table };

    ghost before = { [] };

    ghost limit = { 0 };

    ghost spare = { 0 };

    ghost held = { 0 };

    ghost start = { 0 };

    ghost faults = { 0 };

    ghost reads = { None };

    ghost past = { λ t c. ⊤ };

    ghost rests = { ⊤ };
}

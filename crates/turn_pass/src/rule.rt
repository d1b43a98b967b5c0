//! The rule of the one word, and what its steps show.
use crate::entries::{Appended, Known, Own};
use atomic_table::{Join, Play, Seat, Split, Table, TableRule};
use std::alloc::Global;
use std::collections::LinkedList;
use std::marker::{Brand, PhantomData};

/// What a seat of the table is. A spent one was joined to another.
pub enum Role {
    Book,
    Pass,
    Note,
    Spent,
}

/// What a seat knows. No value of it is made.
pub struct View<E> {
    pub role: Role,
    pub history: u32,
    pub known: Known<E>,
    /// The numbers of all passes: the book seat's alone.
    pub bys: LinkedList<u16>,
    /// What was joined last. The next load or append shows that it is part of what the seat has
    /// seen.
    pub heard: LinkedList<Known<E>>,
    /// What each pass knew that has ended: the book seat's alone.
    pub ended: LinkedList<Known<E>>,
}

/// The law that the word and the seats keep.
pub struct Law;

impl<E> TableRule<(), View<E>, u32> for Law {
    ghost use Rattle.turn_pass.specs.Rule.{IsKept, first_view};

    ghost holds = { IsKept };

    ghost first = { first_view };
}

/// The table of the one word.
pub type Board<E> = Table<(), View<E>, u32, Law, Global>;

/// A seat at the table, and what it knows.
pub type Place<E> = Seat<(), View<E>>;

/// What one step is about. The word tells none of it, so each call picks it.
pub trait About<E> {
    ghost use Rattle.std.specs.Prelude.{ℕ, List};
    ghost use Rattle.turn_pass.specs.declared.entries.Appended.{Appended};
    ghost use Rattle.turn_pass.specs.declared.entries.Own.{Own};

    ghost by: { ℕ };

    ghost lines: { List (Appended E) };

    ghost mine: { List (Own E) };
}

impl<E> About<E> for Brand {
    ghost use Rattle.std.specs.Prelude.{[]};

    ghost by = { 0 };

    ghost lines = { [] };

    ghost mine = { [] };
}

/// A pass is made.
pub struct MakePass<N>(PhantomData<N>);

impl<E, N: About<E>> Split<View<E>> for MakePass<N> {
    ghost use Rattle.turn_pass.specs.Rule.{with_by, pass_view};

    ghost left = { λ v. with_by v N.by };

    ghost right = { λ v. pass_view v N.by };
}

/// A note is made of what a seat has seen.
pub struct MakeNote;

impl<E> Split<View<E>> for MakeNote {
    ghost use Rattle.turn_pass.specs.Rule.{note_view};

    ghost left = { λ v. v };

    ghost right = { note_view };
}

/// An entry is appended.
pub struct AppendEntry<N>(PhantomData<N>);

impl<E, N: About<E>> Play<(), View<E>> for AppendEntry<N> {
    ghost use Rattle.turn_pass.specs.Rule.{Appends};

    ghost then = { Appends N.lines };
}

/// The book seat hears what a pass has seen.
pub struct HearPass;

impl<E> Join<View<E>> for HearPass {
    ghost use Rattle.turn_pass.specs.Rule.{hearing, spent_view};

    ghost both = { hearing };

    ghost spent = { spent_view };
}

/// A pass meets a note.
pub struct MeetNote;

impl<E> Join<View<E>> for MeetNote {
    ghost use Rattle.turn_pass.specs.Rule.{meeting, spent_view};

    ghost both = { meeting };

    ghost spent = { spent_view };
}

/// A pass ends.
pub struct EndPass;

impl<E> Join<View<E>> for EndPass {
    ghost use Rattle.turn_pass.specs.Rule.{ending, spent_view};

    ghost both = { ending };

    ghost spent = { spent_view };
}

/// A seat looks: it learns what the rule says of its view.
pub struct LookAgain;

impl<E> Play<(), View<E>> for LookAgain {
    ghost use Rattle.turn_pass.specs.Rule.{Looks};

    ghost then = { Looks };
}

/// A pass sees an entry of its own.
pub struct SeeEntry<N>(PhantomData<N>);

impl<E, N: About<E>> Play<(), View<E>> for SeeEntry<N> {
    ghost use Rattle.turn_pass.specs.Rule.{Sees};

    ghost then = { Sees N.mine };
}

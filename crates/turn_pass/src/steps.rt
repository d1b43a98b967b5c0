//! The steps on the word, each with what it does to the views of the seats that it is given. The
//! numbers and entries that a step is given name the ghost members of its `N`; no code reads them.
ghost use Rattle.std.specs.Prelude.{◌≡◌, ◌≢◌, ◌+◌, ◌<◌, ◌^◌, ◌∷◌, [], All, length, IfOk};
ghost use Rattle.turn_pass.specs.declared.rule.Role.TheVariants.{Book, Pass, Note, Spent};
ghost use Rattle.turn_pass.specs.History.{appended, own, StandsAt, HasNoRow};
ghost use Rattle.turn_pass.specs.Seats.{IsOf, SitsAt};
ghost use Rattle.turn_pass.specs.Rule.{Learns, first_view, with_by, pass_view, note_view};
ghost use Rattle.turn_pass.specs.Rule.{hearing, meeting, ending, with_lines, with_mine};

use crate::rule::{
    About, AppendEntry, Board, EndPass, HearPass, LookAgain, MakeNote, MakePass, MeetNote, Place,
    SeeEntry,
};
use atomic_table::Table;
use std::alloc::{AllocError, Global};

/// A table of one word that holds the number of rows before the session, and the book seat.
pub(crate) fn open<E>(alloc: Global, history: u32) -> Result<(Board<E>, Place<E>), AllocError>
    ensures of { IfOk result (λ r. IsOf r.0.shared.table_id r.1) }
    ensures view { IfOk result (λ r. r.1.me.0 ≡ first_view history) }
    ensures key { IfOk result (λ r. r.0.shared.key ≡ history) }
{
    Ok(Table::of_words(alloc, &[u64::from(history)], &history)?)
}

/// A pass of a new number, made by the book seat.
pub(crate) fn pass<E, N: About<E>>(board: &Board<E>, place: &mut Place<E>, by: u16) -> Place<E>
    requires of { IsOf board.now.shared.table_id place.old }
    requires book { place.old.me.0.role ≡ Book }
    requires new { All (λ b. b ≢ by) place.old.me.0.bys }
    requires by { N.by ≡ by }
    ensures place { SitsAt place.old.table_id (with_by place.old.me.0 by) place.new }
    ensures pass { SitsAt place.old.table_id (pass_view place.old.me.0 by) result }
{
    board.shared.split_seat::<MakePass<N>>(place)
}

/// A note of what a seat has seen.
pub(crate) fn note<E>(board: &Board<E>, place: &mut Place<E>) -> Place<E>
    requires of { IsOf board.now.shared.table_id place.old }
    requires role { place.old.me.0.role ≢ Spent }
    ensures place { SitsAt place.old.table_id place.old.me.0 place.new }
    ensures note { SitsAt place.old.table_id (note_view place.old.me.0) result }
{
    board.shared.split_seat::<MakeNote>(place)
}

/// The book seat takes in a note of what a pass has seen.
pub(crate) fn hear<E>(board: &Board<E>, place: &mut Place<E>, note: Place<E>)
    requires of { IsOf board.now.shared.table_id place.old }
    requires note { IsOf board.now.shared.table_id note }
    requires roles { (place.old.me.0.role ≡ Book) × (note.me.0.role ≡ Note) }
    ensures place { SitsAt place.old.table_id (hearing place.old.me.0 note.me.0) place.new }
{
    board.shared.join_seat::<HearPass>(place, note)
}

/// A pass takes in a note of the book seat.
pub(crate) fn meet<E>(board: &Board<E>, place: &mut Place<E>, note: Place<E>)
    requires of { IsOf board.now.shared.table_id place.old }
    requires note { IsOf board.now.shared.table_id note }
    requires roles { (place.old.me.0.role ≡ Pass) × (note.me.0.role ≡ Note) }
    ensures place { SitsAt place.old.table_id (meeting place.old.me.0 note.me.0) place.new }
{
    board.shared.join_seat::<MeetNote>(place, note)
}

/// The book seat takes in a pass that ends.
pub(crate) fn end<E>(board: &Board<E>, place: &mut Place<E>, pass: Place<E>)
    requires of { IsOf board.now.shared.table_id place.old }
    requires pass { IsOf board.now.shared.table_id pass }
    requires roles { (place.old.me.0.role ≡ Book) × (pass.me.0.role ≡ Pass) }
    ensures place { SitsAt place.old.table_id (ending place.old.me.0 pass.me.0) place.new }
{
    board.shared.join_seat::<EndPass>(place, pass)
}

/// Loads the word, which shows that what the seat has seen agrees with what was joined to it.
pub(crate) fn look<E>(board: &Board<E>, place: &mut Place<E>)
    requires of { IsOf board.now.shared.table_id place.old }
    requires role { place.old.me.0.role ≢ Spent }
    ensures place { SitsAt place.old.table_id place.old.me.0 place.new }
    ensures learnt { Learns place.old.me.0 }
{
    board.shared.load::<LookAgain>(place, 0);
}

/// Appends an entry by the one `fetch_add`. It answers the number of rows that there were.
pub(crate) fn append<E: Copy, N: About<E>>(
    board: &Board<E>,
    place: &mut Place<E>,
    by: u16,
    entry: E,
) -> u64
    requires of { IsOf board.now.shared.table_id place.old }
    requires book { place.old.me.0.role ≡ Book }
    requires room { place.old.me.0.history + length place.old.me.0.known.seen + 1 < 2 ^ 64 }
    requires line { N.lines ≡ appended by entry ∷ [] }
    ensures place { SitsAt place.old.table_id
        (with_lines place.old.me.0 (appended by entry ∷ [])) place.new }
    ensures found { result ≡ place.old.me.0.history + length place.old.me.0.known.seen }
    ensures learnt { Learns place.old.me.0 }
{
    board.shared.fetch_add::<AppendEntry<N>>(place, 0, 1)
}

/// A pass makes the entry at a number one of its own.
pub(crate) fn see<E: Copy, N: About<E>>(board: &Board<E>, place: &mut Place<E>, row: u32, entry: E)
    requires of { IsOf board.now.shared.table_id place.old }
    requires pass { place.old.me.0.role ≡ Pass }
    requires stands { StandsAt place.old.me.0.history place.old.me.0.known.seen row
        (appended place.old.me.0.known.by entry) }
    requires new { HasNoRow place.old.me.0.known.mine row }
    requires own { N.mine ≡ own row entry ∷ [] }
    ensures place { SitsAt place.old.table_id
        (with_mine place.old.me.0 (own row entry ∷ [])) place.new }
    ensures learnt { Learns place.new.me.0 }
{
    board.shared.load::<SeeEntry<N>>(place, 0);
}

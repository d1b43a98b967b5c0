ghost use Rattle.std.specs.Prelude.{◌≡◌, ◌≢◌, ◌↔◌, ◌+◌, ◌*◌, ◌≤◌, ◌++◌, ℕ, List, IsTrue, length, take, drop};
ghost use Rattle.book_snapshot.specs.DenseRows.{dense, IsRow};
ghost use Rattle.book_file.specs.Comparing.{IfSame, IsOther, IsUnread, HasNoForm, AreSame, DiffersBehind, EndsBehind, slot_at};

use book_journal::ROW_BYTES;
use book_snapshot::{Piece, read_one};

/// How the slot of a row compares with the dense form that content begins with.
#[derive(Clone, Copy)]
pub(crate) enum Slot {
    /// It holds the row of that form, which takes so many bytes.
    Same { taken: usize },
    /// It holds something else.
    Other,
    /// No whole form begins there.
    Unread,
}

/// How far slots compare with the dense forms of a snapshot.
#[derive(Clone, Copy)]
pub struct Compared {
    /// How many of the first slots hold the rows of the forms.
    pub slots: usize,
    /// How many bytes of the content these forms take.
    pub bytes: usize,
    /// Whether the next slot holds something else than the row of the next form.
    pub differs: bool,
}

// Whether two rows are the same, their gates and numbers among them.
fn is_same(row: &[u8; ROW_BYTES], slot: &[u8]) -> bool
    ensures { IsTrue result ↔ (row.now ≡ slot.now) }
{
    row.as_slice() == slot
}

// Compares the slot of the row of this number with the form that content begins with.
fn compare_slot(slot: &[u8], content: &[u8], number: u32) -> Slot
    ensures same { IfSame result (λ taken.
        (taken ≤ length content.now) × (take taken content.now ≡ dense slot.now)) }
    ensures other { IsOther result → (rest : List ℕ) → IsRow ROW_BYTES number slot.now →
        content.now ≢ dense slot.now ++ rest }
    ensures unread { IsUnread result → HasNoForm content.now }
{
    match read_one::<ROW_BYTES>(content, number) {
        Piece::Row { row, taken } if is_same(&row, slot) => Slot::Same { taken },
        Piece::Row { .. } => Slot::Other,
        Piece::More | Piece::Fault => Slot::Unread,
    }
}

// A slot among others, counted from 0.
fn nth_slot(slots: &[u8], place: usize) -> &[u8]
    requires { ROW_BYTES * (place + 1) ≤ length slots.now }
    ensures { result.now ≡ slot_at place slots.now }
{
    let (_, behind) = slots.split_at(ROW_BYTES * place);
    let (slot, _) = behind.split_at(ROW_BYTES);
    slot
}

/// Compares slots with the dense forms of their rows, of which the first has this number: up to the
/// end of the slots, to the first that holds something else, or to where no whole form stands in the
/// content. No number is above 2^32 - 1.
pub fn compare_slots(slots: &[u8], content: &[u8], first: u32) -> Compared
    ensures slots { ROW_BYTES * result.slots ≤ length slots.now }
    ensures bytes { result.bytes ≤ length content.now }
    ensures same { AreSame slots.now content.now result }
    ensures differs { DiffersBehind slots.now content.now first result }
    ensures ends { EndsBehind slots.now content.now result }
{
    let mut number = first;
    let mut place = 0;
    for slot in 0..slots.len() / ROW_BYTES {
        let (_, left) = content.split_at(place);
        match compare_slot(nth_slot(slots, slot), left, number) {
            Slot::Same { taken } => place += taken,
            Slot::Other => return Compared {
                slots: slot,
                bytes: place,
                differs: true,
            },
            Slot::Unread => return Compared {
                slots: slot,
                bytes: place,
                differs: false,
            },
        }
        number = number.saturating_add(1);
    }
    Compared {
        slots: slots.len() / ROW_BYTES,
        bytes: place,
        differs: false,
    }
}

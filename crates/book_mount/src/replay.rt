ghost use Rattle.std.specs.Prelude.{◌≡◌, ◌+◌, ◌∷◌, ℕ, List, Option, Some, IfErr, OnOk, length};
ghost use Rattle.book_mount.specs.Opening.{HasRead, ReadsOn, Grows, IsOfRow};

use crate::types::MountError;
use book_core::{Book, ReplayError};
use book_journal::ROW_BYTES;
use row_format::read_row;

/// Enters the entry of the next row.
pub(crate) fn replay_row(
    row: &[u8; ROW_BYTES],
    number: u32,
    book: &mut Book,
) -> Result<(), MountError>
    requires { number ≡ length book.old.entries + 1 }
    ensures reads { (rows left : List (Option (List ℕ))) →
        HasRead rows book.old.entries (Some row.now ∷ left) →
        ReadsOn rows book.new.entries left result }
    ensures count { OnOk result (length book.new.entries ≡ number) }
    ensures grows { Grows book.old book.new }
    ensures fault { IfErr result IsOfRow }
{
    let Ok(entry) = read_row(row, number) else {
        return Err(MountError::Damaged { row: number });
    };
    match book.replay(entry) {
        Ok(()) => Ok(()),
        Err(ReplayError::Unlawful) => Err(MountError::Damaged { row: number }),
        Err(ReplayError::NoMemory) => Err(MountError::NoMemory),
    }
}

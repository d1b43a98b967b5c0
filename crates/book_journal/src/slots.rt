ghost use Rattle.std.specs.Prelude.{◌≡◌, ◌⊎◌, ◌+◌, ◌-◌, ◌*◌, ◌≤◌, min, false, IfOk, length, drop};
ghost use Rattle.device_facts.specs.Count.{CountsFault};
ghost use Rattle.disk_core.specs.Disk.{WhereTold};
ghost use Rattle.disk_core.specs.Devices.{IsUnmoved};
ghost use Rattle.book_journal.specs.Rows.{open_rows, starts_open, gate_behind};
ghost use Rattle.book_journal.specs.Mounting.{slots_behind};

use crate::layout::{MAX_SLOTS, gate_behind};
use book_snapshot::{OPEN, ROW_BYTES};
use disk_core::{Disk, Failed};

/// The slots that are read in one call where no snapshot fits.
pub const PIECE_SLOTS: usize = 64;

/// The slots that are read in one call behind a snapshot, where opening may ask for few bytes.
pub const FEW_SLOTS: usize = 16;

/// For how many bytes opening may ask behind a snapshot, beside those of the slots that it counts.
pub const OPENING_BYTES: usize = 2_048;

/// For how many more bytes it may ask for each slot that it counts.
pub const SLOT_COST: usize = 100;

const PIECE: usize = ROW_BYTES * PIECE_SLOTS;

/// Counts the slots behind so many rows up to the first that is cut or closed, on a disk of that
/// many bytes, in pieces of so many slots. It tells how many rows these and the first are.
pub(crate) fn count_rows<D: Disk>(
    disk: &mut D,
    size: u64,
    first: u32,
    slots: usize,
) -> Result<u32, Failed>
    requires first { first ≤ MAX_SLOTS }
    requires some { 1 ≤ slots }
    requires few { slots ≤ PIECE_SLOTS }
    ensures least { IfOk result (λ count. first ≤ count) }
    ensures most { IfOk result (λ count. count ≤ MAX_SLOTS) }
    ensures all { WhereTold (D.reads disk.old) (λ bytes. size ≡ length bytes → IfOk result (λ count.
        length (open_rows (count - first) (drop (gate_behind first) bytes)) ≡ count - first)) }
    ensures end { WhereTold (D.reads disk.old) (λ bytes. size ≡ length bytes → IfOk result (λ count.
        (count ≡ MAX_SLOTS) ⊎ (starts_open (drop (gate_behind count) bytes) ≡ false))) }
    ensures unmoved { IsUnmoved D.Disk disk.old disk.new }
    ensures cause { CountsFault (D.faults disk.old) (D.faults disk.new) result }
    ensures asked { IfOk result (λ count.
        D.asked disk.new ≤ D.asked disk.old + ROW_BYTES * (count - first) + ROW_BYTES * slots) }
    ensures asked_most { WhereTold (D.reads disk.old) (λ bytes. size ≡ length bytes →
        D.asked disk.new
        ≤ D.asked disk.old + ROW_BYTES * slots_behind first bytes + ROW_BYTES * slots) }
{
    let mut piece = [0; PIECE];
    let mut count = first;
    for _piece in 0..MAX_SLOTS {
        let wanted = wanted(count, size, slots);
        let open = count_piece(disk, gate_behind(count), &mut piece[..wanted])?;
        count += open as u32;
        if open < slots {
            return Ok(count);
        }
    }
    Ok(count)
}

// How many bytes are read behind so many slots: a piece, but no more than are counted and than are
// there.
fn wanted(count: u32, size: u64, slots: usize) -> usize
    requires most { count ≤ MAX_SLOTS }
    requires few { slots ≤ PIECE_SLOTS }
    ensures { result ≡ min (ROW_BYTES * min slots (MAX_SLOTS - count)) (size - gate_behind count) }
{
    let slots = slots.min((MAX_SLOTS - count) as usize);
    let left = size.saturating_sub(gate_behind(count));
    (ROW_BYTES * slots).min(left as usize)
}

// Counts the open slots of a piece.
fn count_piece<D: Disk>(disk: &mut D, place: u64, piece: &mut [u8]) -> Result<usize, Failed>
    ensures inside { IfOk result (λ slots. ROW_BYTES * slots ≤ length piece.new) }
    ensures all { WhereTold (D.reads disk.old) (λ bytes. IfOk result (λ slots.
        length (open_rows slots (drop place bytes)) ≡ slots)) }
    ensures end { WhereTold (D.reads disk.old) (λ bytes. IfOk result (λ slots.
        ((ROW_BYTES * slots + ROW_BYTES ≤ length piece.new) ⊎
        (length bytes - place ≤ length piece.new)) →
        starts_open (drop (ROW_BYTES * slots) (drop place bytes)) ≡ false)) }
    ensures unmoved { IsUnmoved D.Disk disk.old disk.new }
    ensures cause { CountsFault (D.faults disk.old) (D.faults disk.new) result }
    ensures asked { D.asked disk.new ≤ D.asked disk.old + length piece.new }
{
    let count = disk.read_at(place, piece)?;
    Ok(open_slots(&piece[..count]))
}

// Counts the slots up to the first that is cut or closed.
fn open_slots(bytes: &[u8]) -> usize
    ensures all { length (open_rows result bytes.now) ≡ result }
    ensures end { starts_open (drop (ROW_BYTES * result) bytes.now) ≡ false }
{
    let whole = bytes.len() / ROW_BYTES;
    for slot in 0..whole {
        if bytes[ROW_BYTES * slot] != OPEN {
            return slot;
        }
    }
    whole
}

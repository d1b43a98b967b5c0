ghost use Rattle.std.specs.Prelude.{◌≡◌, ◌+◌, ◌-◌, ◌*◌, ◌≤◌, ◌<◌, ℕ, List, [], IfOk, IfErr, length, drop};
ghost use Rattle.hall_limits.specs.declared.TheConstants.{MAX_ROWS};
ghost use Rattle.device_facts.specs.Prefix.{IsPrefixOf};
ghost use Rattle.disk_core.specs.Disk.{WhereTold};
ghost use Rattle.disk_core.specs.Devices.{IsUnmoved};
ghost use Rattle.book_words.specs.Answers.{IsLegal};
ghost use Rattle.book_mount.specs.declared.types.MountError.TheVariants as mount;
ghost use Rattle.book_mount.specs.Opening.{CountsReading};
ghost use Rattle.book_mount.specs.Mounting.{IsPassing};
ghost use Rattle.book_journal.specs.Rows.{gate_behind};
ghost use Rattle.book_audit.specs.declared.slots.Walk.TheVariants as walk;
ghost use Rattle.book_audit.specs.Slots.{SlotsGive};
ghost use Rattle.book_audit.specs.Walking.{EntersRow, SlotsStand, WalksTo, walk_behind, at_end};

use book_core::{Book, ReplayError};
use book_journal::{MAX_SLOTS, ROW_BYTES};
use book_mount::MountError;
use book_snapshot::OPEN;
use disk_core::Disk;
use row_format::read_row;

/// The slots that are read in one call.
const PIECE_SLOTS: usize = 64;

const PIECE: usize = ROW_BYTES * PIECE_SLOTS;

/// Where a walk over slots stands.
#[derive(Clone, Copy)]
pub(crate) enum Walk {
    /// Behind slots that are all entered.
    On,
    /// At a slot that is cut or closed.
    End,
    /// At a slot whose row is damaged.
    Damaged,
}

// Enters the entry of the next row; it tells whether the row isn't damaged.
fn enter_row(row: &[u8; ROW_BYTES], book: &mut Book) -> Result<bool, MountError>
    requires few { length book.old.entries ≤ MAX_ROWS }
    requires legal { IsLegal book.old.entries }
    ensures enters { IfOk result (EntersRow row.now book.old.entries book.new.entries) }
    ensures legal { IsLegal book.new.entries }
    ensures why { IfErr result (λ why. why ≡ mount.NoMemory) }
{
    let number = book.len() + 1;
    let Ok(entry) = read_row(row, number) else {
        return Ok(false);
    };
    match book.replay(entry) {
        Ok(()) => Ok(true),
        Err(ReplayError::Unlawful) => Ok(false),
        Err(ReplayError::NoMemory) => Err(MountError::NoMemory),
    }
}

// Where a walk stands behind a row that was entered, or that is damaged.
fn behind(entered: bool) -> Walk
    ensures { result ≡ walk_behind entered }
{
    if entered { Walk::On } else { Walk::Damaged }
}

// Enters the entry of the next slot where it is open, and tells where the walk then stands.
fn enter_slot(slot: &[u8; ROW_BYTES], book: &mut Book) -> Result<Walk, MountError>
    requires few { length book.old.entries ≤ MAX_ROWS }
    requires legal { IsLegal book.old.entries }
    ensures walks { (bytes : List ℕ) → SlotsStand bytes book.old.entries →
        IsPrefixOf slot.now (drop (gate_behind (length book.old.entries)) bytes) →
        IfOk result (WalksTo bytes book.new.entries) }
    ensures count { IfOk result (λ stands. stands ≡ walk.On →
        length book.new.entries ≡ length book.old.entries + 1) }
    ensures legal { IsLegal book.new.entries }
    ensures why { IfErr result (λ why. why ≡ mount.NoMemory) }
{
    if slot[0] != OPEN {
        return Ok(Walk::End);
    }
    let entered = enter_row(slot, book)?;
    Ok(behind(entered))
}

// Enters the entries of the slots of a piece, up to the first that is closed or damaged, or cut by
// the end of the piece.
fn enter_slots(piece: &[u8], book: &mut Book) -> Result<Walk, MountError>
    requires few { length book.old.entries ≤ MAX_ROWS }
    requires legal { IsLegal book.old.entries }
    ensures walks { (bytes : List ℕ) → SlotsStand bytes book.old.entries →
        IsPrefixOf piece.now (drop (gate_behind (length book.old.entries)) bytes) →
        IfOk result (WalksTo bytes book.new.entries) }
    ensures through { IfOk result (λ stands. stands ≡ walk.On →
        length piece.now < ROW_BYTES * (length book.new.entries + 1)
        - ROW_BYTES * length book.old.entries) }
    ensures legal { IsLegal book.new.entries }
    ensures why { IfErr result (λ why. why ≡ mount.NoMemory) }
{
    let mut rest = piece;
    while let Some((slot, after)) = rest.split_first_chunk::<ROW_BYTES>() {
        match enter_slot(slot, book)? {
            Walk::On => rest = after,
            Walk::End => return Ok(Walk::End),
            Walk::Damaged => return Ok(Walk::Damaged),
        }
    }
    Ok(Walk::On)
}

// Where a walk stands at the end of a disk.
fn at_end(stands: Walk) -> Walk
    ensures { result ≡ at_end stands }
{
    match stands {
        Walk::On => Walk::End,
        Walk::End | Walk::Damaged => stands,
    }
}

// Reads the next slots, and enters their entries.
fn read_piece<D: Disk>(disk: &mut D, book: &mut Book) -> Result<Walk, MountError>
    requires few { length book.old.entries ≤ MAX_ROWS }
    requires legal { IsLegal book.old.entries }
    ensures walks { WhereTold (D.reads disk.old) (λ bytes. SlotsStand bytes book.old.entries →
        IfOk result (WalksTo bytes book.new.entries)) }
    ensures count { IfOk result (λ stands. stands ≡ walk.On →
        length book.old.entries + 1 ≤ length book.new.entries) }
    ensures legal { IsLegal book.new.entries }
    ensures unmoved { IsUnmoved D.Disk disk.old disk.new }
    ensures cause { CountsReading (D.faults disk.old) (D.faults disk.new) result }
    ensures passing { IfErr result IsPassing }
{
    let mut piece = [0; PIECE];
    let gate = ROW_BYTES as u64 * (u64::from(book.len()) + 1);
    let Ok(count) = disk.read_at(gate, &mut piece) else {
        return Err(MountError::DiskFault);
    };
    let stands = enter_slots(&piece[..count], book)?;
    if count < PIECE {
        return Ok(at_end(stands));
    }
    Ok(stands)
}

/// Enters the entries of all slots of a disk into an empty book, up to the first slot that is cut,
/// closed or damaged; it tells whether none is damaged.
pub(crate) fn read_slots<D: Disk>(disk: &mut D, book: &mut Book) -> Result<bool, MountError>
    requires empty { book.old.entries ≡ [] }
    ensures slots { WhereTold (D.reads disk.old) (λ bytes.
        IfOk result (SlotsGive bytes book.new.entries)) }
    ensures legal { IsLegal book.new.entries }
    ensures unmoved { IsUnmoved D.Disk disk.old disk.new }
    ensures cause { CountsReading (D.faults disk.old) (D.faults disk.new) result }
    ensures passing { IfErr result IsPassing }
{
    for _piece in 0..MAX_SLOTS {
        match read_piece(disk, book)? {
            Walk::On => {}
            Walk::End => return Ok(true),
            Walk::Damaged => return Ok(false),
        }
    }
    Ok(true)
}

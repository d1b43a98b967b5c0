ghost use Rattle.std.specs.Prelude.{◌≡◌, ◌≢◌, ◌-◌, ◌<◌, ◌≤◌, ◌++◌, ℕ, IfOk, IfErr, MatchOption, length, replicate, slice_index};
ghost use Rattle.device_facts.specs.Count.{CountsFault};
ghost use Rattle.disk_core.specs.Disk.{WhereTold};
ghost use Rattle.disk_core.specs.Devices.{IsUnmoved};
ghost use Rattle.book_journal.specs.Rows.{title, FirstDiffersAt};
ghost use Rattle.book_audit.specs.Fronts.{IsFrontOf, IsNoBook, IsUndamaged, CountsFront};

use book_journal::NEW_BYTES;
use book_mount::MountError;
use book_snapshot::{MARK, ROW_BYTES};
use disk_core::{Disk, Failed};

const TITLE: [u8; 8] = *b"AQHBOOK2";

// The header of a journal.
fn header() -> [u8; ROW_BYTES]
    ensures { result ≡ title ++ replicate (ROW_BYTES - length title) 0 }
{
    let mut bytes = [0; ROW_BYTES];
    bytes[..TITLE.len()].copy_from_slice(&TITLE);
    bytes
}

// The first byte that differs from the header's.
fn difference(bytes: &[u8; ROW_BYTES]) -> Option<usize>
    ensures { MatchOption result
        ((k : ℕ) → k < ROW_BYTES → k ≢ MARK → slice_index bytes.now k ≡ slice_index title k)
        (FirstDiffersAt bytes.now) }
{
    let header = header();
    for place in 0..ROW_BYTES {
        if place != MARK && bytes[place] != header[place] {
            return Some(place);
        }
    }
    None
}

// The first bytes of a disk, as many as a header has.
fn read_front<D: Disk>(disk: &mut D) -> Result<[u8; ROW_BYTES], Failed>
    ensures front { WhereTold (D.reads disk.old) (λ bytes. ROW_BYTES ≤ length bytes →
        IfOk result (λ front. (k : ℕ) → k < ROW_BYTES →
        slice_index front k ≡ slice_index bytes k)) }
    ensures unmoved { IsUnmoved D.Disk disk.old disk.new }
    ensures cause { CountsFault (D.faults disk.old) (D.faults disk.new) result }
{
    let mut front = [0; ROW_BYTES];
    disk.read_at(0, &mut front)?;
    Ok(front)
}

/// The mark of a disk of that many bytes that begins with the header of a journal; 0 where it
/// doesn't and is too short for a row. A longer one is no book.
pub(crate) fn read_mark<D: Disk>(disk: &mut D, size: u64) -> Result<u8, MountError>
    ensures front { WhereTold (D.reads disk.old) (λ bytes. size ≡ length bytes →
        IfOk result (IsFrontOf bytes)) }
    ensures refused { WhereTold (D.reads disk.old) (λ bytes. size ≡ length bytes →
        IfErr result (IsNoBook bytes)) }
    ensures undamaged { IfErr result IsUndamaged }
    ensures unmoved { IsUnmoved D.Disk disk.old disk.new }
    ensures cause { CountsFront (D.faults disk.old) (D.faults disk.new) result }
{
    if size < ROW_BYTES as u64 {
        return Ok(0);
    }
    let Ok(front) = read_front(disk) else {
        return Err(MountError::DiskFault);
    };
    let Some(place) = difference(&front) else {
        return Ok(front[MARK]);
    };
    if size > NEW_BYTES as u64 {
        return Err(MountError::NotJournal {
            place: place as u64,
        });
    }
    Ok(0)
}

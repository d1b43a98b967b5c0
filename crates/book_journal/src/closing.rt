ghost use Rattle.std.specs.Prelude.{◌≡◌, ◌+◌, ◌<◌, ◌≤◌, ℕ, List, Some, IsTrue, IfOk, OnOk, length, slice_index, false};
ghost use Rattle.device_facts.specs.Count.{CountsFault};
ghost use Rattle.device_facts.specs.Known.{TellsAsBefore};
ghost use Rattle.disk_core.specs.Disk.{WhereTold, Only};
ghost use Rattle.disk_core.specs.Devices.{IsUnmoved, LeavesOnly};
ghost use Rattle.book_journal.specs.Rows.{Recovers, gate_behind};
ghost use Rattle.book_journal.specs.Mounting.{closed_behind, stands_closed};
ghost use Rattle.book_journal.specs.Closing.{EndsAt, IsFull};

use crate::layout::{CLOSED, MAX_SLOTS, gate_behind};
use crate::settle::settle;
use book_snapshot::OPEN;
use disk_core::{Disk, Failed};
use hall_limits::MAX_ROWS;

/// Closes the gate behind so many rows of a disk of that many bytes, where it isn't there or is
/// open.
pub(crate) fn close_behind<D: Disk>(disk: &mut D, size: u64, count: u32) -> Result<(), Failed>
    requires most { count ≤ MAX_SLOTS }
    requires ends { WhereTold (D.reads disk.old) (EndsAt size count) }
    ensures reads { WhereTold (D.reads disk.old) (λ bytes. Only bytes (D.image disk.old) →
        OnOk result ((D.reads disk.new ≡ Some (closed_behind count bytes)) ×
        Only (closed_behind count bytes) (D.image disk.new))) }
    ensures moments { WhereTold (D.reads disk.old) (λ bytes. Only bytes (D.image disk.old) →
        (rows : List (List ℕ)) → Recovers bytes rows → length rows ≡ count →
        LeavesOnly D.Disk disk.old disk.new (λ c. Recovers c rows)) }
    ensures full { MAX_ROWS < count → IsUnmoved D.Disk disk.old disk.new }
    ensures tells { TellsAsBefore (D.reads disk.old) (D.reads disk.new) }
    ensures cause { CountsFault (D.faults disk.old) (D.faults disk.new) result }
    ensures asked { D.asked disk.new ≤ D.asked disk.old + 1 }
{
    if count > MAX_ROWS {
        return Ok(());
    }
    let gate = gate_behind(count);
    if is_closed(disk, size, gate)? {
        return Ok(());
    }
    settle(disk, gate, &[CLOSED])?;
    Ok(())
}

// Whether a closed gate stands at a place.
fn is_closed<D: Disk>(disk: &mut D, size: u64, gate: u64) -> Result<bool, Failed>
    ensures told { WhereTold (D.reads disk.old) (λ bytes. size ≡ length bytes →
        IfOk result (λ closed. closed ≡ stands_closed gate bytes)) }
    ensures unmoved { IsUnmoved D.Disk disk.old disk.new }
    ensures cause { CountsFault (D.faults disk.old) (D.faults disk.new) result }
    ensures asked { D.asked disk.new ≤ D.asked disk.old + 1 }
{
    if size <= gate {
        return Ok(false);
    }
    let mut byte = [0];
    disk.read_at(gate, &mut byte)?;
    Ok(byte[0] != OPEN)
}

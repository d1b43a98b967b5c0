ghost use Rattle.std.specs.Prelude.{◌≡◌, ℕ, ◌+◌, ◌<◌, ◌≤◌, List, length};
ghost use Rattle.device_facts.specs.Count.{CountsFault};
ghost use Rattle.device_facts.specs.Known.{TellsAsBefore};
ghost use Rattle.disk_core.specs.Disk.{WhereTold};
ghost use Rattle.book_journal.specs.Settles.{Settles};

use disk_core::{DISK_END, Disk, Failed};

/// Writes bytes and syncs, so that at an Ok no crash takes them away.
pub(crate) fn settle<D: Disk>(disk: &mut D, place: u64, bytes: &[u8]) -> Result<(), Failed>
    requires within { WhereTold (D.reads disk.old) (λ there. place ≤ length there) }
    requires end { place + length bytes.now < DISK_END }
    ensures settles { WhereTold (D.reads disk.old) (λ there.
        Settles D.Disk place bytes.now result there disk.old disk.new) }
    ensures tells { TellsAsBefore (D.reads disk.old) (D.reads disk.new) }
    ensures cause { CountsFault (D.faults disk.old) (D.faults disk.new) result }
    ensures asked { D.asked disk.new ≡ D.asked disk.old }
{
    disk.write_at(place, bytes)?;
    disk.sync()?;
    Ok(())
}

use crate::journal::Journal;
use book_snapshot::{BLOCK_CONTENT, ROW_BYTES, blocks_for, content_of_blocks, snapshot_place};
use disk_core::{Disk, Failed};

/// The blocks of a snapshot that are read or written in one call.
pub(crate) const CALL_BLOCKS: usize = 42;

/// The content bytes of so many blocks.
pub const BLOCKS_CONTENT: usize = BLOCK_CONTENT * CALL_BLOCKS;

/// Their bytes on the disk.
pub(crate) const BLOCKS_BYTES: usize = ROW_BYTES * CALL_BLOCKS;

impl<D: Disk> Journal<D> {
    ghost use Rattle.std.specs.Prelude.{◌≡◌, ◌↔◌, ◌+◌, ◌-◌, ◌*◌, ◌<◌, ◌≤◌, min, ℕ, List, Some, IfOk, length, take, drop};
    ghost use Rattle.device_facts.specs.Count.{CountsFault};
    ghost use Rattle.disk_core.specs.Disk.{WhereTold};
    ghost use Rattle.disk_core.specs.Devices.{IsUnmoved};
    ghost use Rattle.book_snapshot.specs.Blocks.{IsSnapshotSize, EndsWithSnapshot, snapshot_content};
    ghost use Rattle.book_journal.specs.Journal.{disk_of, kept_of, IsSound, HasRows};
    ghost use Rattle.book_journal.specs.Reading.{ReadsContent, HasContentFrom};

    /// Reads the content of the snapshot that fitted when the journal was mounted, from
    /// `3948 * from` on, in one device call: it fills the front of the buffer, and tells how many
    /// bytes these are. What they are is told as long as the snapshot still stands, so until the
    /// next append or keep. Failed comes only where the disk failed.
    pub fn blocks(&mut self, from: u64, into: &mut [u8; BLOCKS_CONTENT]) -> Result<usize, Failed>
        requires { HasContentFrom from (kept_of self.old) }
        ensures content { WhereTold (D.reads (disk_of self.old)) (λ bytes.
            ReadsContent (kept_of self.old) bytes from result into.new) }
        ensures same { self.new ≡ record self.old { disk = disk_of self.new } }
        ensures unmoved { IsUnmoved D.Disk (disk_of self.old) (disk_of self.new) }
        ensures rows { (rows : List (List ℕ)) → HasRows D.Disk self.old rows →
            HasRows D.Disk self.new rows }
        ensures sound { IsSound D.Disk self.old → IsSound D.Disk self.new }
        ensures cause { CountsFault (D.faults (disk_of self.old)) (D.faults (disk_of self.new))
            result }
        ensures asked_more { D.asked (disk_of self.old) ≤ D.asked (disk_of self.new) }
        ensures asked_most { D.asked (disk_of self.new)
            ≤ D.asked (disk_of self.old) + BLOCKS_BYTES }
    {
        let Some(kept) = self.kept else { return Ok(0) };
        let left = kept.bytes - BLOCKS_CONTENT as u64 * from;
        let count = left.min(BLOCKS_CONTENT as u64) as usize;
        let size = ROW_BYTES * blocks_for(count as u64) as usize;
        let place = snapshot_place(kept.rows) + ROW_BYTES as u64 + BLOCKS_BYTES as u64 * from;
        let mut blocks = [0; BLOCKS_BYTES];
        let part = &mut blocks[..size];
        self.disk.read_at(place, part)?;
        content_of_blocks(part, &mut into[..count]);
        Ok(count)
    }
}

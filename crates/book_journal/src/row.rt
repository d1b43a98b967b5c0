use crate::journal::Journal;
use book_snapshot::ROW_BYTES;
use disk_core::{Disk, Failed};

impl<D: Disk> Journal<D> {
    ghost use Rattle.std.specs.Prelude.{◌≡◌, ◌↔◌, ◌+◌, ◌-◌, ◌*◌, ◌≤◌, ℕ, List, Some, IfOk, length, take, drop, slice_get};
    ghost use Rattle.device_facts.specs.Count.{CountsFault};
    ghost use Rattle.disk_core.specs.Disk.{WhereTold};
    ghost use Rattle.disk_core.specs.Devices.{IsUnmoved};
    ghost use Rattle.book_journal.specs.Rows.{gate_behind};
    ghost use Rattle.book_journal.specs.Journal.{disk_of, count_of, IsSound, HasRows};

    /// Reads the row of a number, counted from 1: the bytes of its slot. Failed comes only where
    /// the disk failed.
    pub fn row(&mut self, number: u32) -> Result<[u8; ROW_BYTES], Failed>
        requires first { 1 ≤ number }
        requires last { number ≤ count_of self.old }
        ensures row { (rows : List (List ℕ)) → HasRows D.Disk self.old rows →
            IfOk result (λ row. slice_get rows (number - 1) ≡ Some row) }
        ensures slot { WhereTold (D.reads (disk_of self.old)) (λ bytes.
            gate_behind (count_of self.old) ≤ length bytes →
            IfOk result (λ row. row ≡ take ROW_BYTES (drop (ROW_BYTES * number) bytes))) }

        // The journal is as before.
        ensures same { self.new ≡ record self.old { disk = disk_of self.new } }
        ensures unmoved { IsUnmoved D.Disk (disk_of self.old) (disk_of self.new) }
        ensures rows { (rows : List (List ℕ)) → HasRows D.Disk self.old rows →
            HasRows D.Disk self.new rows }
        ensures sound { IsSound D.Disk self.old → IsSound D.Disk self.new }
        ensures cause { CountsFault (D.faults (disk_of self.old)) (D.faults (disk_of self.new))
            result }
        ensures asked_more { D.asked (disk_of self.old) ≤ D.asked (disk_of self.new) }
        ensures asked_most { D.asked (disk_of self.new) ≤ D.asked (disk_of self.old) + ROW_BYTES }
    {
        let mut row = [0; ROW_BYTES];
        self.disk
            .read_at(ROW_BYTES as u64 * u64::from(number), &mut row)?;
        Ok(row)
    }
}

ghost use Rattle.std.specs.Prelude.{◌≡◌, ◌<◌, ◌≤◌, List, ℕ, Option, length, take, drop, IfOk};
ghost use Rattle.disk_core.specs.Disk.{WhereTold};

use std::fs::File;
use std::io;
use std::os::unix::fs::FileExt;

/// What can be read at places, a call of the system at a time. A call may bring fewer bytes than
/// there is room for, but none only at the end.
pub(crate) trait ReadAt {
    /// What it reads, where it tells.
    ghost reads: { Self → Option (List ℕ) };

    /// Reads some bytes from a place on into the front of a buffer, and tells how many.
    fn read_once(&self, place: u64, into: &mut [u8]) -> io::Result<usize>
        ensures bound { IfOk result (λ count. count ≤ length into.new) }
        ensures bytes { WhereTold (reads self.now) (λ bytes. IfOk result (λ count.
            take count into.new ≡ take count (drop place bytes))) }
        ensures end { WhereTold (reads self.now) (λ bytes. IfOk result (λ count.
            count ≡ 0 → 0 < length into.new → length bytes ≤ place)) };
}

impl ReadAt for File {
    ghost use Rattle.std.specs.Prelude.{None};

    // a file tells nothing
    ghost reads = { λ f. None };

    fn read_once(&self, place: u64, into: &mut [u8]) -> io::Result<usize> {
        self.read_at(into, place)
    }
}

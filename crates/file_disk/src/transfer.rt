//! Whole transfers out of the system's calls, each of which may take less than it was offered. A
//! call that is interrupted is made again.
ghost use Rattle.std.specs.Prelude.{◌≡◌, ◌+◌, ◌-◌, ◌<◌, ◌≤◌, min, length, take, drop, IfOk};
ghost use Rattle.disk_core.specs.Disk.{WhereTold};

use crate::read_at::ReadAt;
use std::fs::File;
use std::io;
use std::io::ErrorKind;

/// Fills a buffer with the bytes from a place on, as many as there are and as it has room for, and
/// tells how many they are.
pub(crate) fn fill<F: ReadAt>(file: &F, place: u64, into: &mut [u8]) -> io::Result<usize>
    ensures bound { IfOk result (λ count. count ≤ length into.new) }
    ensures count { WhereTold (F.reads file.now) (λ bytes. IfOk result (λ count.
        count ≡ min (length into.new) (length bytes - place))) }
    ensures bytes { WhereTold (F.reads file.now) (λ bytes. IfOk result (λ count.
        take count into.new ≡ take count (drop place bytes))) }
{
    let mut done = 0;
    for _turn in 0..u64::MAX {
        if done >= into.len() {
            return Ok(done);
        }
        match read_on(file, place, done, into) {
            Ok(0) => return Ok(done),
            Ok(more) => done += more,
            Err(error) if error.kind() == ErrorKind::Interrupted => {}
            Err(error) => return Err(error),
        }
    }
    Err(ErrorKind::Interrupted.into())
}

// Reads once more, behind what came so far.
fn read_on<F: ReadAt>(file: &F, place: u64, done: usize, into: &mut [u8]) -> io::Result<usize>
    requires { done ≤ length into.old }
    ensures kept { take done into.new ≡ take done into.old }
    ensures bound { IfOk result (λ more. done + more ≤ length into.new) }
    ensures bytes { WhereTold (F.reads file.now) (λ bytes. IfOk result (λ more.
        take more (drop done into.new) ≡ take more (drop (place + done) bytes))) }
    ensures end { WhereTold (F.reads file.now) (λ bytes. IfOk result (λ more.
        more ≡ 0 → done < length into.old → length bytes ≤ place + done)) }
{
    let Some(from) = place.checked_add(done as u64) else {
        return Err(ErrorKind::InvalidInput.into());
    };
    file.read_once(from, &mut into[done..])
}

/// Makes all that was put into a file stable.
pub(crate) fn settle(file: &File) -> io::Result<()> {
    for _turn in 0..u64::MAX {
        match file.sync_data() {
            Err(error) if error.kind() == ErrorKind::Interrupted => {}
            done => return done,
        }
    }
    Err(ErrorKind::Interrupted.into())
}

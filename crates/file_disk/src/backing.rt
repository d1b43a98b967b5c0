ghost use Rattle.std.specs.Prelude.{◌+◌, ◌<◌, ◌≤◌, length, IfOk};

use crate::named_file::NamedFile;
use disk_core::{DISK_END, Disk, Failed, QuietDisk};
use std::fs::File;
use std::io;
use std::io::ErrorKind;
use std::rt::Files;

/// Where a disk has its bytes.
#[derive(Drop)]
pub(crate) enum Backing {
    /// In a file.
    Named(NamedFile),
    /// In memory.
    Memory(QuietDisk),
}

impl Backing {
    /// How many bytes there are.
    pub(crate) fn len(&mut self) -> io::Result<u64> {
        match self {
            Backing::Named(file) => file.len(),
            Backing::Memory(disk) => or_full(disk.len()),
        }
    }

    /// Fills a buffer with the bytes from a place on, as many as there are.
    pub(crate) fn read_at(&mut self, place: u64, into: &mut [u8]) -> io::Result<usize>
        ensures { IfOk result (λ count. count ≤ length into.new) }
    {
        match self {
            Backing::Named(file) => file.read_at(place, into),
            Backing::Memory(disk) => match disk.read_at(place, into) {
                Ok(count) => Ok(count),
                Err(Failed) => Err(ErrorKind::StorageFull.into()),
            },
        }
    }

    /// Puts all bytes from a place on.
    pub(crate) fn write_at(&mut self, place: u64, bytes: &[u8]) -> io::Result<()>
        requires { place + length bytes.now < DISK_END }
    {
        match self {
            Backing::Named(file) => file.write_at(place, bytes),
            Backing::Memory(disk) => or_full(disk.write_at(place, bytes)),
        }
    }

    /// Makes all that was put stable.
    pub(crate) fn sync<R: Files<File = File> + AllocGlobal>(&mut self, rt: &R) -> io::Result<()> {
        match self {
            Backing::Named(file) => file.sync(rt),
            Backing::Memory(disk) => or_full(disk.sync()),
        }
    }
}

// A disk in memory fails where it is full.
fn or_full<T>(answer: Result<T, Failed>) -> io::Result<T> {
    match answer {
        Ok(value) => Ok(value),
        Err(Failed) => Err(ErrorKind::StorageFull.into()),
    }
}

ghost use Rattle.std.specs.Prelude.{IsErr};
ghost use Rattle.device_facts.specs.Count.{CountsFault};

use crate::backing::Backing;
use crate::copying::{BookCopy, copy_book};
use crate::named_file::NamedFile;
use crate::notice::Notice;
use crate::open_error::OpenError;
use crate::opening::{make, open_present, to_be_written};
use crate::rows_left::RowsLeft;
use device_facts::counted_once_more;
use disk_core::{DISK_END, Disk, Failed, QuietDisk};
use std::fs::File;
use std::io;
use std::io::{Eprint, ErrorKind};
use std::marker::Model;
use std::rt::Files;

/// A disk over a file of the operating system, or over what such a file held, in memory. It tells no
/// bytes, images or moments, only its faults: what the system's calls do is trusted. A disk that
/// isn't open fails at each call. Standard error is told why a call failed, once for all failures
/// up to the next good sync.
pub struct FileDisk<R: Eprint + Drop> {
    rt: R,
    backing: Result<Backing, OpenError>,
    // The path that its file was asked for by; none of a book in memory.
    path: Option<String>,
    notice: Option<Notice>,
    rows_left: RowsLeft,
    told: bool,
    faults: u64,
}

// By hand, so that letting one go is one call, where a derived drop is spelled at each exit.
impl<R: Eprint + Drop> Drop for FileDisk<R> {
    fn drop(self) {
        let Self {
            rt: _,
            backing: _,
            path: _,
            notice: _,
            rows_left: _,
            told: _,
            faults: _,
        } = self;
    }
}

impl<R: Eprint + Drop> Model for FileDisk<R> {
    ghost use Rattle.std.specs.Prelude.{is_ok, option_map};
    ghost use Rattle.std.specs.String.{string_bytes};
    ghost use Rattle.file_disk.specs.OpenFile.{OpenFile};

    ghost Value = { OpenFile };

    ghost view = { λ d. record {
      is_open = is_ok d.backing;
      path = option_map string_bytes d.path;
      faults = d.faults;
    } };
}

impl<R: Eprint + Drop> FileDisk<R> {
    ghost use Rattle.std.specs.Prelude.{◌≡◌, ◌↔◌, true, false, IsNone, IsOk, IsErr, None, Ok};

    /// Over memory.
    pub fn in_memory(rt: R, disk: QuietDisk) -> Self
        ensures open { result.is_open ≡ true }
        ensures unnamed { result.path ≡ None }
        ensures faults { result.faults ≡ 0 }
    {
        FileDisk {
            rt,
            backing: Ok(Backing::Memory(disk)),
            path: None,
            notice: None,
            rows_left: RowsLeft::untold(),
            told: false,
            faults: 0,
        }
    }

    /// Why the disk isn't open; none where it is.
    pub fn open_error(&self) -> Option<&OpenError>
        ensures { IsNone result ↔ (self.now.is_open ≡ true) }
    {
        self.backing.as_ref().err()
    }

    /// What whoever opened it should be told.
    pub fn notice(&self) -> Option<Notice> {
        self.notice
    }

    /// Tells on standard error from now on that few rows are left of so many: 50 000, the last one in
    /// a hundred, and none.
    pub fn tell_rows_left(&mut self, limit: u32)
        ensures { self.new ≡ self.old }
    {
        self.rows_left = RowsLeft::of(limit);
    }

    // Tells how many rows are left, where that is to be told, as what was written is stable.
    fn tell_left(&mut self)
        ensures { self.new ≡ self.old }
    {
        if let Some(left) = self.rows_left.synced() {
            let _ = eprintln!(self.rt; "hall: {left}");
        }
    }

    // Counts a call that failed, and tells why where that wasn't told.
    fn answer<T>(&mut self, done: io::Result<T>) -> Result<T, Failed>
        ensures value { (value : T) → result ≡ Ok value → done ≡ Ok value }
        ensures failed { IsErr done → IsErr result }
        ensures kept { self.new.is_open ≡ self.old.is_open }
        ensures named { self.new.path ≡ self.old.path }
        ensures cause { CountsFault self.old.faults self.new.faults result }
    {
        match done {
            Ok(value) => Ok(value),
            Err(error) => {
                self.faults = counted_once_more(self.faults);
                if !self.told {
                    self.told = true;
                    let _ = eprintln!(self.rt; "hall: the book's disk failed: {error}");
                }
                Err(Failed)
            }
        }
    }
}

impl<R: Files<File = File> + AllocGlobal + Eprint + Drop> FileDisk<R> {
    ghost use Rattle.std.specs.Prelude.{◌≡◌, true, Some};

    /// Opens the book at this path for writing, and makes its file where there is none. The file
    /// stays locked for as long as the disk is there, so no other hall writes it. Where it is
    /// empty, its folder is synced, so that a crash leaves its name. A file that can't be opened,
    /// made, locked or synced, that is no regular file, has at most 97 bytes that aren't the
    /// beginning of a book, or ends with a snapshot that fits and doesn't have the rows of its slots,
    /// gives a disk that isn't open. Nothing is cut off a file but the zeros that a hall wrote ahead
    /// of its rows, at most 64 KB, and left there as it was killed.
    pub fn open(rt: R, path: &str) -> Self
        ensures faults { result.faults ≡ 0 }
        ensures named { result.is_open ≡ true → result.path ≡ Some path.now }
    {
        let mut notice = None;
        let file = match open_present(&rt, path) {
            Err(error) if error.is_of(ErrorKind::NotFound) => {
                notice = Some(Notice::Made);
                make(&rt, path)
            }
            Ok(file) => to_be_written(file),
            Err(error) => Err(error),
        };
        let backing = named(&rt, path, file);
        Self::over(rt, path, backing, notice)
    }

    /// Opens the book at this path for a command that adds nothing. No file is made: where there is
    /// none the disk isn't open. A book that another hall has open, or whose file can't be written, is
    /// read into memory; otherwise the disk is as by `open`, and its slots aren't compared with a
    /// snapshot; the zeros behind its rows stay there and don't count.
    pub fn open_to_read(rt: R, path: &str) -> Self
        ensures faults { result.faults ≡ 0 }
        ensures named { result.is_open ≡ true → result.path ≡ Some path.now }
    {
        match open_present(&rt, path) {
            Err(OpenError::Held) => {
                let copied = copy_book(&rt, path);
                Self::over_copy(rt, path, copied)
            }
            Err(error) if is_unwritable(&error) => {
                let copied = copy_book(&rt, path);
                Self::over_copy(rt, path, copied)
            }
            found => {
                let backing = named(&rt, path, found);
                Self::over(rt, path, backing, None)
            }
        }
    }

    // A disk that was asked for by this path and is open on this, or isn't; nor is it where there is
    // no memory for the path.
    fn over(rt: R, path: &str, backing: Result<Backing, OpenError>, notice: Option<Notice>) -> Self
        ensures faults { result.faults ≡ 0 }
        ensures named { result.is_open ≡ true → result.path ≡ Some path.now }
    {
        let (path, backing) = match String::from_str(rt.alloc(), path) {
            Ok(path) => (Some(path), backing),
            Err(error) => (None, Err(error.into())),
        };
        FileDisk {
            rt,
            told: backing.is_err(),
            path,
            notice,
            rows_left: RowsLeft::untold(),
            backing,
            faults: 0,
        }
    }

    // A disk in memory of what the file at this path holds, or none.
    fn over_copy(rt: R, path: &str, copied: Result<BookCopy, OpenError>) -> Self
        ensures faults { result.faults ≡ 0 }
        ensures named { result.is_open ≡ true → result.path ≡ Some path.now }
    {
        match copied {
            Ok(copied) => {
                let backing = Ok(Backing::Memory(copied.disk));
                Self::over(rt, path, backing, Some(copied.notice))
            }
            Err(error) => Self::over(rt, path, Err(error), None),
        }
    }
}

// Whether the system doesn't let a file be written.
fn is_unwritable(error: &OpenError) -> bool {
    error.is_of(ErrorKind::PermissionDenied) || error.is_of(ErrorKind::ReadOnlyFilesystem)
}

// A file that was opened, with its path.
fn named<R: AllocGlobal>(
    rt: &R,
    path: &str,
    file: Result<File, OpenError>,
) -> Result<Backing, OpenError> {
    Ok(Backing::Named(NamedFile::new(rt.alloc(), path, file?)?))
}

// What a disk that isn't open answers.
fn shut<T>() -> io::Result<T>
    ensures { IsErr result }
{
    Err(ErrorKind::NotConnected.into())
}

impl<R: Files<File = File> + AllocGlobal + Eprint + Drop> Disk for FileDisk<R> {
    ghost use Rattle.std.specs.Prelude.{◌≡◌, ◌+◌, ◌<◌, ◌≤◌, false, length, IsErr, IfOk};
    ghost use Rattle.device_facts.specs.Count.{CountsFault};
    ghost use Rattle.disk_core.specs.Untold.{untold, NoImage, NoMoment, told_nothing};
    ghost use Rattle.file_disk.specs.OpenFile.{never_asked};

    ghost reads = { λ d. untold };

    ghost image = { λ d. NoImage };

    ghost time = { λ d. 0 };

    ghost since = { λ d. NoMoment };

    ghost faults = { λ d. d.faults };

    ghost asked = { never_asked };

    ghost reads_image = { λ d bytes told. told_nothing bytes told };

    ghost counts_now = { λ d t c le is. is };

    ghost only_now = { λ d c is. is };

    fn len(&mut self) -> Result<u64, Failed>
        ensures closed { self.old.is_open ≡ false → IsErr result }
        ensures kept { self.new.is_open ≡ self.old.is_open }
        ensures named { self.new.path ≡ self.old.path }
        ensures cause { CountsFault self.old.faults self.new.faults result }
    {
        let length = match &mut self.backing {
            Ok(backing) => backing.len(),
            Err(_) => shut(),
        };
        self.answer(length)
    }

    fn read_at(&mut self, place: u64, into: &mut [u8]) -> Result<usize, Failed>
        ensures closed { self.old.is_open ≡ false → IsErr result }
        ensures bound { IfOk result (λ count. count ≤ length into.new) }
        ensures kept { self.new.is_open ≡ self.old.is_open }
        ensures named { self.new.path ≡ self.old.path }
        ensures cause { CountsFault self.old.faults self.new.faults result }
    {
        let count = match &mut self.backing {
            Ok(backing) => backing.read_at(place, into),
            Err(_) => shut(),
        };
        self.answer(count)
    }

    fn write_at(&mut self, place: u64, bytes: &[u8]) -> Result<(), Failed>
        requires { place + length bytes.now < DISK_END }
        ensures closed { self.old.is_open ≡ false → IsErr result }
        ensures kept { self.new.is_open ≡ self.old.is_open }
        ensures named { self.new.path ≡ self.old.path }
        ensures cause { CountsFault self.old.faults self.new.faults result }
    {
        let done = match &mut self.backing {
            Ok(backing) => backing.write_at(place, bytes),
            Err(_) => shut(),
        };
        if done.is_ok() {
            self.rows_left.wrote(place, bytes);
        }
        self.answer(done)
    }

    fn sync(&mut self) -> Result<(), Failed>
        ensures closed { self.old.is_open ≡ false → IsErr result }
        ensures kept { self.new.is_open ≡ self.old.is_open }
        ensures named { self.new.path ≡ self.old.path }
        ensures cause { CountsFault self.old.faults self.new.faults result }
    {
        let done = match &mut self.backing {
            Ok(backing) => backing.sync(&self.rt),
            Err(_) => shut(),
        };
        self.told = self.told && done.is_err();
        if done.is_ok() {
            self.tell_left();
        }
        self.answer(done)
    }
}

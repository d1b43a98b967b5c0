use crate::last_row::LastRow;
use crate::room::{begins_row, counted, end_of_piece, sets_mark, write_zeros};
use crate::size_limit::{greatest_size, too_large};
use crate::transfer::{fill, settle};
use std::alloc::Global;
use std::fs::{File, canonicalize, metadata, read_link};
use std::io;
use std::io::{ErrorKind, Seek, SeekFrom};
use std::os::fd::AsRawFd;
use std::os::unix::fs::{FileExt, MetadataExt};
use std::path::PathBuf;
use std::rt::Files;

/// An open file, and the path that it was opened by. It may have zeros behind the bytes that count,
/// as room for the rows to come; a file that is let go has none that this hall wrote.
///
/// For a row the system isn't asked for the file's `metadata`: that asks for its times, and where
/// they were asked for, Linux 6.13 stamps the next write anew, so that its sync takes twice as long.
pub(crate) struct NamedFile {
    path: String,
    // Where the system says what the open file is called.
    link: String,
    file: File,
    device: u64,
    number: u64,
    // How many bytes count: those that were written through this disk, and those there before.
    length: u64,
    // How many bytes the file has, as far as this hall wrote it: those, and the room behind them.
    size: u64,
    // Whether this hall wrote room into it.
    has_room: bool,
    // The end up to which room was to be written last.
    tried: u64,
    // The row that was written last.
    last: Option<LastRow>,
    // Whether what was written last only begins a row, so that nothing is acknowledged by it.
    begun_alone: bool,
    greatest_size: u64,
    // The size with which the file's number was compared last.
    compared: u64,
}

// By hand, since the room goes with it.
impl Drop for NamedFile {
    fn drop(self) {
        if self.has_room && self.size > self.length && self.is_as_left().is_ok() {
            let _ = self.file.set_len(self.length);
        }
        let Self {
            path: _,
            link: _,
            file: _,
            device: _,
            number: _,
            length: _,
            size: _,
            has_room: _,
            tried: _,
            last: _,
            begun_alone: _,
            greatest_size: _,
            compared: _,
        } = self;
    }
}

impl NamedFile {
    ghost use Rattle.std.specs.Prelude.{◌≤◌, length, IfOk};

    /// Of a file that was opened at this path.
    pub(crate) fn new(alloc: Global, path: &str, file: File) -> io::Result<Self> {
        let found = file.metadata()?;
        let length = counted(&file, found.len())?;
        let Ok(path) = format!(in alloc; "{path}") else {
            return Err(ErrorKind::OutOfMemory.into());
        };
        let Ok(link) = format!(in alloc; "/proc/self/fd/{}", file.as_raw_fd()) else {
            return Err(ErrorKind::OutOfMemory.into());
        };
        Ok(NamedFile {
            path,
            link,
            file,
            device: found.dev(),
            number: found.ino(),
            length,
            size: found.len(),
            has_room: false,
            tried: 0,
            last: None,
            begun_alone: false,
            greatest_size: greatest_size(),
            compared: 0,
        })
    }

    /// How many bytes count. It fails where somebody else has made the file longer or shorter.
    pub(crate) fn len(&self) -> io::Result<u64> {
        self.has_its_size()?;
        Ok(self.length)
    }

    /// Fills a buffer with the bytes from a place on, as many as count.
    pub(crate) fn read_at(&self, place: u64, into: &mut [u8]) -> io::Result<usize>
        ensures { IfOk result (λ count. count ≤ length into.new) }
    {
        let most = self.length.saturating_sub(place).min(into.len() as u64);
        fill(&self.file, place, &mut into[..most as usize])
    }

    /// Puts all bytes into the file from a place on. It fails where the file would be larger than the
    /// system allowed as it was opened, and where somebody else has made it longer or shorter since,
    /// or has written over the last row. What begins a row gets room ahead, where there is any; what
    /// makes a snapshot count is written to a file that ends with it.
    pub(crate) fn write_at(&mut self, place: u64, bytes: &[u8]) -> io::Result<()> {
        let end = place.saturating_add(bytes.len() as u64);
        if end > self.greatest_size {
            return Err(too_large());
        }
        self.begun_alone = begins_row(place, bytes);
        if self.begun_alone {
            self.is_as_left()?;
            self.make_room(end)?;
        } else {
            self.has_its_size()?;
        }
        if sets_mark(place, bytes) {
            self.cut_room()?;
        }
        let done = self.file.write_all_at(bytes, place);
        self.note(place, bytes, done.is_ok())?;
        done
    }

    // Keeps what was written, or may be where the system failed.
    fn note(&mut self, place: u64, bytes: &[u8], is_done: bool) -> io::Result<()> {
        let end = place.saturating_add(bytes.len() as u64);
        if is_done {
            self.size = self.size.max(end);
            self.last = self.last_row(place, bytes);
        } else {
            // A part of the bytes may be there.
            self.size = self.file.metadata()?.len();
            self.last = None;
        }
        self.length = self.length.max(end.min(self.size));
        Ok(())
    }

    // The last row, where these bytes were written at a place.
    fn last_row(&self, place: u64, bytes: &[u8]) -> Option<LastRow> {
        if self.begun_alone {
            return LastRow::begun(place, bytes);
        }
        let row = self.last?;
        match bytes {
            [byte] => Some(row.with_gate(place, *byte)),
            _ => Some(row),
        }
    }

    // Writes room ahead, where a row would make the file longer: up to the end of the piece in which
    // it ends. Where that can't be written, as on a full disk, the file is as it was, and the rows of
    // this piece make it longer one by one.
    fn make_room(&mut self, end: u64) -> io::Result<()> {
        let piece = end_of_piece(end);
        if end <= self.size || end <= self.tried || piece > self.greatest_size {
            return Ok(());
        }
        self.tried = piece;
        if write_zeros(&self.file, self.size, piece).is_err() {
            return self.file.set_len(self.size);
        }
        self.size = piece;
        self.has_room = true;
        Ok(())
    }

    // Takes the room away, so that the file ends with the bytes that count.
    fn cut_room(&mut self) -> io::Result<()> {
        if self.size > self.length {
            self.file.set_len(self.length)?;
            self.size = self.length;
            self.tried = 0;
            settle(&self.file)?;
        }
        Ok(())
    }

    /// Makes all that was put stable. It fails where somebody else has made the file longer or
    /// shorter. Where more was put than the beginning of a row it fails too where the path names
    /// another file by now, or none, and where somebody else has written over the last row.
    pub(crate) fn sync<R: Files<File = File> + AllocGlobal>(&mut self, rt: &R) -> io::Result<()> {
        let done = settle(&self.file);
        if done.is_err() {
            self.last = None;
            return done;
        }
        if self.begun_alone {
            self.begun_alone = false;
            return self.has_its_size();
        }
        if !self.is_named(rt)? {
            return Err(io::Error::other("the file at its path was replaced or deleted"));
        }
        self.is_as_left()
    }

    // Fails where the file has another size than this hall left.
    fn has_its_size(&self) -> io::Result<()> {
        if size_of(&self.file)? == self.size {
            Ok(())
        } else {
            Err(changed())
        }
    }

    // Fails where the file has another size, or another last row, than this hall left.
    fn is_as_left(&self) -> io::Result<()> {
        self.has_its_size()?;
        match &self.last {
            Some(row) if !row.stands_in(&self.file)? => Err(changed()),
            _ => Ok(()),
        }
    }

    // Whether the path names this file, or a folder on it goes by another name. The file's number is
    // compared once a piece of room, and where the names don't settle it.
    fn is_named<R: Files<File = File> + AllocGlobal>(&mut self, rt: &R) -> io::Result<bool> {
        if self.compared == self.size && self.is_called_so(rt) {
            return Ok(true);
        }
        self.compared = self.size;
        match metadata(rt, self.path.as_str()) {
            Ok(found) => Ok(found.dev() == self.device && found.ino() == self.number),
            Err(error) if error.kind() == ErrorKind::NotFound => {
                Ok(self.file.metadata()?.nlink() > 0 && self.lacks_folder(rt))
            }
            Err(_) => Ok(true),
        }
    }

    // Whether the path leads to where the system says that the open file is: a path that is its name
    // there does, since the system's name goes through no link. It doesn't where either can't be
    // told, as without memory for the names.
    fn is_called_so<R: Files<File = File> + AllocGlobal>(&self, rt: &R) -> bool {
        match read_link(rt, self.link.as_str()) {
            Ok(called) => called.as_str() == self.path.as_str() || self.leads_to(rt, &called),
            Err(_) => false,
        }
    }

    // Whether the path leads to the file of this name, which goes through no link.
    fn leads_to<R: Files<File = File> + AllocGlobal>(&self, rt: &R, called: &PathBuf) -> bool {
        match canonicalize(rt, self.path.as_str()) {
            Ok(led) => led == *called,
            Err(_) => false,
        }
    }

    // Whether the folder that the path names isn't there.
    fn lacks_folder<R: Files<File = File>>(&self, rt: &R) -> bool {
        match self.path.rsplit_once('/') {
            Some((folder, _)) => !folder.is_empty() && metadata(rt, folder).is_err(),
            None => false,
        }
    }
}

// How many bytes a file has.
fn size_of(file: &File) -> io::Result<u64> {
    let mut file = file;
    file.seek(SeekFrom::End(0))
}

// Why a file isn't written that isn't as this hall left it.
fn changed() -> io::Error {
    io::Error::other("somebody else has cut or overwritten its file")
}

ghost use Rattle.std.specs.Prelude.{◌≤◌, length, IfOk};

use crate::pipes::{open_end, waits_for_writer};
use crate::readiness::{Ready, ready_to_read, ready_to_write};
use std::fs::{File, OpenOptions};
use std::io;
use std::io::{Eprint, ErrorKind, Read, Write};
use std::marker::Model;
use std::os::fd::AsRawFd;
use std::rt::Files;
use stop_file::{LOOK, StopFile};

// For how many ms a gate's pipe is full, or has no reader, before that is told.
const UNREAD: i32 = 5_000;

// For how many ms a line that has begun is waited for where somebody asks that the hall end.
const LAST_LINE: i32 = 400;

// What came of opening a file.
#[derive(Drop)]
enum Opening {
    Untried,
    Open(File),
    Shut,
}

/// A file that is opened when it is first read or written, and not before: a named pipe waits then
/// for who opens its other end. A file that can't be opened then is not tried again, and each call
/// fails. Standard error is told its path and why it can't be opened, read or written, once for calls
/// that fail one after another; and that nobody reads what is written for so long.
///
/// Where somebody asks that the hall end, a file that is read has its end behind a whole line, and one
/// that would have to wait to be written fails.
pub struct LateFile<'a, R: Files<File = File> + Eprint> {
    rt: &'a R,
    path: String,
    options: OpenOptions,
    stop: StopFile,
    opening: Opening,
    // Whether who has the other end of a pipe came, as far as is known.
    has_come: bool,
    // Whether a line has begun.
    in_line: bool,
    told: bool,
}

// By hand, so that letting one go is one call, where a derived drop is spelled at each exit.
impl<'a, R: Files<File = File> + Eprint> Drop for LateFile<'a, R> {
    fn drop(self) {
        let Self {
            rt: _,
            path: _,
            options: _,
            stop: _,
            opening: _,
            has_come: _,
            in_line: _,
            told: _,
        } = self;
    }
}

impl<'a, R: Files<File = File> + Eprint> Model for LateFile<'a, R> {
    ghost use Rattle.std.specs.String.{string_bytes};
    ghost use Rattle.lane_files.specs.LateFile.{LateFile as Late, is_shut};

    ghost Value = { Late };

    ghost view = { λ f. record { is_shut = is_shut f.opening; path = string_bytes f.path } };
}

impl<'a, R: Files<File = File> + Eprint> LateFile<'a, R> {
    ghost use Rattle.std.specs.Prelude.{◌≡◌, ◌≤◌, true, false, length, IfOk, IsErr};
    ghost use Rattle.std.specs.String.{string_bytes};

    /// The file at a path, to be opened so. It isn't opened yet.
    pub fn new(rt: &'a R, path: String, options: OpenOptions, stop: StopFile) -> Self
        ensures { result ≡ record { is_shut = false; path = string_bytes path } }
    {
        LateFile {
            rt,
            path,
            options,
            stop,
            opening: Opening::Untried,
            has_come: false,
            in_line: false,
            told: false,
        }
    }

    // Opens the file, where that wasn't tried.
    fn open(&mut self)
        ensures { self.old.is_shut ≡ true → self.new.is_shut ≡ true }
    {
        if let Opening::Untried = self.opening {
            self.opening = match open_end(self.rt, &self.options, self.path.as_str()) {
                Ok(file) => Opening::Open(file),
                Err(error) => {
                    say_why(self.rt, "open", self.path.as_str(), &error);
                    Opening::Shut
                }
            };
        }
    }

    // Reads from the file.
    fn read_file(&mut self, into: &mut [u8]) -> io::Result<usize>
        ensures shut { self.old.is_shut ≡ true → IsErr result }
        ensures kept { self.old.is_shut ≡ true → self.new.is_shut ≡ true }
        ensures bound { IfOk result (λ count. count ≤ length into.new) }
    {
        self.open();
        match &mut self.opening {
            Opening::Open(file) => {
                let place = Place {
                    file,
                    stop: &self.stop,
                    has_come: &mut self.has_come,
                    in_line: &mut self.in_line,
                };
                let count = read_line_end(place, into);
                tell(self.rt, "read", self.path.as_str(), &mut self.told, &count);
                count
            }
            _ => Err(ErrorKind::NotFound.into()),
        }
    }

    // Writes into the file.
    fn write_file(&mut self, bytes: &[u8]) -> io::Result<usize>
        ensures shut { self.old.is_shut ≡ true → IsErr result }
        ensures kept { self.old.is_shut ≡ true → self.new.is_shut ≡ true }
        ensures bound { IfOk result (λ count. count ≤ length bytes.now) }
    {
        self.open();
        match &mut self.opening {
            Opening::Open(file) => {
                let may_write = await_reader(
                    self.rt,
                    self.path.as_str(),
                    file,
                    &self.stop,
                    &mut self.has_come,
                );
                let count = match may_write {
                    Ok(()) => file.write(bytes),
                    Err(error) => Err(error),
                };
                tell(self.rt, "write", self.path.as_str(), &mut self.told, &count);
                count
            }
            _ => Err(ErrorKind::NotFound.into()),
        }
    }
}

// A file that is read, whether somebody asks that the hall end, and what is known of the file.
#[derive(Drop)]
struct Place<'b> {
    file: &'b mut File,
    stop: &'b StopFile,
    has_come: &'b mut bool,
    in_line: &'b mut bool,
}

// Reads what is there, or waits for it. Where somebody asks that the hall end, the end comes behind a
// whole line.
fn read_line_end(place: Place, into: &mut [u8]) -> io::Result<usize>
    ensures bound { IfOk result (λ count. count ≤ length into.new) }
{
    let Place {
        file,
        stop,
        has_come,
        in_line,
    } = place;
    let is_asked = await_bytes(file, stop, has_come);
    if is_asked && !*in_line {
        return Ok(0);
    }
    if is_asked {
        return read_rest(file, in_line, into);
    }
    let count = file.read(into)?;
    let newest = into.get(..count).unwrap_or(&[]).last();
    *in_line = newest.is_some_and(|byte| *byte != b'\n');
    Ok(count)
}

// Waits until there is something to read, or somebody asks that the hall end, which it tells.
fn await_bytes(file: &File, stop: &StopFile, has_come: &mut bool) -> bool {
    if !*has_come && !waits_for_writer(file, stop) {
        return true;
    }
    *has_come = true;
    for _turn in 0..u64::MAX {
        if stop.is_there() {
            return true;
        }
        if ready_to_read(file.as_raw_fd(), wait_for(stop)) != Ready::Later {
            return false;
        }
    }
    false
}

// For how long a call waits: without a limit where nobody can ask that the hall end.
fn wait_for(stop: &StopFile) -> i32 {
    if stop.may_come() { LOOK } else { -1 }
}

// Reads the next byte of a line that has begun, where somebody asks that the hall end. It fails where
// none comes for too long, so a line that isn't whole is none.
fn read_rest(file: &mut File, in_line: &mut bool, into: &mut [u8]) -> io::Result<usize>
    ensures bound { IfOk result (λ count. count ≤ length into.new) }
{
    if ready_to_read(file.as_raw_fd(), LAST_LINE) == Ready::Later {
        return Err(ErrorKind::TimedOut.into());
    }
    let mut byte = [0];
    let count = file.read(&mut byte)?;
    if count == 0 || into.is_empty() {
        return Ok(0);
    }
    into[0] = byte[0];
    *in_line = byte[0] != b'\n';
    Ok(1)
}

// Waits until a file can be written. It fails where that would have to be waited for and somebody asks
// that the hall end. That nobody reads a pipe is told after a time.
fn await_reader<R: Eprint>(
    rt: &R,
    path: &str,
    file: &File,
    stop: &StopFile,
    has_come: &mut bool,
) -> io::Result<()> {
    let mut waited: i32 = 0;
    for _turn in 0..u64::MAX {
        match ready_to_write(file.as_raw_fd(), LOOK) {
            Ready::Now => break,
            Ready::Gone if *has_come => break,
            Ready::Gone | Ready::Later => {}
        }
        if stop.is_there() {
            return Err(io::Error::other("nobody reads it, and the hall is asked to end"));
        }
        if waited < UNREAD && UNREAD <= waited.saturating_add(LOOK) {
            let _ = eprintln!(rt; "hall: {path}: nobody has read it for 5 s");
        }
        waited = waited.saturating_add(LOOK);
    }
    *has_come = true;
    Ok(())
}

// Says why a file can't be opened, read or written.
fn say_why<R: Eprint>(rt: &R, what: &str, path: &str, error: &io::Error) {
    let _ = eprintln!(rt; "hall: can't {what} {path}: {error}");
}

// Says why a call failed, where the one before didn't. One that is interrupted is made again.
fn tell<R: Eprint>(rt: &R, what: &str, path: &str, told: &mut bool, count: &io::Result<usize>) {
    match count {
        Ok(_) => *told = false,
        Err(error) if error.kind() == ErrorKind::Interrupted => {}
        Err(error) => {
            if !*told {
                say_why(rt, what, path, error);
            }
            *told = true;
        }
    }
}

impl<'a, R: Files<File = File> + Eprint> Read for LateFile<'a, R> {
    fn read(&mut self, buf: &mut [u8]) -> io::Result<usize> {
        self.read_file(buf)
    }
}

impl<'a, R: Files<File = File> + Eprint> Write for LateFile<'a, R> {
    fn write(&mut self, buf: &[u8]) -> io::Result<usize> {
        self.write_file(buf)
    }

    // Nothing is kept back.
    fn flush(&mut self) -> io::Result<()> {
        Ok(())
    }
}

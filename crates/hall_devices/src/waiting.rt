//! Standard input and output that a parent left nonblocking (`O_NONBLOCK`): where such a call would
//! wait, the stream is waited for, and the call counts as interrupted, so that it is made again.
use libc::net::{POLLIN, POLLOUT, poll};
use libc::types::pollfd;
use std::io;
use std::io::{ErrorKind, Read, Write};
use std::marker::Model;

/// The time without a limit.
const FOREVER: i32 = -1;

/// A stream that is waited for.
#[derive(Drop)]
pub struct Waiting<S: Drop> {
    stream: S,
    ready: pollfd,
}

impl<S: Drop> Model for Waiting<S> {
    ghost Value = { S };

    ghost view = { λ waiting. waiting.stream };
}

impl<S: Drop> Waiting<S> {
    ghost use Rattle.std.specs.Prelude.{◌≡◌};

    /// Standard input.
    pub fn to_read(stream: S) -> Self
        ensures { result ≡ stream }
    {
        Self::new(stream, 0, POLLIN)
    }

    /// Standard output.
    pub fn to_write(stream: S) -> Self
        ensures { result ≡ stream }
    {
        Self::new(stream, 1, POLLOUT)
    }

    // A stream of this descriptor, which is ready for these events.
    fn new(stream: S, fd: i32, events: i16) -> Self
        ensures { result ≡ stream }
    {
        let ready = pollfd {
            fd,
            events,
            revents: 0,
        };
        Waiting { stream, ready }
    }
}

// Why a call failed. Where it would have to wait it counts as interrupted, once the stream is ready;
// or a signal has come, or the system can't wait: then too it is made again.
fn once_ready(error: io::Error, ready: pollfd) -> io::Error {
    if error.kind() != ErrorKind::WouldBlock {
        return error;
    }
    let _ = poll(&mut [ready], FOREVER);
    ErrorKind::Interrupted.into()
}

impl<R: Read + Drop> Read for Waiting<R> {
    ghost remaining = { R.remaining };

    fn read(&mut self, buf: &mut [u8]) -> io::Result<usize> {
        match self.stream.read(buf) {
            Ok(count) => Ok(count),
            Err(error) => Err(once_ready(error, self.ready)),
        }
    }
}

impl<W: Write + Drop> Write for Waiting<W> {
    ghost contents = { W.contents };

    fn write(&mut self, buf: &[u8]) -> io::Result<usize> {
        match self.stream.write(buf) {
            Ok(count) => Ok(count),
            Err(error) => Err(once_ready(error, self.ready)),
        }
    }

    fn flush(&mut self) -> io::Result<()> {
        self.stream.flush()
    }
}

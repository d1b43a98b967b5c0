use disk_core::Failed;
use std::io;
use std::io::ErrorKind;
use std::net::{TcpListener, TcpStream};

// The system's numbers of the errors that say that a listener is none: no such descriptor, a socket
// that doesn't listen, no socket.
const BAD_DESCRIPTOR: i32 = 9;

const INVALID: i32 = 22;

const NO_SOCKET: i32 = 88;

/// What came of accepting a connection.
#[derive(Drop)]
pub(crate) enum Accepted {
    /// A connection.
    Link(TcpStream),
    /// Nobody waits.
    Nobody,
    /// A connection that its client gave up before it was accepted.
    Passed,
    /// None can be accepted for now, as where no descriptor or no memory is left.
    Later(io::Error),
}

/// Accepts a connection. It fails where no try can be better.
pub(crate) fn accept_from(listener: &TcpListener) -> Result<Accepted, Failed> {
    match listener.accept() {
        Ok((link, _)) => Ok(Accepted::Link(link)),
        Err(error) if is_broken(&error) => Err(Failed),
        Err(error) => Ok(match error.kind() {
            ErrorKind::WouldBlock => Accepted::Nobody,
            ErrorKind::Interrupted | ErrorKind::ConnectionAborted => Accepted::Passed,
            _ => Accepted::Later(error),
        }),
    }
}

// Whether an error says that the listener is none.
fn is_broken(error: &io::Error) -> bool {
    matches!(
        error.raw_os_error(),
        Some(BAD_DESCRIPTOR | INVALID | NO_SOCKET)
    )
}

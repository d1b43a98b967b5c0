ghost use Rattle.std.specs.Prelude.{◌≡◌, ◌⊎◌, ◌↔◌, ◌<◌, ◌≤◌, true, false, length, take, IfOk, IfSome};
ghost use Rattle.std.specs.Io.KnownBytes.{Consumes};
ghost use Rattle.std.specs.IoError.{error_kind};
ghost use Rattle.std.specs.declared.io.ErrorKind.TheVariants.{Interrupted, WouldBlock, ConnectionReset};

use disk_core::Failed;
use std::io;
use std::io::{ErrorKind, Read, Write};
use std::net::TcpStream;
use std::time::Duration;

/// For how many ms a call on a link waits before the door looks at its clock and at who else is
/// there: nobody notices so little, and it is no load.
pub(crate) const LOOK: u64 = 20;

/// Sets a link that was just accepted: small writes go out at once, and no call waits for long.
pub(crate) fn prepare(link: &TcpStream) -> io::Result<()> {
    link.set_nodelay(true)?;
    link.set_read_timeout(Some(Duration::from_millis(LOOK)))?;
    link.set_write_timeout(Some(Duration::from_millis(LOOK)))
}

/// Waits for a moment until there is something to read on a link whose calls don't wait.
pub(crate) fn wait_on(link: &TcpStream) -> io::Result<()> {
    link.set_nonblocking(false)?;
    let _ = link.peek(&mut [0]);
    link.set_nonblocking(true)
}

/// What it means that a read gave an error.
#[derive(Clone, Copy, PartialEq, Eq)]
enum Silence {
    /// Nothing has come yet, and the read may be made again.
    Pause,
    /// The client cut its link between requests: that is the connection's end.
    Ended,
    /// The link is lost.
    Lost,
}

// What an error of a read means, within a request and between two.
fn silence_of(error: &io::Error, in_request: bool) -> Silence
    ensures again { (result ≡ Silence.Pause)
        ↔ ((error_kind error.now ≡ Interrupted) ⊎ (error_kind error.now ≡ WouldBlock)) }
    ensures ended { (result ≡ Silence.Ended)
        ↔ ((error_kind error.now ≡ ConnectionReset) × (in_request ≡ false)) }
{
    match error.kind() {
        ErrorKind::Interrupted | ErrorKind::WouldBlock => Silence::Pause,
        ErrorKind::ConnectionReset if !in_request => Silence::Ended,
        _ => Silence::Lost,
    }
}

/// Reads the next bytes into the beginning of a buffer, and tells how many they are; none where the
/// read may be made again.
pub(crate) fn receive_from<R: Read>(
    reader: &mut R,
    in_request: bool,
    into: &mut [u8],
) -> Result<Option<usize>, Failed>
    ensures bound { IfOk result (λ tried. IfSome tried (λ count. count ≤ length into.new)) }
    ensures bytes { IfOk result (λ tried. IfSome tried (λ count. Consumes
        (R.remaining reader.old) (R.remaining reader.new) (take count into.new))) }
{
    match reader.read(into) {
        Ok(count) => Ok(Some(count)),
        Err(error) => match silence_of(&error, in_request) {
            Silence::Pause => Ok(None),
            Silence::Ended => Ok(Some(0)),
            Silence::Lost => Err(Failed),
        },
    }
}

/// Writes the beginning of some bytes, at least one, and tells how many they are; none where the
/// write may be made again.
pub(crate) fn send_to(link: &TcpStream, bytes: &[u8]) -> Result<Option<usize>, Failed>
    ensures bound { IfOk result (λ tried. IfSome tried (λ count. count ≤ length bytes.now)) }
    ensures some { IfOk result (λ tried. IfSome tried (λ count.
        0 < length bytes.now → 0 < count)) }
{
    match (&mut &*link).write(bytes) {
        Ok(0) if !bytes.is_empty() => Err(Failed),
        Ok(count) => Ok(Some(count)),
        Err(error) if is_pause(&error) => Ok(None),
        Err(_) => Err(Failed),
    }
}

// Whether a call that gave nothing may be made again: it was interrupted, or had nothing to read or
// no room to write for as long as it waits.
fn is_pause(error: &io::Error) -> bool
    ensures { (result ≡ true)
        ↔ ((error_kind error.now ≡ Interrupted) ⊎ (error_kind error.now ≡ WouldBlock)) }
{
    matches!(error.kind(), ErrorKind::Interrupted | ErrorKind::WouldBlock)
}

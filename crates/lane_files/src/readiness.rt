//! Whether a call on a file would wait.
use libc::net::{POLLERR, POLLIN, POLLOUT, poll};
use libc::types::pollfd;

/// What a file is ready for.
#[derive(Clone, Copy, PartialEq, Eq)]
pub(crate) enum Ready {
    /// A call doesn't wait, whatever it gives.
    Now,
    /// Nobody has the other end of a pipe that is written.
    Gone,
    /// A call would wait.
    Later,
}

// What a descriptor is ready for, of these events, within so many ms.
fn events_of(fd: i32, events: i16, wait: i32) -> i16 {
    let mut asked = [pollfd {
        fd,
        events,
        revents: 0,
    }];
    if poll(&mut asked, wait) > 0 {
        asked[0].revents
    } else {
        0
    }
}

/// Whether a file may be read, within so many ms.
pub(crate) fn ready_to_read(fd: i32, wait: i32) -> Ready {
    if events_of(fd, POLLIN, wait) == 0 {
        Ready::Later
    } else {
        Ready::Now
    }
}

/// Whether a file may be written, within so many ms. Where nobody has the other end of a pipe these
/// are waited for.
pub(crate) fn ready_to_write(fd: i32, wait: i32) -> Ready {
    let events = events_of(fd, POLLOUT, wait);
    if events & POLLERR != 0 {
        let _ = poll(&mut [], wait);
        return Ready::Gone;
    }
    if events == 0 {
        Ready::Later
    } else {
        Ready::Now
    }
}

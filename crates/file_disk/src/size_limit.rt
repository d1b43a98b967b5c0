//! The greatest size that a file of this process may have (`ulimit -f`). A write behind it would end
//! the program by a signal, so it isn't made.
use libc::getrlimit;
use libc::types::rlimit;
use std::io;

/// What `getrlimit` is asked for: the greatest size of a file.
const FILE_SIZE: i32 = 1;

/// The system's number of the error of a file that would be too large (EFBIG).
const TOO_LARGE: i32 = 27;

/// The greatest size of a file, in bytes. Where the system tells none it is 2^64 - 1.
pub(crate) fn greatest_size() -> u64 {
    let mut limit = rlimit {
        rlim_cur: u64::MAX,
        rlim_max: u64::MAX,
    };
    if getrlimit(FILE_SIZE, &mut limit) == 0 {
        limit.rlim_cur
    } else {
        u64::MAX
    }
}

/// Why a file isn't made larger than that.
pub(crate) fn too_large() -> io::Error {
    io::Error::from_raw_os_error(TOO_LARGE)
}

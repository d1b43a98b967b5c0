//! The ends of named pipes, which are opened without waiting for who opens the other end.
use file_disk::above_streams;
use libc::net::{
    EPOLL_CLOEXEC, EPOLL_CTL_ADD, EPOLLHUP, EPOLLIN, POLLHUP, POLLIN, epoll_create1, poll,
};
use libc::types::pollfd;
use os::EpollEvent;
use std::fs::{File, OpenOptions, metadata};
use std::io;
use std::os::fd::AsRawFd;
use std::os::unix::fs::FileTypeExt;
use std::rt::Files;
use stop_file::{LOOK, StopFile};

// What is told as it comes about, and not for as long as it is so.
const EDGES: u32 = 1 << 31;

/// Opens a file under a descriptor above those of the standard streams. A named pipe is opened
/// without waiting for who opens its other end, where it may be opened for reading and writing.
pub(crate) fn open_end<R: Files<File = File>>(
    rt: &R,
    options: &OpenOptions,
    path: &str,
) -> io::Result<File> {
    let both = both_ends(rt, path);
    let file = above_streams(options.open(rt, path)?)?;
    drop(both);
    Ok(file)
}

// Both ends of a named pipe; none of any other file.
fn both_ends<R: Files<File = File>>(rt: &R, path: &str) -> Option<File> {
    let found = metadata(rt, path).ok()?;
    if !found.file_type().is_fifo() {
        return None;
    }
    let mut both = OpenOptions::new();
    both.read(true).write(true);
    both.open(rt, path).ok()
}

/// Waits until somebody opens a pipe to write it, or has done so; nobody is waited for at another
/// file. False where somebody asks that the hall end before.
pub(crate) fn waits_for_writer(file: &File, stop: &StopFile) -> bool {
    let fd = file.as_raw_fd();
    if !is_pipe(file) || !lacks_writer(fd) {
        return true;
    }
    let watch = epoll_create1(EPOLL_CLOEXEC);
    let _ = os::epoll_ctl(watch, EPOLL_CTL_ADD, fd, EPOLLIN | EPOLLHUP | EDGES, 0);
    let has_come = await_writer(watch, fd, stop);
    let _ = libc::close(watch);
    has_come
}

// Whether a file is a named pipe.
fn is_pipe(file: &File) -> bool {
    match file.metadata() {
        Ok(found) => found.file_type().is_fifo(),
        Err(_) => false,
    }
}

// Whether nobody writes a pipe, and nothing that was written is left.
fn lacks_writer(fd: i32) -> bool {
    let mut asked = [pollfd {
        fd,
        events: POLLIN,
        revents: 0,
    }];
    poll(&mut asked, 0) > 0 && asked[0].revents & POLLHUP != 0 && asked[0].revents & POLLIN == 0
}

// Waits for a writer at a pipe that is watched: one who comes and goes is told too.
fn await_writer(watch: i32, fd: i32, stop: &StopFile) -> bool {
    let mut told = [EpollEvent { events: 0, data: 0 }];
    let _ = os::epoll_wait(watch, &mut told, 0);
    for _turn in 0..u64::MAX {
        if !lacks_writer(fd) {
            return true;
        }
        if stop.is_there() {
            return false;
        }
        if has_told(watch, &mut told) {
            return true;
        }
    }
    false
}

// Whether something came about within a moment. Where nothing is watched the moment is waited for.
fn has_told(watch: i32, told: &mut [EpollEvent; 1]) -> bool {
    if watch < 0 {
        let _ = poll(&mut [], LOOK);
        return false;
    }
    os::epoll_wait(watch, told, LOOK) > 0
}

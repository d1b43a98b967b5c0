//! A disk over a file of the operating system: the file under which a hall keeps its book; and over
//! what such a file held, in memory, for a command that adds nothing to a book that is in use, can't
//! be written or isn't there.
//!
//! Promised: each call that fails counts one fault; a disk that isn't open fails at each call; a
//! buffer is filled with the bytes from its place on, as many as there are, however few of them each
//! read of the system brings.
//!
//! Tested: that a file is written no more which somebody else has cut, overwritten, moved or deleted;
//! that it gets room ahead of its rows, zeros behind the closed gate, which a good end cuts off and a
//! kill leaves to the next opening, and that whatever a crash leaves of it has the answered rows;
//! what standard error is told of few rows that are left; that of a running book the header and the
//! rows that stay are taken, with no snapshot, and that a book whose slots don't hold the rows of its
//! snapshot isn't opened to be written. How many rows those are, that they stay, and how a slot is
//! compared, is promised by book_file.
//!
//! Trusted: the system's calls, that they read, write and make stable what they say, and that a
//! lock keeps other halls out; std's `write_all_at`; that a file which is opened for reading isn't
//! written, and that a path is compared with its file before a row is acknowledged. A file tells no
//! bytes, so no clause speaks of what stands in it. No test sees that a sync of the data or of the
//! folder is left out, since the system keeps what was written also where a program is killed:
//! `bench/book.sh` sees the first by its time, and nothing here sees the second.
#![tactic(auto)]

mod backing;
mod copies;
mod copying;
mod file_disk;
mod last_row;
mod named_file;
mod notice;
mod open_error;
mod opening;
mod read_at;
mod room;
mod rows_left;
mod size_limit;
mod slots_check;
mod transfer;

pub use file_disk::FileDisk;
pub use notice::Notice;
pub use open_error::OpenError;
pub use opening::above_streams;

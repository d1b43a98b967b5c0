//! The outside as the hall sees it: a source of bytes, a sink for bytes, a door to connections and
//! a disk, in memory; sources and sinks over the real streams too.
#![tactic(auto)]

mod disk;
mod disk_call;
mod disk_types;
mod door;
mod list_connection;
mod list_door;
mod memory_disk;
mod memory_sink;
mod memory_source;
mod overwrite;
mod quiet_disk;
mod quiet_sink;
mod quiet_source;
mod sink;
mod source;
mod standard;
mod types;

pub use disk::Disk;
pub use disk_types::{DISK_END, Keep};
pub use door::Door;
pub use list_door::ListDoor;
pub use memory_disk::MemoryDisk;
pub use memory_sink::MemorySink;
pub use memory_source::MemorySource;
pub use quiet_disk::QuietDisk;
pub use quiet_sink::QuietSink;
pub use quiet_source::QuietSource;
pub use sink::{Sink, write_all};
pub use source::Source;
pub use standard::{StdSink, StdSource};
pub use types::{Failed, NoMemory, Partly};

use crate::stop::Stop;
use book_store::Store;
use disk_core::Disk;

/// How a run stopped, and the store that it leaves.
#[derive(Drop)]
pub struct RunEnd<D: Disk> {
    pub stop: Stop,
    pub store: Store<D>,
}

/// A call on a disk in memory, as the disk remembers it: it wrote bytes at a place, or made all
/// that was written before it stable, or did neither.
#[derive(Drop)]
pub(crate) enum DiskCall {
    Looked,
    Wrote { place: u64, bytes: Vec<u8> },
    Synced,
}

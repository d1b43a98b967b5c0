use lane_worker::MAX_CELL_LINE;

// A cell holds no more bytes than the beginning of a line that is too long.
const ROOM: usize = MAX_CELL_LINE + 1;

/// The bytes that were read last, and how many lines have ended. Of a line that a cell has just given
/// all that the cell held is among them. Before the first byte stand as many LFs.
#[derive(Drop)]
pub(crate) struct NewestLines {
    bytes: [u8; ROOM],
    // These LFs are counted too.
    ended: u64,
}

impl NewestLines {
    /// Before the first byte.
    pub fn new() -> Self {
        NewestLines {
            bytes: [b'\n'; ROOM],
            ended: ROOM as u64,
        }
    }

    /// Keeps the newest of some bytes behind those that were kept.
    pub fn keep(&mut self, bytes: &[u8]) {
        let count = bytes.len().min(ROOM);
        self.bytes.copy_within(count.., 0);
        let (_, behind) = bytes.split_at(bytes.len() - count);
        self.bytes[ROOM - count..].copy_from_slice(behind);
        self.ended = self.ended.saturating_add(count_ends(bytes));
    }

    /// A line by its number from 1, without its LF: what is kept of it.
    pub fn line(&self, number: u32) -> Option<&[u8]> {
        let before = self.ended.saturating_sub(count_ends(&self.bytes));
        let with_first = u64::from(number).saturating_add(ROOM as u64);
        let place = with_first.checked_sub(before)?.checked_sub(1)?;
        let mut lines = self.bytes.split(|byte| *byte == b'\n');
        lines.nth(place as usize)
    }
}

// How many lines end within some bytes.
fn count_ends(bytes: &[u8]) -> u64 {
    bytes.iter().filter(|byte| **byte == b'\n').count() as u64
}

use book_mount::MountError;

/// How the snapshot on a disk compares with what the slots give.
#[derive(Clone, Copy, PartialEq, Eq)]
pub enum Beside {
    /// No snapshot fits the disk.
    None,
    /// It holds the rows that the slots give, and no other.
    Same,
    /// This row is the first that one of both lacks, or that they have otherwise; the snapshot says
    /// that it holds so many rows.
    Differs { row: u32, rows: u32 },
}

/// What an audit finds on a disk.
#[derive(Clone, Copy, PartialEq, Eq)]
pub struct Audit {
    /// How many rows the slots give, up to the first that is cut, closed or damaged.
    pub rows: u32,
    /// Whether none of them is damaged.
    pub whole: bool,
    /// How the snapshot compares with them.
    pub beside: Beside,
    /// The SHA-256 digest of the shipment of the first rows.
    pub digest: [u8; 32],
}

/// How an audit ended.
#[derive(Clone, Copy, PartialEq, Eq)]
pub enum AuditEnd {
    /// The book is whole, and that was said.
    Whole,
    /// The output failed.
    WriteFault,
    /// Why the disk is no book that is whole.
    Refused(MountError),
}

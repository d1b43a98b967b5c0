/// Each write on a disk ends below this place, 2^40, so that no place of a slot or block comes near
/// the end of 64 bits.
pub const DISK_END: u64 = 1 << 40;

/// What a crash leaves of the bytes that were written since the last sync that answered Ok.
#[derive(Clone, Copy, PartialEq, Eq)]
pub enum Keep {
    /// What stood there at that sync: nothing was written.
    Earlier,
    /// What was written, also by a write that answered Failed.
    Written,
    /// This byte, wherever something was written.
    Fill(u8),
}

ghost use Rattle.std.specs.Prelude.{◌≡◌, ◌+◌, ◌≤◌, ◌++◌, length, take, drop, slice_range};
ghost use Rattle.std.specs.Int.{w16, w32, w64, from_le_bytes, to_le_bytes};

/// The number in the two bytes from `place` on, its little end first.
pub fn get_u16(bytes: &[u8], place: usize) -> u16
    requires { place + 2 ≤ length bytes.now }
    ensures { result ≡ from_le_bytes w16 (slice_range bytes.now place (place + 2)) }
{
    let mut field = [0; 2];
    field.copy_from_slice(&bytes[place..place + 2]);
    u16::from_le_bytes(field)
}

/// The number in the four bytes from `place` on, its little end first.
pub fn get_u32(bytes: &[u8], place: usize) -> u32
    requires { place + 4 ≤ length bytes.now }
    ensures { result ≡ from_le_bytes w32 (slice_range bytes.now place (place + 4)) }
{
    let mut field = [0; 4];
    field.copy_from_slice(&bytes[place..place + 4]);
    u32::from_le_bytes(field)
}

/// The number in the eight bytes from `place` on, its little end first.
pub fn get_u64(bytes: &[u8], place: usize) -> u64
    requires { place + 8 ≤ length bytes.now }
    ensures { result ≡ from_le_bytes w64 (slice_range bytes.now place (place + 8)) }
{
    let mut field = [0; 8];
    field.copy_from_slice(&bytes[place..place + 8]);
    u64::from_le_bytes(field)
}

/// Writes a number into the two bytes from `place` on, its little end first. The other bytes stay.
pub fn put_u16(bytes: &mut [u8], place: usize, value: u16)
    requires { place + 2 ≤ length bytes.old }
    ensures { bytes.new
        ≡ take place bytes.old ++ to_le_bytes w16 value ++ drop (place + 2) bytes.old }
{
    bytes[place..place + 2].copy_from_slice(&value.to_le_bytes());
}

/// Writes a number into the four bytes from `place` on, its little end first. The other bytes stay.
pub fn put_u32(bytes: &mut [u8], place: usize, value: u32)
    requires { place + 4 ≤ length bytes.old }
    ensures { bytes.new
        ≡ take place bytes.old ++ to_le_bytes w32 value ++ drop (place + 4) bytes.old }
{
    bytes[place..place + 4].copy_from_slice(&value.to_le_bytes());
}

/// Writes a number into the eight bytes from `place` on, its little end first. The other bytes
/// stay.
pub fn put_u64(bytes: &mut [u8], place: usize, value: u64)
    requires { place + 8 ≤ length bytes.old }
    ensures { bytes.new
        ≡ take place bytes.old ++ to_le_bytes w64 value ++ drop (place + 8) bytes.old }
{
    bytes[place..place + 8].copy_from_slice(&value.to_le_bytes());
}

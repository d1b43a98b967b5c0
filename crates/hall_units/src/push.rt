ghost use Rattle.std.specs.Prelude.{◌≡◌, ◌+◌, ◌≤◌, ◌++◌, length, IsOk, OnOk, vec_len, vec_capacity};
ghost use Rattle.hall_units.specs.Printing.{Prints};

use crate::types::NoMemory;

/// Appends bytes. With room for them it takes no memory; a refusal changes nothing.
pub fn push_bytes(to: &mut Vec<u8>, bytes: &[u8]) -> Result<(), NoMemory>
    ensures { Prints to.old to.new result bytes.now (length bytes.now) }
{
    if to.capacity() - to.len() < bytes.len() {
        to.extend_from_slice(bytes)?;
    } else {
        push_reserved(to, bytes);
    }
    Ok(())
}

// Appends bytes for which there is room.
fn push_reserved(to: &mut Vec<u8>, bytes: &[u8])
    requires { vec_len to.old + length bytes.now ≤ vec_capacity to.old }
    ensures items { to.new.items ≡ to.old.items ++ bytes.now }
    ensures capacity { vec_capacity to.new ≡ vec_capacity to.old }
{
    for byte in bytes {
        to.push_reserved(*byte);
    }
}

/// Takes room for so many more bytes, where it isn't there yet. The bytes stay.
pub fn make_room(to: &mut Vec<u8>, count: usize) -> Result<(), NoMemory>
    ensures items { to.new.items ≡ to.old.items }
    ensures room { OnOk result (vec_len to.new + count ≤ vec_capacity to.new) }
    ensures enough { vec_len to.old + count ≤ vec_capacity to.old → IsOk result }
    ensures kept { vec_len to.old + count ≤ vec_capacity to.old
        → vec_capacity to.new ≡ vec_capacity to.old }
    ensures grows { vec_capacity to.old ≤ vec_capacity to.new }
{
    if to.capacity() - to.len() < count {
        to.reserve(count)?;
    }
    Ok(())
}

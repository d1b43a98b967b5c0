ghost use Rattle.std.specs.Prelude.{◌≡◌, ◌+◌, ◌<◌, ◌≤◌, max, length, OnOk, OnErr, vec_capacity, vec_len};
ghost use Rattle.disk_core.specs.Disk.{overwritten};

use crate::types::NoMemory;

/// Writes bytes over those of a vector from a place on, and past its end. After NoMemory it is as
/// before.
pub(crate) fn overwrite(to: &mut Vec<u8>, place: usize, bytes: &[u8]) -> Result<(), NoMemory>
    ensures ok { OnOk result (to.new.items ≡ overwritten to.old.items place bytes.now) }
    ensures err { OnErr result (to.new.items ≡ to.old.items) }
    ensures full { OnErr result (vec_capacity to.old < place + length bytes.now) }
    ensures capacity { vec_capacity to.old ≤ vec_capacity to.new }
    ensures len { vec_len to.new ≤ max (vec_len to.old) (place + length bytes.now) }
{
    let start = place.min(to.len());
    let inside = bytes.len().min(to.len() - start);
    to.extend_from_slice(&bytes[inside..])?;
    to[start..start + inside].copy_from_slice(&bytes[..inside]);
    Ok(())
}

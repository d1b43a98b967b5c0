ghost use Rattle.std.specs.Prelude.{◌≡◌, ◌≢◌, ◌⊎◌, ◌≤◌, ◌++◌, length, take, slice_index, OnOk, OnErr};
ghost use Rattle.book_snapshot.specs.DenseRows.{trimmed, dense, IsRowSize, ReadsBack};

use crate::layout::{FIELDS_PLACE, KIND_PLACE, ROW_BYTES};
use crate::types::Dense;
use hall_units::{NoMemory, push_bytes};

/// Appends the dense form of a row: one byte that tells how many follow, and then the row without
/// its gate, its number and the zeros at its end. After want of memory nothing is appended.
///
/// A row has 96 bytes, or the 64 of version 1, and a kind that isn't 0.
pub fn squeeze<const Z: usize>(row: &[u8; Z], to: &mut Dense) -> Result<(), NoMemory>
    requires size { IsRowSize Z }
    requires kind { slice_index row.now KIND_PLACE ≢ 0 }
    ensures ok { OnOk result (to.new ≡ to.old ++ dense row.now) }
    ensures err { OnErr result (to.new ≡ to.old) }
{
    let bytes = &row[..];
    let fields = &bytes[FIELDS_PLACE..];
    let end = end_of(fields);
    let mut form = [0; ROW_BYTES];
    form[0] = end as u8 + 1;
    form[1] = row[KIND_PLACE];
    form[2..2 + end].copy_from_slice(&fields[..end]);
    push_bytes(&mut to.bytes, &form[..2 + end])?;
    Ok(())
}

// Where the zeros at the end begin.
fn end_of(bytes: &[u8]) -> usize
    ensures within { result ≤ length bytes.now }
    ensures trimmed { take result bytes.now ≡ trimmed bytes.now }
{
    let mut end = 0;
    for place in 0..bytes.len() {
        if bytes[place] != 0 {
            end = place + 1;
        }
    }
    end
}

/// A law of the dense form: what rows of one size, whose numbers go on from one another, are
/// squeezed to is squeezed from these rows alone.
pub fn dense_forms_read_back()
    ensures { ReadsBack }
{}

ghost use Rattle.std.specs.Prelude.{◌≡◌, ◌≢◌, ℕ, MatchOption, IsTrue, false};
ghost use Rattle.book_snapshot.specs.Blocks.{end_block, IsSnapshotSize};

use crate::layout::{HEAD, LENGTH_PLACE, MAX_CONTENT, ROW_BYTES, ROWS_PLACE, TAIL};
use crate::types::Kept;
use hall_limits::MAX_ROWS;
use hall_units::{get_u32, get_u64, put_u32, put_u64};

/// The block that a snapshot of this size begins with.
pub fn head_block(kept: Kept) -> [u8; ROW_BYTES]
    ensures { result ≡ end_block HEAD kept.rows kept.bytes }
{
    end_block(HEAD, kept)
}

/// The block that a snapshot of this size ends with.
pub fn tail_block(kept: Kept) -> [u8; ROW_BYTES]
    ensures { result ≡ end_block TAIL kept.rows kept.bytes }
{
    end_block(TAIL, kept)
}

/// The size of the snapshot that ends with this block, if one can: 1 to 1 000 000 rows and 1 to
/// 92 000 000 bytes of content.
pub fn read_tail(block: &[u8; ROW_BYTES]) -> Option<Kept>
    ensures { MatchOption result
        ((rows bytes : ℕ) → IsSnapshotSize rows bytes → block.now ≢ end_block TAIL rows bytes)
        (λ kept. IsSnapshotSize kept.rows kept.bytes ×
        (block.now ≡ end_block TAIL kept.rows kept.bytes)) }
{
    let kept = Kept {
        rows: get_u32(block, ROWS_PLACE),
        bytes: get_u64(block, LENGTH_PLACE),
    };
    if is_size(kept) && *block == tail_block(kept) {
        return Some(kept);
    }
    None
}

// Whether a snapshot may have this size.
fn is_size(kept: Kept) -> bool
    ensures yes { IsTrue result → IsSnapshotSize kept.rows kept.bytes }
    ensures no { result ≡ false → ¬ IsSnapshotSize kept.rows kept.bytes }
{
    1 <= kept.rows && kept.rows <= MAX_ROWS && 1 <= kept.bytes && kept.bytes <= MAX_CONTENT
}

// A head or tail block.
fn end_block(kind: u8, kept: Kept) -> [u8; ROW_BYTES]
    ensures { result ≡ end_block kind kept.rows kept.bytes }
{
    let mut block = [0; ROW_BYTES];
    block[1] = kind;
    put_u32(&mut block, ROWS_PLACE, kept.rows);
    put_u64(&mut block, LENGTH_PLACE, kept.bytes);
    block
}

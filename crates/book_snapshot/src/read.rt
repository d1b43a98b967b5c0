ghost use Rattle.std.specs.Prelude.{◌≡◌, ◌≢◌, ◌↔◌, ◌-◌, ◌≤◌, ◌++◌, ℕ, List, length, slice_index};
ghost use Rattle.book_snapshot.specs.DenseRows.{dense, row_of, IsRow, IsRowSize};
ghost use Rattle.book_snapshot.specs.Reading.{IfRow, Gives, IsMore, IsFault, IsReadAs, EndsEarly, IsFaulty};

use crate::layout::{FIELDS_PLACE, KIND_PLACE, LEFT_OUT, NUMBER_PLACE, OPEN};
use crate::types::Piece;
use hall_units::put_u32;

/// Reads the dense form at the beginning of these bytes, as the row with this number and an open
/// gate. `More` comes where the form goes on behind them, also where there are none, `Fault` where
/// none begins with them. It takes no memory.
pub fn read_one<const Z: usize>(bytes: &[u8], number: u32) -> Piece<Z>
    requires { IsRowSize Z }
    ensures row { IfRow result (IsReadAs Z number bytes.now) }
    ensures more { IsMore result ↔ EndsEarly Z bytes.now }
    ensures fault { IsFault result ↔ IsFaulty Z bytes.now }
    ensures back { (row rest : List ℕ) → IsRow Z number row → bytes.now ≡ dense row ++ rest →
        Gives result row (length (dense row)) }
{
    let Some((first, rest)) = bytes.split_first() else {
        return Piece::More;
    };
    let count = usize::from(*first);
    if count == 0 || count > Z - LEFT_OUT {
        return Piece::Fault;
    }
    if rest.len() < count {
        return Piece::More;
    }
    let (form, _) = rest.split_at(count);
    if form[count - 1] == 0 {
        return Piece::Fault;
    }
    Piece::Row {
        row: spread(form, number),
        taken: count + 1,
    }
}

// The row of a dense form.
fn spread<const Z: usize>(form: &[u8], number: u32) -> [u8; Z]
    requires size { IsRowSize Z }
    requires some { 1 ≤ length form.now }
    requires most { length form.now ≤ Z - LEFT_OUT }
    ensures { result ≡ row_of Z number form.now }
{
    let mut row = [0; Z];
    row[0] = OPEN;
    row[KIND_PLACE] = form[0];
    let bytes = &mut row[..];
    put_u32(bytes, NUMBER_PLACE, number);
    let end = FIELDS_PLACE + form.len() - 1;
    bytes[FIELDS_PLACE..end].copy_from_slice(&form[1..]);
    row
}

ghost use Rattle.std.specs.Prelude.{◌≡◌};
ghost use Rattle.old_journal.specs.Reader.{old_header, is_old_header};

use book_snapshot::{MARK, OLD_ROW_BYTES};

const TITLE: [u8; 8] = *b"AQHBOOK1";

// The header whose mark is 0.
fn old_header() -> [u8; OLD_ROW_BYTES]
    ensures { result ≡ old_header }
{
    let mut bytes = [0; OLD_ROW_BYTES];
    bytes[..TITLE.len()].copy_from_slice(&TITLE);
    bytes
}

/// A slot is the header, whatever its mark.
pub fn is_header(slot: &[u8; OLD_ROW_BYTES]) -> bool
    ensures { result ≡ is_old_header slot.now }
{
    let header = old_header();
    for place in 0..OLD_ROW_BYTES {
        if place != MARK && slot[place] != header[place] {
            return false;
        }
    }
    true
}

ghost use Rattle.std.specs.Prelude.{◌≡◌, ◌+◌, ◌≤◌, ◌++◌, ℕ, List, length};
ghost use Rattle.std.specs.List.{AllByRecursion};
ghost use Rattle.hall_limits.specs.declared.TheConstants.{NAME_BYTES, MAX_ROWS};
ghost use Rattle.sha2.specs.Hashers.{Holds256};
ghost use Rattle.book_words.specs.Answers.{IsLegal};
ghost use Rattle.row_format.specs.Allowed.{IsAllowed};
ghost use Rattle.standby_hall.specs.Shipments.{rows_from};
ghost use Rattle.book_audit.specs.Audits.{fingerprint, head_text};

use book_words::Entry;
use row_format::{lawful_entries_are_allowed, write_row};
use sha2::{Digest, Sha256};

/// The name that a shipment begins with.
const TITLE: [u8; 8] = *b"AQHSHIP2";

// A hasher of the head of a shipment of so many rows from the first on.
fn begin(rows: u32) -> Sha256
    ensures { Holds256 result (head_text rows) }
{
    let mut hasher = Sha256::new();
    hasher.update(TITLE);
    hasher.update(rows.to_le_bytes());
    hasher.update(0u32.to_le_bytes());
    hasher
}

// Adds the rows of entries, whose numbers go on from this one.
fn add_rows(hasher: &mut Sha256, entries: &[Entry], number: u32)
    requires allowed { AllByRecursion (IsAllowed NAME_BYTES) entries.now }
    requires few { number + length entries.now ≤ MAX_ROWS + 1 }
    ensures { (text : List ℕ) → Holds256 hasher.old text →
        Holds256 hasher.new (text ++ rows_from number entries.now) }
{
    let mut rest = entries;
    let mut next = number;
    while let Some((entry, after)) = rest.split_first() {
        hasher.update(write_row(entry, next));
        rest = after;
        next += 1;
    }
}

/// The fingerprint of the first so many of these rows, or of all where there are fewer: the SHA-256
/// digest of the shipment of a book with these alone. It takes no memory.
pub(crate) fn fingerprint(entries: &[Entry], most: u32) -> [u8; 32]
    requires { IsLegal entries.now }
    ensures { result ≡ fingerprint most entries.now }
{
    lawful_entries_are_allowed();
    let count = (most as usize).min(entries.len());
    let mut hasher = begin(count as u32);
    add_rows(&mut hasher, entries.split_at(count).0, 1);
    hasher.finalize()
}

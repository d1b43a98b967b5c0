ghost use Rattle.std.specs.Prelude.{◌≡◌, ◌≢◌, ◌↔◌, ℕ, ◌<◌, ◌≤◌, true, length, slice_index};
ghost use Rattle.book_journal.specs.Rows.{title};
ghost use Rattle.book_file.specs.Begin.{IsUnbegun};

// What a journal begins with.
const TITLE: [u8; 8] = *b"AQHBOOK2";

/// The byte of a journal's header at a place, the mark being 0.
pub(crate) fn header_byte(place: usize) -> u8
    ensures { result ≡ slice_index title place }
{
    if place < TITLE.len() { TITLE[place] } else { 0 }
}

/// Whether a file of these bytes may become a book: it is empty, or has zeros behind a beginning of
/// the header, as a crash leaves it in the midst of the book's first write.
pub fn is_unbegun(bytes: &[u8]) -> bool
    ensures { (result ≡ true) ↔ IsUnbegun bytes.now }
{
    let begun = header_bytes(bytes);
    are_zeros(bytes, begun)
}

// How many of the first bytes are those of a header.
fn header_bytes(bytes: &[u8]) -> usize
    ensures within { result ≤ length bytes.now }
    ensures same { (k : ℕ) → k < result → slice_index bytes.now k ≡ slice_index title k }
    ensures differs { result < length bytes.now →
        slice_index bytes.now result ≢ slice_index title result }
{
    for place in 0..bytes.len() {
        if bytes[place] != header_byte(place) {
            return place;
        }
    }
    bytes.len()
}

// Whether there are zeros alone from a place on.
fn are_zeros(bytes: &[u8], first: usize) -> bool
    ensures { (result ≡ true)
        ↔ ((k : ℕ) → first ≤ k → k < length bytes.now → slice_index bytes.now k ≡ 0) }
{
    for place in first..bytes.len() {
        if bytes[place] != 0 {
            return false;
        }
    }
    true
}

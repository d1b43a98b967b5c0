ghost use Rattle.std.specs.Prelude.{◌≡◌, ◌≤◌, length};
ghost use Rattle.std.specs.List.{prefix_len};
ghost use Rattle.std.specs.Char.{is_ascii_digit};
ghost use Rattle.hall_units.specs.Number.{bounded_number};
ghost use Rattle.remote_cell.specs.WireLines.{batch_item, in_range, item_said, item_behind, line_said};

use crate::items::Item;
use hall_units::{read_grams, read_number};
use lane_worker::batch_said;

/// The most bytes of a line, its LF not among them.
pub const MAX_LINE: usize = 64;

// The number that digits spell, where a line may have it.
fn read_line_number(digits: &[u8]) -> Option<u32>
    ensures { result ≡ in_range (bounded_number 20 u64.MAX digits.now) }
{
    let number = read_number(digits)?;
    if number == 0 || number > u64::from(u32::MAX) {
        return None;
    }
    Some(number as u32)
}

// The batch that a text names, where batches are taken.
fn read_batch(text: &[u8], batches: bool) -> Option<Item>
    ensures { result ≡ batch_item batches text.now }
{
    if !batches {
        return None;
    }
    batch_said(text).map(Item::Batch)
}

// What a text says: a weight in grams, a batch where these are taken, or that there are no more.
fn read_item(text: &[u8], batches: bool) -> Option<Item>
    ensures { result ≡ item_said batches text.now }
{
    if text == b"end".as_slice() {
        return Some(Item::End);
    }
    match read_grams(text) {
        Ok(gross) => Some(Item::Gross(gross)),
        Err(_) => read_batch(text, batches),
    }
}

// What stands behind the number: one space, and then what is said.
fn read_behind(behind: &[u8], batches: bool) -> Option<Item>
    ensures { result ≡ item_behind batches behind.now }
{
    match behind.split_first() {
        Some((b' ', text)) => read_item(text, batches),
        _ => None,
    }
}

// The number of digits with which a text begins.
fn count_digits(text: &[u8]) -> usize
    ensures value { result ≡ prefix_len is_ascii_digit text.now }
    ensures within { result ≤ length text.now }
{
    text.iter().take_while(|byte| byte.is_ascii_digit()).count()
}

/// What a line says, its LF left out: its number and its item. `None` exactly where it is of no
/// form; that of a batch is none where batches aren't taken.
#[tactic(auto, unfolding(crate::specs::WireLines::line_said))]
pub(crate) fn read_text(text: &[u8], batches: bool) -> Option<(u32, Item)>
    ensures { result ≡ line_said batches text.now }
{
    let (digits, behind) = text.split_at(count_digits(text));
    let number = read_line_number(digits)?;
    let item = read_behind(behind, batches)?;
    Some((number, item))
}

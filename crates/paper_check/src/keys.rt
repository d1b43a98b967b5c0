ghost use Rattle.std.specs.Prelude.{◌≡◌, ◌<◌, ◌≤◌, ◌+◌, false, length, slice_index, IfOk, MatchOption};
ghost use Rattle.std.specs.List.{position_from};
ghost use Rattle.std.specs.List.Sorted.{IsNonDecreasing, IsPermutation};
ghost use Rattle.paper_check.specs.Keys.{has_key, is_missing};

use std::alloc::{AllocError, Global};

/// A place of a key among keys that don't fall, where it is there. It takes as many steps as the
/// logarithm of their number.
pub fn place_of(keys: &[u64], key: u64) -> Option<usize>
    requires ascending { IsNonDecreasing keys.now }
    ensures { MatchOption result (has_key keys.now key ≡ false)
        (λ place. (place < length keys.now) × (slice_index keys.now place ≡ key)) }
{
    keys.binary_search(&key).ok()
}

// Whether a key is there.
fn has_key(keys: &[u64], key: u64) -> bool
    requires ascending { IsNonDecreasing keys.now }
    ensures { result ≡ has_key keys.now key }
{
    place_of(keys, key).is_some()
}

/// The first of some keys, counted from a number on, that isn't among others, which don't fall.
pub fn first_missing(begin: u32, wanted: &[u64], among: &[u64]) -> Option<u32>
    requires ascending { IsNonDecreasing among.now }
    requires few { begin + length wanted.now ≤ u32.MAX }
    ensures { result ≡ position_from (is_missing among.now) begin wanted.now }
{
    let mut number = begin;
    for key in wanted {
        if !has_key(among, *key) {
            return Some(number);
        }
        number += 1;
    }
    None
}

/// The keys in ascending order.
pub fn in_order(alloc: Global, keys: &[u64]) -> Result<Vec<u64>, AllocError>
    ensures ascending { IfOk result (λ sorted. IsNonDecreasing sorted.items) }
    ensures same { IfOk result (λ sorted. IsPermutation keys.now sorted.items) }
{
    let mut sorted = Vec::from_slice(alloc, keys)?;
    sorted.sort_unstable();
    Ok(sorted)
}

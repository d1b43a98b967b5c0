ghost use Rattle.std.specs.Prelude.{◌≡◌};
ghost use Rattle.tare_register.specs.InOrder.{IsIndex};
ghost use Rattle.pack_judge.specs.Tares.{deciding_tare};
ghost use Rattle.tare_register.specs.Tares.{next_day, tares_of};

use crate::order::count_up_to;
use crate::types::{ProductDay, ProductTare};
use balanced_tree::Tree;
use pack_judge::DatedTare;

/// The tare that decides on a day for a product: that of the last entry up to that day, if it is
/// for the product.
pub fn find_deciding(
    entries: &[ProductTare],
    order: &Tree<u32>,
    key: &ProductDay,
) -> Option<DatedTare>
    requires index { IsIndex entries.now order.now }
    ensures { result ≡ deciding_tare (tares_of entries.now key.now.product) key.now.day }
{
    let count = count_up_to(entries, order, key);
    if count == 0 {
        return None;
    }
    let Some(place) = order.get(count - 1) else {
        unreachable!()
    };
    let last = &entries[place as usize];
    if last.product == key.product {
        Some(last.dated)
    } else {
        None
    }
}

/// The first day after that day for which the product has an entry: that of the first entry after
/// those up to that day, if it is for the product.
pub fn find_next_day(entries: &[ProductTare], order: &Tree<u32>, key: &ProductDay) -> Option<i32>
    requires index { IsIndex entries.now order.now }
    ensures { result ≡ next_day (tares_of entries.now key.now.product) key.now.day }
{
    let count = count_up_to(entries, order, key);
    let Some(place) = order.get(count) else {
        return None;
    };
    let first = &entries[place as usize];
    if first.product == key.product {
        Some(first.dated.day)
    } else {
        None
    }
}

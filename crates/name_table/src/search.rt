ghost use Rattle.std.specs.Prelude.{◌≡◌, ◌<◌, ◌^◌, length, count_by};
ghost use Rattle.std.specs.List.{All};
ghost use Rattle.balanced_tree.specs.Trees.{items, IsBalanced};
ghost use Rattle.book_words.specs.Order as numbers;
ghost use Rattle.name_table.specs.Search.{AreApart, Falls, IsOrder, precedes};
ghost use Rattle.name_table.specs.Search as search;

use balanced_tree::Tree;
use book_words::Name;

/// How many names stand before one, in the order of names: where it stands, or would stand.
pub fn count_before(order: &Tree<u32>, names: &[Name], name: &Name) -> u32
    requires balanced { IsBalanced order.now }
    requires falls { Falls (precedes names.now name.now) (items order.now) }
    requires within { All (λ number. number < length names.now) (items order.now) }
    requires few { length (items order.now) < 2 ^ 32 }
    ensures { result ≡ count_by (precedes names.now name.now) (items order.now) }
{
    let Some(root) = order.root() else {
        return 0;
    };
    if is_before(&names[root.item as usize], name) {
        root.left.count() + 1 + count_before(&root.right, names, name)
    } else {
        count_before(&root.left, names, name)
    }
}

/// The number of a name, where it is there.
pub fn find(order: &Tree<u32>, names: &[Name], name: &Name) -> Option<u32>
    requires balanced { IsBalanced order.now }
    requires order { IsOrder names.now (items order.now) }
    requires apart { AreApart names.now }
    requires few { length names.now < 2 ^ 32 }
    ensures { result ≡ numbers.place_of names.now name.now }
{
    let place = count_before(order, names, name);
    let Some(number) = order.get(place) else {
        return None;
    };
    if names[number as usize].is(name) {
        Some(number)
    } else {
        None
    }
}

// Whether a name stands before another.
fn is_before(one: &Name, other: &Name) -> bool
    ensures { result ≡ search.is_before one.now other.now }
{
    one.as_bytes().cmp(&other.as_bytes()).is_lt()
}

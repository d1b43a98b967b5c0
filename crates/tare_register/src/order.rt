ghost use Rattle.std.specs.Prelude.{◌≡◌, ◌+◌, ◌^◌, ◌<◌, ◌≤◌, [], ◌∷◌, ◌++◌, OnOk, vec_len, vec_capacity};
ghost use Rattle.balanced_tree.specs.Trees.{items, height_of};
ghost use Rattle.tare_register.specs.InOrder.{is_up_to, key_of, IsCut, IsOrder, IsIndex, entries_at};

use crate::types::{NoMemory, ProductDay, ProductTare};
use balanced_tree::{Node, Tree, insert};
use std::mem;

/// How many of the entries are up to a product and day, where `order` has the places of some of
/// them in order. It takes as many steps as the logarithm of their number.
pub fn count_up_to(entries: &[ProductTare], order: &Tree<u32>, key: &ProductDay) -> u32
    requires order { IsOrder entries.now order.now }
    ensures { IsCut key.now result (entries_at entries.now (items order.now)) }
{
    let Some(root) = order.root() else {
        return 0;
    };
    if is_up_to(&entries[root.item as usize], key) {
        root.left.count() + 1 + count_up_to(entries, &root.right, key)
    } else {
        count_up_to(entries, &root.left, key)
    }
}

// Whether the entry is for a product of a smaller number, or for that product and dated by that
// day.
fn is_up_to(entry: &ProductTare, key: &ProductDay) -> bool
    ensures { result ≡ is_up_to key.now entry.now }
{
    entry.product < key.product || (entry.product == key.product && entry.dated.day <= key.day)
}

// The product and day that the entry is for.
fn key_of(entry: &ProductTare) -> ProductDay
    ensures { result ≡ key_of entry.now }
{
    ProductDay {
        product: entry.product,
        day: entry.dated.day,
    }
}

/// Puts an entry after the others, and its place into their order. There is room for it, and a
/// node for its place.
pub fn enter(
    entries: &mut Vec<ProductTare>,
    order: &mut Tree<u32>,
    nodes: &mut Vec<Box<Node<u32>>>,
    entry: &ProductTare,
)
    requires index { IsIndex entries.old.items order.old }
    requires few { vec_len entries.old + 1 < 2 ^ 32 }
    requires room { vec_len entries.old < vec_capacity entries.old }
    requires spare { 0 < vec_len nodes.old }
    ensures index { IsIndex entries.new.items order.new }
    ensures entries { entries.new.items ≡ entries.old.items ++ entry.now ∷ [] }
    ensures capacity { vec_capacity entries.new ≡ vec_capacity entries.old }
    ensures nodes { vec_len nodes.new + 1 ≡ vec_len nodes.old }
{
    let count = count_up_to(entries, order, &key_of(entry));
    let Some(mut node) = nodes.pop() else {
        unreachable!()
    };
    node.item = entries.len() as u32;
    *order = insert(mem::replace(order, Tree::Leaf), count, node);
    entries.push_reserved(*entry);
}

/// Makes the spare nodes at least `spare`. Where memory is refused some may have been added.
pub fn make_nodes(nodes: &mut Vec<Box<Node<u32>>>, spare: u32) -> Result<(), NoMemory>
    ensures ok { OnOk result (spare ≤ vec_len nodes.new) }
    ensures more { vec_len nodes.old ≤ vec_len nodes.new }
{
    let alloc = *nodes.allocator();
    while nodes.len() < spare as usize {
        nodes.push(Box::new(alloc, Node::new(0))?)?;
    }
    Ok(())
}

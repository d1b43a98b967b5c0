ghost use Rattle.std.specs.Prelude.{◌≡◌, ◌<◌, ◌≤◌, ◌+◌, ◌^◌, ◌==◌, ◌⊎◌, length, vec_len, vec_capacity, nat_lt, count_by, Some, IfSome, IfNone};
ghost use Rattle.pack_groups.specs.Index.{IsIndex, IsKey, HasKey, IsOpened};
ghost use Rattle.std.specs.List.{All, between, slice_get};
ghost use Rattle.balanced_tree.specs.Trees.{items, height_of, IsBalanced};
ghost use Rattle.pack_groups.specs.Rising.{IsRising};
ghost use Rattle.pack_groups.specs.Groups.{rank_of, nth_rank, nth_face, faces, IsFrom, IsStretch};

use crate::days::Days;
use crate::group::{Group, Key};
use balanced_tree::{Node, Tree, insert};
use std::mem;

/// How many groups stand before a key, in the order of keys: where the group of that key stands, or
/// would stand.
pub fn place_of(order: &Tree<u32>, groups: &[Group], key: &Key) -> u32
    requires balanced { IsBalanced order.now }
    requires rising { IsRising (nth_rank (faces groups.now)) (items order.now) }
    requires within { All (λ group. group < length groups.now) (items order.now) }
    requires few { length (items order.now) < 2 ^ 32 }
    ensures { result ≡ count_by
        (λ group. nat_lt (nth_rank (faces groups.now) group) (rank_of key.now))
        (items order.now) }
{
    let Some(root) = order.root() else {
        return 0;
    };
    if groups[root.item as usize].key.is_before(key) {
        root.left.count() + 1 + place_of(&root.right, groups, key)
    } else {
        place_of(&root.left, groups, key)
    }
}

/// The places of the order at which the groups of a product on some days stand: from the first on,
/// before the end.
#[derive(Clone, Copy)]
pub struct Stretch {
    pub first: u32,
    pub end: u32,
}

/// Where the groups of a product on some days stand in the order of keys.
pub fn stretch_of(order: &Tree<u32>, groups: &[Group], product: u32, days: Days) -> Stretch
    requires balanced { IsBalanced order.now }
    requires rising { IsRising (nth_rank (faces groups.now)) (items order.now) }
    requires within { All (λ group. group < length groups.now) (items order.now) }
    requires few { length (items order.now) < 2 ^ 32 }
    ensures { IsStretch (faces groups.now) (items order.now) product days result }
{
    let from = Key {
        product,
        day: days.from,
        batch: 0,
    };
    let until = Key {
        product,
        day: days.until,
        batch: 0,
    };
    let first = place_of(order, groups, &from);
    Stretch {
        first,
        end: place_of(order, groups, &until).max(first),
    }
}

// The place at which the next day begins, or another product, behind that of a group and no later
// than an end. No lesser batch is passed over, since the batches of a day rise.
fn next_day(order: &Tree<u32>, groups: &[Group], group: u32, place: u32, end: u32) -> u32
    requires balanced { IsBalanced order.now }
    requires index { IsIndex (faces groups.now) (items order.now) }
    requires few { length groups.now < 2 ^ 32 }
    requires placed { slice_get (items order.now) place ≡ Some group }
    requires before { place < end }
    ensures forward { place < result }
    ensures end { result ≤ end }
    ensures passed { IsFrom (nth_face (faces groups.now) group).key.batch (faces groups.now)
        (between (place + 1) result (items order.now)) }
{
    let key = groups[group as usize].key;
    let next = Key {
        product: key.product,
        day: key.day + 1,
        batch: 0,
    };
    place_of(order, groups, &next).max(place + 1).min(end)
}

/// Where to look behind the place of a group, and no later than an end, for a batch that is less
/// than the least one known: at the next place, or, where the group's batch isn't less, at the next
/// day.
pub fn next_lesser(
    order: &Tree<u32>,
    groups: &[Group],
    group: u32,
    place: u32,
    end: u32,
    least: Option<u32>,
) -> u32
    requires balanced { IsBalanced order.now }
    requires index { IsIndex (faces groups.now) (items order.now) }
    requires few { length groups.now < 2 ^ 32 }
    requires placed { slice_get (items order.now) place ≡ Some group }
    requires before { place < end }
    ensures forward { place < result }
    ensures end { result ≤ end }
    ensures some { IfSome least (λ least. IsFrom least (faces groups.now)
        (between (place + 1) result (items order.now))) }
    ensures none { IfNone least (result ≡ place + 1) }
{
    let batch = groups[group as usize].key.batch;
    match least {
        Some(least) if least <= batch => next_day(order, groups, group, place, end),
        _ => place + 1,
    }
}

// The place of the group of a key, where there is one.
fn find(order: &Tree<u32>, groups: &[Group], key: &Key) -> Option<u32>
    requires balanced { IsBalanced order.now }
    requires index { IsIndex (faces groups.now) (items order.now) }
    requires few { length groups.now < 2 ^ 32 }
    ensures some { IfSome result (λ group. HasKey groups.now group key.now) }
    ensures none { IfNone result (count_by
        (λ group. nth_rank (faces groups.now) group == rank_of key.now)
        (items order.now) ≡ 0) }
{
    let place = place_of(order, groups, key);
    let Some(group) = order.get(place) else {
        return None;
    };
    if groups[group as usize].key.is_same(key) {
        Some(group)
    } else {
        None
    }
}

// Opens the group of a key that has none, with a tare in mg.
fn open_group(
    groups: &mut Vec<Group>,
    order: &mut Tree<u32>,
    spare: &mut Vec<Box<Node<u32>>>,
    key: Key,
    tare: u32,
) -> u32
    requires balanced { IsBalanced order.old }
    requires index { IsIndex (faces groups.old.items) (items order.old) }
    requires room { vec_len groups.old < vec_capacity groups.old }
    requires few { vec_len groups.old + 1 < 2 ^ 32 }
    requires spare { 0 < vec_len spare.old }
    requires key { IsKey (record { key = key; tare = tare }) }
    requires absent { count_by
        (λ group. nth_rank (faces groups.old.items) group == rank_of key)
        (items order.old) ≡ 0 }
    ensures balanced { IsBalanced order.new }
    ensures index { IsIndex (faces groups.new.items) (items order.new) }
    ensures opened { IsOpened groups.old.items groups.new.items result key tare }
    ensures capacity { vec_capacity groups.old ≤ vec_capacity groups.new }
    ensures nodes { vec_len spare.new + 1 ≡ vec_len spare.old }
{
    let place = place_of(order, groups, &key);
    let group = groups.len() as u32;
    let Some(mut node) = spare.pop() else {
        unreachable!()
    };
    let Ok(()) = groups.push(Group::new(key, tare)) else {
        unreachable!()
    };
    node.item = group;
    *order = insert(mem::replace(order, Tree::Leaf), place, node);
    group
}

/// The place of the group of a key; where there is none it is opened, with a tare in mg.
pub fn find_or_open(
    groups: &mut Vec<Group>,
    order: &mut Tree<u32>,
    spare: &mut Vec<Box<Node<u32>>>,
    key: Key,
    tare: u32,
) -> u32
    requires balanced { IsBalanced order.old }
    requires index { IsIndex (faces groups.old.items) (items order.old) }
    requires room { vec_len groups.old < vec_capacity groups.old }
    requires few { vec_len groups.old + 1 < 2 ^ 32 }
    requires spare { 0 < vec_len spare.old }
    requires key { IsKey (record { key = key; tare = tare }) }
    ensures balanced { IsBalanced order.new }
    ensures index { IsIndex (faces groups.new.items) (items order.new) }
    ensures group { ((groups.new.items ≡ groups.old.items) × HasKey groups.old.items result key)
        ⊎ IsOpened groups.old.items groups.new.items result key tare }
    ensures capacity { vec_capacity groups.old ≤ vec_capacity groups.new }
    ensures nodes { vec_len spare.old ≤ vec_len spare.new + 1 }
{
    match find(order, groups, &key) {
        Some(group) => group,
        None => open_group(groups, order, spare, key, tare),
    }
}

ghost use Rattle.std.specs.Prelude.{◌≡◌, ◌+◌, ◌^◌, ◌<◌, ◌≤◌, Some, length, slice_get, insert as inserted, remove as removed};
ghost use Rattle.balanced_tree.specs.Trees.{items, height_of, IsBalanced};

use crate::balance::{Sides, fork, open_root, rebalance, rotate};
use crate::tree::{Node, Tree};

/// Puts the item of a node at a place of the list, counted from 0; the items from there on move one
/// place on.
pub fn insert<T: Drop>(tree: Tree<T>, place: u32, node: Box<Node<T>>) -> Tree<T>
    requires balanced { IsBalanced tree }
    requires within { place ≤ length (items tree) }
    requires few { length (items tree) + 1 < 2 ^ 32 }
    ensures balanced { IsBalanced result }
    ensures items { items result ≡ inserted (items tree) place node.value.item }
    ensures not_lower { height_of tree ≤ height_of result }
    ensures at_most_one_higher { height_of result ≤ height_of tree + 1 }
{
    let mut tree = tree;
    put(&mut tree, place, node);
    tree
}

// The same where the tree stands: a node whose sides keep their heights stays where it is.
#[tactic(auto, using(crate::proofs::Places::placing, crate::proofs::Heights::lower_than_47))]
fn put<T: Drop>(tree: &mut Tree<T>, place: u32, node: Box<Node<T>>)
    requires balanced { IsBalanced tree.old }
    requires within { place ≤ length (items tree.old) }
    requires few { length (items tree.old) + 1 < 2 ^ 32 }
    ensures balanced { IsBalanced tree.new }
    ensures items { items tree.new ≡ inserted (items tree.old) place node.value.item }
    ensures not_lower { height_of tree.old ≤ height_of tree.new }
    ensures at_most_one_higher { height_of tree.new ≤ height_of tree.old + 1 }
{
    let Tree::Fork {
        height,
        count,
        root,
    } = tree
    else {
        *tree = fork(node, Tree::Leaf, Tree::Leaf);
        return;
    };
    let root = &mut **root;
    let before = root.left.count();
    if place <= before {
        put(&mut root.left, place, node);
    } else {
        put(&mut root.right, place - before - 1, node);
    }
    let (left, right) = (root.left.height(), root.right.height());
    if left <= right + 1 && right <= left + 1 {
        *height = left.max(right) + 1;
        *count += 1;
        return;
    }
    rotate(tree);
}

/// Takes the item at a place of the list out, counted from 0: the rest, and the node that holds the
/// item. The items after it move one place back.
#[tactic(auto, using(crate::proofs::Places::placing))]
pub fn remove<T: Drop>(tree: Tree<T>, place: u32) -> (Tree<T>, Box<Node<T>>)
    requires balanced { IsBalanced tree }
    requires within { place < length (items tree) }
    requires few { length (items tree) < 2 ^ 32 }
    ensures balanced { IsBalanced result.0 }
    ensures item { slice_get (items tree) place ≡ Some result.1.value.item }
    ensures items { items result.0 ≡ removed (items tree) place }
    ensures not_higher { height_of result.0 ≤ height_of tree }
    ensures at_most_one_lower { height_of tree ≤ height_of result.0 + 1 }
{
    let Some(Sides { left, root, right }) = open_root(tree) else {
        unreachable!()
    };
    let before = left.count();
    if place < before {
        let (left, node) = remove(left, place);
        return (rebalance(root, left, right), node);
    }
    if place > before {
        let (right, node) = remove(right, place - before - 1);
        return (rebalance(root, left, right), node);
    }
    if right.count() == 0 {
        return (left, root);
    }
    let (right, next) = remove(right, 0);
    (rebalance(next, left, right), root)
}

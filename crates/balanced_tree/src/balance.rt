ghost use Rattle.std.specs.Prelude.{◌≡◌, ◌+◌, ◌^◌, ◌<◌, ◌≤◌, [], ◌∷◌, ◌++◌, max, length, IfSome, IfNone};
ghost use Rattle.balanced_tree.specs.Trees.{items, height_of, IsBalanced, IsSided, higher_side, DifferByAtMost, IsRootBetween, IsHeightAfterRebalance};

use crate::tree::{Node, Tree};
use std::mem;

/// The root of a tree, and the trees on its two sides.
#[derive(Drop)]
pub struct Sides<T> {
    pub left: Tree<T>,
    pub root: Box<Node<T>>,
    pub right: Tree<T>,
}

/// Takes the root off a tree, unless the tree is empty.
pub fn open_root<T: Drop>(tree: Tree<T>) -> Option<Sides<T>>
    requires balanced { IsBalanced tree }
    ensures some { IfSome result (λ sides.
        IsRootBetween sides.left sides.root.value.item sides.right tree) }
    ensures empty { IfNone result (items tree ≡ []) }
    ensures flat { IfNone result (height_of tree ≡ 0) }
{
    let Tree::Fork { mut root, .. } = tree else {
        return None;
    };
    let node = &mut *root;
    let left = mem::replace(&mut node.left, Tree::Leaf);
    let right = mem::replace(&mut node.right, Tree::Leaf);
    Some(Sides { left, root, right })
}

/// The node on top of two trees whose heights differ by at most one.
#[tactic(auto, using(crate::proofs::Heights::lower_than_47, crate::proofs::Heights::count_is))]
pub fn fork<T: Drop>(mut root: Box<Node<T>>, left: Tree<T>, right: Tree<T>) -> Tree<T>
    requires balanced_left { IsBalanced left }
    requires balanced_right { IsBalanced right }
    requires differ { DifferByAtMost 1 (height_of left) (height_of right) }
    requires few { length (items left) + length (items right) + 1 < 2 ^ 32 }
    ensures balanced { IsBalanced result }
    ensures items { items result ≡ items left ++ root.value.item ∷ items right }
    ensures height { height_of result ≡ max (height_of left) (height_of right) + 1 }
{
    let height = left.height().max(right.height()) + 1;
    let count = left.count() + 1 + right.count();
    let node = &mut *root;
    node.left = left;
    node.right = right;
    Tree::Fork {
        height,
        count,
        root,
    }
}

// The node between two trees of which the left is two levels higher.
fn lean_left<T: Drop>(root: Box<Node<T>>, left: Tree<T>, right: Tree<T>) -> Tree<T>
    requires balanced_left { IsBalanced left }
    requires balanced_right { IsBalanced right }
    requires two_higher { height_of left ≡ height_of right + 2 }
    requires few { length (items left) + length (items right) + 1 < 2 ^ 32 }
    ensures balanced { IsBalanced result }
    ensures items { items result ≡ items left ++ root.value.item ∷ items right }
    ensures not_lower { height_of left ≤ height_of result }
    ensures at_most_one_higher { height_of result ≤ height_of left + 1 }
{
    let Some(top) = open_root(left) else {
        unreachable!()
    };
    if top.left.height() >= top.right.height() {
        return fork(top.root, top.left, fork(root, top.right, right));
    }
    let Some(middle) = open_root(top.right) else {
        unreachable!()
    };
    fork(
        middle.root,
        fork(top.root, top.left, middle.left),
        fork(root, middle.right, right),
    )
}

// The node between two trees of which the right is two levels higher.
fn lean_right<T: Drop>(root: Box<Node<T>>, left: Tree<T>, right: Tree<T>) -> Tree<T>
    requires balanced_left { IsBalanced left }
    requires balanced_right { IsBalanced right }
    requires two_higher { height_of right ≡ height_of left + 2 }
    requires few { length (items left) + length (items right) + 1 < 2 ^ 32 }
    ensures balanced { IsBalanced result }
    ensures items { items result ≡ items left ++ root.value.item ∷ items right }
    ensures not_lower { height_of right ≤ height_of result }
    ensures at_most_one_higher { height_of result ≤ height_of right + 1 }
{
    let Some(top) = open_root(right) else {
        unreachable!()
    };
    if top.right.height() >= top.left.height() {
        return fork(top.root, fork(root, left, top.left), top.right);
    }
    let Some(middle) = open_root(top.left) else {
        unreachable!()
    };
    fork(
        middle.root,
        fork(root, left, middle.left),
        fork(top.root, middle.right, top.right),
    )
}

/// The node between two trees whose heights differ by at most two.
#[tactic(auto, using(crate::proofs::Heights::lower_than_47))]
pub fn rebalance<T: Drop>(root: Box<Node<T>>, left: Tree<T>, right: Tree<T>) -> Tree<T>
    requires balanced_left { IsBalanced left }
    requires balanced_right { IsBalanced right }
    requires differ { DifferByAtMost 2 (height_of left) (height_of right) }
    requires few { length (items left) + length (items right) + 1 < 2 ^ 32 }
    ensures balanced { IsBalanced result }
    ensures items { items result ≡ items left ++ root.value.item ∷ items right }
    ensures height { IsHeightAfterRebalance (height_of left) (height_of right) (height_of result) }
{
    let (left_height, right_height) = (left.height(), right.height());
    if left_height > right_height + 1 {
        lean_left(root, left, right)
    } else if right_height > left_height + 1 {
        lean_right(root, left, right)
    } else {
        fork(root, left, right)
    }
}

/// Sets a tree right whose sides are balanced.
pub fn rotate<T: Drop>(tree: &mut Tree<T>)
    requires sided { IsSided tree.old }
    requires few { length (items tree.old) < 2 ^ 32 }
    ensures balanced { IsBalanced tree.new }
    ensures items { items tree.new ≡ items tree.old }
    ensures least { higher_side tree.old ≤ height_of tree.new }
    ensures most { height_of tree.new ≤ higher_side tree.old + 1 }
{
    let Tree::Fork { mut root, .. } = mem::replace(tree, Tree::Leaf) else {
        return;
    };
    let node = &mut *root;
    let left = mem::replace(&mut node.left, Tree::Leaf);
    let right = mem::replace(&mut node.right, Tree::Leaf);
    *tree = rebalance(root, left, right);
}

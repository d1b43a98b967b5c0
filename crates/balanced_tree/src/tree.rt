ghost use Rattle.std.specs.Prelude.{◌≡◌, [], IfSome, IfNone, slice_get};
ghost use Rattle.balanced_tree.specs.Trees.{items, height_of, count_of, IsBalanced, IsRootBetween};

/// A list of items in order, as a tree of nodes. With each node stand its height and the number of
/// its items.
#[cycle(tree)]
#[derive(Drop)]
pub enum Tree<T> {
    /// No item.
    Leaf,
    /// The items of the root's left side, the root's own, and those of its right side.
    Fork {
        /// How many nodes stand on the longest way down.
        height: u8,
        /// How many items there are.
        count: u32,
        /// The topmost node.
        root: Box<Node<T>>,
    },
}

/// One item, and what stands before and after it.
#[cycle(tree)]
#[derive(Drop)]
pub struct Node<T> {
    /// The items before.
    pub left: Tree<T>,
    /// The item.
    pub item: T,
    /// The items after it.
    pub right: Tree<T>,
}

impl<T> Node<T> {
    /// A node that stands alone.
    pub fn new(item: T) -> Node<T>
        ensures { result.item ≡ item }
    {
        Node {
            left: Tree::Leaf,
            item,
            right: Tree::Leaf,
        }
    }
}

impl<T> Tree<T> {
    /// The topmost node, unless there is no item.
    pub fn root(&self) -> Option<&Node<T>>
        requires balanced { IsBalanced self.now }
        ensures some { IfSome result (λ root.
            IsRootBetween root.now.left root.now.item root.now.right self.now) }
        ensures empty { IfNone result (items self.now ≡ []) }
    {
        match self {
            Tree::Leaf => None,
            Tree::Fork { root, .. } => Some(&**root),
        }
    }

    /// How many nodes stand on the longest way down.
    pub fn height(&self) -> u8
        ensures { result ≡ height_of self.now }
    {
        match self {
            Tree::Leaf => 0,
            Tree::Fork { height, .. } => *height,
        }
    }

    /// How many items there are.
    pub fn count(&self) -> u32
        ensures { result ≡ count_of self.now }
    {
        match self {
            Tree::Leaf => 0,
            Tree::Fork { count, .. } => *count,
        }
    }
}

impl<T: Copy> Tree<T> {
    /// The item at a place of the list, counted from 0; `None` exactly past the last.
    #[tactic(auto, using(crate::proofs::Places::placing))]
    pub fn get(&self, place: u32) -> Option<T>
        requires balanced { IsBalanced self.now }
        ensures { result ≡ slice_get (items self.now) place }
    {
        let root = self.root()?;
        let before = root.left.count();
        if place < before {
            root.left.get(place)
        } else if place == before {
            Some(root.item)
        } else {
            root.right.get(place - before - 1)
        }
    }
}

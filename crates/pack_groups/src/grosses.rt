ghost use Rattle.std.specs.Prelude.{◌≡◌, ℕ, Bool, ◌+◌, ◌^◌, ◌<◌, ◌≤◌, ◌==◌, ◌&&◌, [], length, nat_lt, count_by, if◌then◌else◌, Some, slice_get, insert as inserted};
ghost use Rattle.balanced_tree.specs.Trees.{items, height_of, IsBalanced};
ghost use Rattle.pack_groups.specs.Rising.{IsRising, mass_of, HasOneMore};

use crate::steps::Steps;
use annex_tables::MAX_POPULATION;
use balanced_tree::{Node, Tree, fork, remove, rotate};
use std::marker::{Brand, Model};
use std::mem;
use std::sync::ledger::{Blank, Ledger};

/// The gross of a pack in mg. Where looks are counted, `Grosses::less` alone looks at it.
#[derive(Clone, Copy, Default)]
pub struct Gross {
    mass: u32,
}

/// The grosses of the population of a group, the lightest first.
#[derive(Drop)]
pub struct Grosses {
    tree: Tree<Gross>,
}

impl Model for Grosses {
    ghost use Rattle.std.specs.Prelude.{List, ◌<◌, ◌^◌, length};
    ghost use Rattle.pack_groups.specs.declared.grosses.Gross.{Gross};

    ghost Value = { List Gross };

    ghost use Rattle.balanced_tree.specs.Trees.{items, IsBalanced};
    ghost use Rattle.pack_groups.specs.Rising.{IsRising, mass_of};

    ghost view = { λ g. items g.tree };

    ghost invariant = { λ g.
        IsBalanced g.tree × IsRising mass_of (items g.tree) × (length (items g.tree) < 2 ^ 32) };
}

impl Grosses {
    /// No gross.
    pub fn new() -> Grosses
        ensures { result ≡ [] }
    {
        Grosses { tree: Tree::Leaf }
    }

    /// How many grosses there are.
    #[tactic(auto, using(balanced_tree::proofs::Heights::count_is))]
    pub fn count(&self) -> u32
        ensures { result ≡ length self.now }
    {
        self.tree.count()
    }

    // Whether a gross is below a limit in mg: the only look at a gross, and one step.
    fn less<L: Ledger>(node: &Node<Gross>, limit: u32, steps: &mut Steps<L>) -> bool
        ensures value { result ≡ nat_lt (mass_of node.now.item) limit }
        ensures step { steps.new ≡ steps.old + 1 }
    {
        steps.tick();
        node.item.mass < limit
    }

    /// How many grosses are below a limit in mg, in at most 18 steps for 10 000 grosses.
    #[tactic(auto, using(balanced_tree::proofs::Heights::lower_than_19))]
    pub fn count_below<L: Ledger>(&self, limit: u32, steps: &mut Steps<L>) -> u32
        ensures value { result ≡ count_by (λ gross. nat_lt (mass_of gross) limit) self.now }
        ensures cost { length self.now ≤ MAX_POPULATION → steps.new ≤ steps.old + 18 }
    {
        count_lighter(&self.tree, limit, steps)
    }

    // Where a gross stands, or would stand.
    fn place<L: Ledger>(&self, gross: u32, blank: Blank) -> u32
        requires name { blank.name ≡ L.name }
        requires parts { blank.parts ≡ L.parts }
        requires some { 0 < blank.parts }
        ensures { result ≡ count_by (λ other. nat_lt (mass_of other) gross) self.now }
    {
        let mut steps: Steps<L> = Steps::new(blank);
        self.count_below(gross, &mut steps)
    }

    /// Puts a gross in mg among the others, into a spare node, in one way down.
    pub fn insert(&mut self, gross: u32, mut node: Box<Node<Gross>>)
        requires few { length self.old + 1 < 2 ^ 32 }
        ensures { HasOneMore gross self.old self.new }
    {
        node.item = Gross { mass: gross };
        put(&mut self.tree, gross, node);
    }

    /// Takes a gross in mg out of the others, and gives its node back.
    pub fn remove(&mut self, gross: u32) -> Box<Node<Gross>>
        requires contained { 0 < count_by (λ other. mass_of other == gross) self.old }
        ensures { HasOneMore gross self.new self.old }
    {
        let place = self.place::<Brand>(gross, Blank::new(1));
        let tree = mem::replace(&mut self.tree, Tree::Leaf);
        let (rest, node) = remove(tree, place);
        self.tree = rest;
        node
    }
}

// How many grosses of a tree are below a limit: one step a level.
#[tactic(auto, using(crate::proofs::Descents::descending))]
fn count_lighter<L: Ledger>(tree: &Tree<Gross>, limit: u32, steps: &mut Steps<L>) -> u32
    requires balanced { IsBalanced tree.now }
    requires rising { IsRising mass_of (items tree.now) }
    requires few { length (items tree.now) < 2 ^ 32 }
    ensures value { result ≡ count_by (λ gross. nat_lt (mass_of gross) limit) (items tree.now) }
    ensures cost { steps.new ≤ steps.old + height_of tree.now }
{
    let Some(root) = tree.root() else {
        return 0;
    };
    if Grosses::less(root, limit, steps) {
        root.left.count() + 1 + count_lighter(&root.right, limit, steps)
    } else {
        count_lighter(&root.left, limit, steps)
    }
}

// Puts a gross before the first that isn't lighter: a node whose sides keep their heights stays
// where it is.
#[tactic(auto, using(crate::proofs::Descents::putting, balanced_tree::proofs::Heights::lower_than_47))]
fn put(tree: &mut Tree<Gross>, gross: u32, node: Box<Node<Gross>>)
    requires balanced { IsBalanced tree.old }
    requires rising { IsRising mass_of (items tree.old) }
    requires few { length (items tree.old) + 1 < 2 ^ 32 }
    ensures balanced { IsBalanced tree.new }
    ensures items { items tree.new ≡ inserted (items tree.old)
        (count_by (λ other. nat_lt (mass_of other) gross) (items tree.old)) node.value.item }
    ensures not_lower { height_of tree.old ≤ height_of tree.new }
    ensures at_most_one_higher { height_of tree.new ≤ height_of tree.old + 1 }
{
    let Tree::Fork {
        height,
        count,
        root,
    } = tree
    else {
        *tree = fork(node, Tree::Leaf, Tree::Leaf);
        return;
    };
    let root = &mut **root;
    if root.item.mass < gross {
        put(&mut root.right, gross, node);
    } else {
        put(&mut root.left, gross, node);
    }
    let (left, right) = (root.left.height(), root.right.height());
    if left <= right + 1 && right <= left + 1 {
        *height = left.max(right) + 1;
        *count += 1;
        return;
    }
    rotate(tree);
}

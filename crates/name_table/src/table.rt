ghost use Rattle.std.specs.Prelude.{◌≡◌, ◌+◌, ◌<◌, ◌≤◌, ◌^◌, [], ◌∷◌, ◌++◌, length, vec_len, None, slice_get, OnOk, IsOk};
ghost use Rattle.book_words.specs.Order as numbers;
ghost use Rattle.name_table.specs.Search.{AreApart};

use crate::search::{count_before, find};
use balanced_tree::{Node, Tree, insert};
use book_words::Name;
use std::alloc::{AllocError, Global};
use std::marker::Model;
use std::mem;

/// Names that are all different, in the order in which they were entered.
pub struct NameTable {
    names: Vec<Name>,
    // The numbers of the names in the order of their bytes.
    order: Tree<u32>,
    // Spare nodes: one for each place that is reserved.
    nodes: Vec<Box<Node<u32>>>,
    // How many names more are sure to find room.
    spare: u32,
}

// By hand, so that letting one go is one call, where a derived drop is spelled at each exit.
impl Drop for NameTable {
    fn drop(self) {
        let Self {
            names: _,
            order: _,
            nodes: _,
            spare: _,
        } = self;
    }
}

impl Model for NameTable {
    ghost use Rattle.name_table.specs.Named.{Named};
    ghost use Rattle.name_table.specs.Invariant.{IsKept};

    ghost Value = { Named };

    ghost view = { λ table. record { names = table.names.items; spare = table.spare } };

    ghost invariant = { IsKept };
}

impl NameTable {
    /// A table without names. It takes no memory.
    pub fn new(alloc: Global) -> NameTable
        ensures names { result.names ≡ [] }
        ensures spare { result.spare ≡ 0 }
    {
        NameTable {
            names: Vec::new(alloc),
            order: Tree::Leaf,
            nodes: Vec::new(alloc),
            spare: 0,
        }
    }

    /// The number of a name: its place in the order in which they were entered, from 0.
    pub fn number(&self, name: &Name) -> Option<u32>
        ensures number { result ≡ numbers.place_of self.now.names name.now }
        ensures apart { AreApart self.now.names }
    {
        find(&self.order, &self.names, name)
    }

    /// The name of a number.
    pub fn name(&self, number: u32) -> Option<Name>
        ensures { result ≡ slice_get self.now.names number }
    {
        self.names.get(number as usize).copied()
    }

    /// Reserves places for `more` further names. It takes nodes for the lacking places alone, so
    /// that memory doesn't grow with each call.
    pub fn reserve(&mut self, more: u32) -> Result<(), AllocError>
        ensures ok { OnOk result (more ≤ self.new.spare) }
        ensures few { OnOk result (length self.new.names + more < 2 ^ 32) }
        ensures names { self.new.names ≡ self.old.names }
        ensures spare { self.old.spare ≤ self.new.spare }
        ensures room { more ≤ self.old.spare → IsOk result }
    {
        if more <= self.spare {
            return Ok(());
        }
        let most = u32::MAX - more;
        if self.names.len() > most as usize {
            return Err(AllocError);
        }
        self.names.reserve(more as usize)?;
        reserve_nodes(&mut self.nodes, more)?;
        self.spare = more;
        Ok(())
    }

    /// Enters a new name behind the others. It takes no memory.
    pub fn push(&mut self, name: &Name)
        requires room { 0 < self.old.spare }
        requires absent { numbers.place_of self.old.names name.now ≡ None }
        ensures names { self.new.names ≡ self.old.names ++ name.now ∷ [] }
        ensures spare { self.new.spare + 1 ≡ self.old.spare }
    {
        let place = count_before(&self.order, &self.names, name);
        let number = self.names.len() as u32;
        let Some(mut node) = self.nodes.pop() else {
            unreachable!()
        };
        let Ok(()) = self.names.push(*name) else {
            unreachable!()
        };
        node.item = number;
        self.order = insert(mem::replace(&mut self.order, Tree::Leaf), place, node);
        self.spare -= 1;
    }
}

// Adds spare nodes until there are so many. Where memory is refused some may have been added.
fn reserve_nodes(nodes: &mut Vec<Box<Node<u32>>>, many: u32) -> Result<(), AllocError>
    ensures ok { OnOk result (many ≤ vec_len nodes.new) }
    ensures more { vec_len nodes.old ≤ vec_len nodes.new }
{
    let alloc = *nodes.allocator();
    let lacking = (many as usize).saturating_sub(nodes.len());
    for _turn in 0..lacking {
        nodes.push(Box::new(alloc, Node::new(0))?)?;
    }
    Ok(())
}

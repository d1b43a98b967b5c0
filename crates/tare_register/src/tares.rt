ghost use Rattle.std.specs.Prelude.{◌≡◌, ◌+◌, ◌<◌, ◌≤◌, [], ◌∷◌, ◌++◌, IsOk, OnOk, OnErr};
ghost use Rattle.tare_register.specs.Tares.{entry_of, tare_of, span_of, DecidesWithin, HasOneTareWithin};

use crate::deciding::{find_deciding, find_next_day};
use crate::order::{enter, make_nodes};
use crate::types::{NoMemory, ProductDay, ProductTare};
use balanced_tree::{Node, Tree};
use pack_judge::{DatedTare, Span};
use std::alloc::{AllocError, Global};
use std::marker::Model;

/// The tares of all products, in the order in which they were put.
///
/// A contract sees the list of entries, and beside it the number of places that are reserved for
/// more. `at`, `span` and `put` take as many steps as the logarithm of the number of entries. An
/// entry takes 24 bytes and a node of 40 bytes.
pub struct Tares {
    entries: Vec<ProductTare>,
    // The places of the entries in the order of products and days; of those for one product and day
    // in the order in which they were put.
    order: Tree<u32>,
    // Spare nodes: one for each place that is reserved.
    nodes: Vec<Box<Node<u32>>>,
    // How many entries more are sure to find room.
    spare: u32,
}

// By hand, so that letting one go is one call, where a derived drop is spelled at each exit.
impl Drop for Tares {
    fn drop(self) {
        let Self {
            entries: _,
            order: _,
            nodes: _,
            spare: _,
        } = self;
    }
}

impl Model for Tares {
    ghost use Rattle.tare_register.specs.Tares.{Register};
    ghost use Rattle.tare_register.specs.Kept.{IsKept};

    ghost Value = { Register };

    ghost view = { λ t. record { entries = t.entries.items; spare = t.spare } };

    ghost invariant = { IsKept };
}

impl Tares {
    /// A register without entries. It takes no memory.
    pub fn new(alloc: Global) -> Tares
        ensures { result.entries ≡ [] }
    {
        Tares {
            entries: Vec::new(alloc),
            order: Tree::Leaf,
            nodes: Vec::new(alloc),
            spare: 0,
        }
    }

    /// Puts a tare after the others: `tare` milligrams for `product` from `day` on, a day since
    /// 1970-01-01.
    ///
    /// It is refused only for want of memory and where there are 2^32 - 1 entries, and never while
    /// a place is reserved.
    pub fn put(&mut self, product: u32, day: i32, tare: i64) -> Result<(), NoMemory>
        ensures ok { OnOk result
            (self.new.entries ≡ self.old.entries ++ entry_of product day tare ∷ []) }
        ensures err { OnErr result (self.new.entries ≡ self.old.entries) }
        ensures room { 0 < self.old.spare → IsOk result }
        ensures spare { self.old.spare ≤ self.new.spare + 1 }
        ensures kept { 0 < self.old.spare → self.new.spare + 1 ≡ self.old.spare }
    {
        let entry = ProductTare {
            product,
            dated: DatedTare { day, tare },
        };
        self.make_room(1)?;
        enter(&mut self.entries, &mut self.order, &mut self.nodes, &entry);
        self.spare -= 1;
        Ok(())
    }

    /// Reserves places for `more` further entries, and takes memory for the lacking ones alone. It
    /// is refused only for want of memory, and where there would be more than 2^32 - 1 entries.
    pub fn reserve(&mut self, more: u32) -> Result<(), NoMemory>
        ensures ok { OnOk result (more ≤ self.new.spare) }
        ensures room { more ≤ self.old.spare → IsOk result }
        ensures spare { self.old.spare ≤ self.new.spare }
        ensures entries { self.new.entries ≡ self.old.entries }
    {
        self.make_room(more)?;
        Ok(())
    }

    // Reserves places for `more` further entries; where there is room, nothing is done.
    fn make_room(&mut self, more: u32) -> Result<(), NoMemory>
        ensures ok { OnOk result (more ≤ self.new.spare) }
        ensures room { more ≤ self.old.spare → IsOk result }
        ensures kept { more ≤ self.old.spare → self.new.spare ≡ self.old.spare }
        ensures spare { self.old.spare ≤ self.new.spare }
        ensures entries { self.new.entries ≡ self.old.entries }
    {
        if more <= self.spare {
            return Ok(());
        }
        let most = u32::MAX - more;
        if self.entries.len() > most as usize {
            return Err(AllocError);
        }
        self.entries.reserve(more as usize)?;
        make_nodes(&mut self.nodes, more)?;
        self.spare = more;
        Ok(())
    }

    /// The tare of `product` on `day` in milligrams: of its entries dated on that day or before it
    /// those with the greatest day, and of these the one put last. `None` exactly where there is
    /// none.
    pub fn at(&self, product: u32, day: i32) -> Option<i64>
        ensures { result ≡ tare_of self.now.entries product day }
    {
        let key = ProductDay { product, day };
        Some(find_deciding(&self.entries, &self.order, &key)?.tare)
    }

    /// The days whose tare an entry of `product` put now for `day` decides: from that day to the
    /// day before the next one for which the product has an entry. Until something is put, the tare
    /// of the product is the same on all of them.
    pub fn span(&self, product: u32, day: i32) -> Span
        ensures value { result ≡ span_of self.now.entries product day }
        ensures decided { DecidesWithin result self.now.entries product day }
        ensures constant { HasOneTareWithin result self.now.entries product }
    {
        let key = ProductDay { product, day };
        Span {
            from: day,
            until: find_next_day(&self.entries, &self.order, &key),
        }
    }
}

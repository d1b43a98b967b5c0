ghost use Rattle.std.specs.Prelude.{◌≡◌, ℕ, ◌+◌, ◌^◌, ◌<◌, ◌≤◌, max, nat_eq, position, vec_len, vec_capacity, OnOk};
ghost use Rattle.batch_sums.specs.Kept.{IsRising};
ghost use Rattle.batch_sums.specs.Invariant.{HasGrown, numbers_held};

use crate::types::{Held, NoMemory};
use balanced_tree::Node;
use pack_groups::{Batch, Gross, Group};
use std::alloc::Global;

/// Makes room for so many batches, groups and packs more.
pub fn reserve_places(
    batches: &mut Vec<Batch>,
    groups: &mut Vec<Group>,
    packs: &mut Vec<Held>,
    more: u32,
) -> Result<(), NoMemory>
    ensures batches { HasGrown batches.old batches.new }
    ensures groups { HasGrown groups.old groups.new }
    ensures packs { HasGrown packs.old packs.new }
    ensures ok_batches { OnOk result (vec_len batches.new + more ≤ vec_capacity batches.new) }
    ensures ok_groups { OnOk result (vec_len groups.new + more ≤ vec_capacity groups.new) }
    ensures ok_packs { OnOk result (vec_len packs.new + more ≤ vec_capacity packs.new) }
{
    let more = more as usize;
    batches.reserve(more)?;
    groups.reserve(more)?;
    packs.reserve(more)?;
    Ok(())
}

/// The place of the pack of a number, where there is such a pack.
pub fn place_of(packs: &[Held], number: u32) -> Option<usize>
    ensures { IsRising (numbers_held packs.now)
        → result ≡ position (λ other. nat_eq number other) (numbers_held packs.now) }
{
    packs.binary_search_by_key(&number, |held| held.number).ok()
}

/// Makes the spare nodes for grosses at least `grosses`, with places for those of so many packs to
/// come back to, and those for groups at least `groups`.
pub fn reserve_nodes(
    gross_nodes: &mut Vec<Box<Node<Gross>>>,
    order_nodes: &mut Vec<Box<Node<u32>>>,
    packs: usize,
    grosses: u32,
    groups: u32,
) -> Result<(), NoMemory>
    requires few { packs < 2 ^ 32 }
    ensures ok_gross { OnOk result (grosses ≤ vec_len gross_nodes.new) }
    ensures ok_order { OnOk result (groups ≤ vec_len order_nodes.new) }
    ensures gross { vec_len gross_nodes.old ≤ vec_len gross_nodes.new }
    ensures most { vec_len gross_nodes.new ≤ max (vec_len gross_nodes.old) grosses }
    ensures order { vec_len order_nodes.old ≤ vec_len order_nodes.new }
    ensures back { (used : ℕ) → used ≤ packs
        → vec_len gross_nodes.old + used ≤ vec_capacity gross_nodes.old
        → vec_len gross_nodes.new + used ≤ vec_capacity gross_nodes.new }
{
    let alloc = *gross_nodes.allocator();
    let lacking = (grosses as usize).saturating_sub(gross_nodes.len());
    gross_nodes.reserve(packs + lacking)?;
    add_nodes(alloc, gross_nodes, Gross::default(), lacking as u32)?;
    let lacking = (groups as usize).saturating_sub(order_nodes.len());
    add_nodes(alloc, order_nodes, 0, lacking as u32)?;
    Ok(())
}

// Adds so many nodes to the spare ones. Where memory is refused some may have been added.
fn add_nodes<T: Copy>(
    alloc: Global,
    nodes: &mut Vec<Box<Node<T>>>,
    item: T,
    more: u32,
) -> Result<(), NoMemory>
    ensures ok { OnOk result (vec_len nodes.new ≡ vec_len nodes.old + more) }
    ensures more { vec_len nodes.old ≤ vec_len nodes.new }
    ensures most { vec_len nodes.new ≤ vec_len nodes.old + more }
    ensures capacity { vec_capacity nodes.old ≤ vec_capacity nodes.new }
{
    for _turn in 0..more {
        nodes.push(Box::new(alloc, Node::new(item))?)?;
    }
    Ok(())
}

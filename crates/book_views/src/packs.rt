ghost use Rattle.std.specs.Prelude.{◌≡◌, ◌++◌, [], IfOk, OnOk};
ghost use Rattle.std.specs.List.{cons_option, filter_map};
ghost use Rattle.book_words.specs.Views as told;
ghost use Rattle.book_views.specs.Terms.{AreTermsOf};

use crate::views::{Terms, view_by_terms};
use book_verdicts::{NoMemory, State};
use book_words::{PackList, PackView, PacksView};
use std::alloc::Global;

// Adds what is told of the pack of a number, where there is one.
fn add_pack(
    state: &State,
    terms: &Terms,
    number: u32,
    packs: &mut Vec<PackView>,
) -> Result<(), NoMemory>
    requires { AreTermsOf state.now.entries terms.now }
    ensures { OnOk result (packs.new.items
        ≡ packs.old.items ++ cons_option (told.pack_view state.now.entries number) []) }
{
    if let Some(view) = view_by_terms(state, terms, number) {
        packs.push(view)?;
    }
    Ok(())
}

// What is told of the packs of some numbers.
fn copy_packs(
    alloc: Global,
    state: &State,
    terms: &Terms,
    numbers: &[u32],
) -> Result<Vec<PackView>, NoMemory>
    requires { AreTermsOf state.now.entries terms.now }
    ensures { IfOk result (λ packs. packs.items
        ≡ filter_map (told.pack_view state.now.entries) numbers.now) }
{
    let mut packs = Vec::with_capacity(alloc, numbers.len())?;
    let mut rest = numbers;
    while let Some((number, behind)) = rest.split_first() {
        add_pack(state, terms, *number, &mut packs)?;
        rest = behind;
    }
    Ok(packs)
}

/// The page of the packs of the batch of these terms above a number. It takes memory for its packs.
pub fn view_packs(
    alloc: Global,
    state: &State,
    terms: &Terms,
    after: u32,
) -> Result<PacksView, NoMemory>
    requires { AreTermsOf state.now.entries terms.now }
    ensures { IfOk result (λ view.
        view ≡ told.packs_after state.now.entries terms.now.batch after) }
{
    let numbers = state.packs_after(alloc, &terms.batch, after)?;
    let packs = copy_packs(alloc, state, terms, numbers.as_slice())?;
    Ok(PacksView {
        packs: PackList::from(packs),
    })
}

ghost use Rattle.std.specs.Prelude.{◌≡◌, IfOk, map, pos};
ghost use Rattle.std.specs.Option.{unwrap_or};
ghost use Rattle.std.specs.List.{cons_option};
ghost use Rattle.std.specs.Prelude.{OnOk, ◌++◌, []};
ghost use Rattle.book_words.specs.Tares.{tare_of_product};
ghost use Rattle.batch_paper.specs.Written.{is_stock, pack_at, packs_of, days_of};

use book_state::State;
use book_words::Name;
use pack_judge::{DatedTare, Pile};
use paper_form::Pack;
use std::alloc::{AllocError, Global};

// Whether a pile is the passed or the sampled.
fn is_in_stock(pile: Pile) -> bool
    ensures { result ≡ is_stock pile }
{
    matches!(pile, Pile::Passed | Pile::Sampled)
}

// The pack of a number, where it is one of the population of a batch.
#[tactic(auto, using(crate::proofs::StockPacks::stock_pack))]
fn pack_at(state: &State, batch: &Name, number: u32) -> Option<Pack>
    ensures { result ≡ pack_at state.now.entries batch.now number }
{
    let pack = state.pack(number)?;
    if pack.batch.is(batch) && is_in_stock(pack.pile) {
        Some(Pack {
            number,
            day: pack.day,
            gross: pack.gross,
        })
    } else {
        None
    }
}

// Puts a pack behind some, where it is there.
fn push_pack(packs: &mut Vec<Pack>, pack: Option<Pack>) -> Result<(), AllocError>
    ensures { OnOk result (packs.new.items ≡ packs.old.items ++ cons_option pack []) }
{
    if let Some(pack) = pack {
        packs.push(pack)?;
    }
    Ok(())
}

/// The packs of the population of a batch, in order of their numbers.
#[tactic(auto, using(crate::proofs::PackWalks::all_packs))]
pub fn list_packs(alloc: Global, state: &State, batch: &Name) -> Result<Vec<Pack>, AllocError>
    ensures { IfOk result (λ packs. packs.items ≡ packs_of state.now.entries batch.now) }
{
    let mut packs = Vec::new(alloc);
    for before in 0..state.len() {
        push_pack(&mut packs, pack_at(state, batch, before + 1))?;
    }
    Ok(packs)
}

// The day of each of some packs.
fn each_day(alloc: Global, packs: &[Pack]) -> Result<Vec<i32>, AllocError>
    ensures { IfOk result (λ days. days.items ≡ map (λ pack. pack.day) packs.now) }
{
    packs.iter().map(|pack| pack.day).collect(alloc)
}

/// The days of some packs, each once where they come together.
pub fn list_days(alloc: Global, packs: &[Pack]) -> Result<Vec<i32>, AllocError>
    ensures { IfOk result (λ days. days.items ≡ days_of packs.now) }
{
    let mut days = each_day(alloc, packs)?;
    days.dedup();
    Ok(days)
}

ghost use Rattle.std.specs.Prelude.{◌≡◌, IfOk};
ghost use Rattle.paper_form.specs.Drafts.{data_of};
ghost use Rattle.paper_form.specs.Ranges.{days_of, numbers_of, IsListed, IsShort};
ghost use Rattle.paper_check.specs.Keyed.{pack_days_of, AreKeysOf};
ghost use Rattle.paper_check.specs.Faults.{tare_fault};

use crate::keys::{first_missing, in_order};
use pack_judge::DatedTare;
use paper_form::{Pack, Paper};
use std::alloc::{AllocError, Global};

// The line at which the tares of a paper begin.
const TARES_LINE: u32 = 3;

/// The days of the tares of a paper and the numbers of its packs, by which both are found.
#[derive(Drop)]
pub struct Keys {
    pub days: Vec<u64>,
    pub numbers: Vec<u64>,
}

fn days_of(alloc: Global, tares: &[DatedTare]) -> Result<Vec<u64>, AllocError>
    ensures { IfOk result (λ days. days.items ≡ days_of tares.now) }
{
    tares
        .iter()
        .map(|dated| u64::from(dated.day.unsigned_abs()))
        .collect(alloc)
}

fn numbers_of(alloc: Global, packs: &[Pack]) -> Result<Vec<u64>, AllocError>
    ensures { IfOk result (λ numbers. numbers.items ≡ numbers_of packs.now) }
{
    packs
        .iter()
        .map(|pack| u64::from(pack.number))
        .collect(alloc)
}

fn pack_days_of(alloc: Global, packs: &[Pack]) -> Result<Vec<u64>, AllocError>
    ensures { IfOk result (λ days. days.items ≡ pack_days_of packs.now) }
{
    packs
        .iter()
        .map(|pack| u64::from(pack.day.unsigned_abs()))
        .collect(alloc)
}

/// The keys of a paper.
pub fn keys_of(alloc: Global, paper: &Paper) -> Result<Keys, AllocError>
    ensures { IfOk result (λ keys. AreKeysOf (data_of paper.now) keys) }
{
    Ok(Keys {
        days: days_of(alloc, &paper.tares)?,
        numbers: numbers_of(alloc, &paper.packs)?,
    })
}

/// The line of the first tare whose day no pack has, else of the first pack whose day has no tare.
pub fn find_tare_fault(alloc: Global, paper: &Paper, keys: &Keys) -> Result<Option<u32>, AllocError>
    requires listed { IsListed (data_of paper.now) }
    requires short { IsShort (data_of paper.now) }
    requires keys { AreKeysOf (data_of paper.now) keys.now }
    ensures { IfOk result (λ line. line ≡ tare_fault (data_of paper.now)) }
{
    let pack_days = pack_days_of(alloc, &paper.packs)?;
    let sorted = in_order(alloc, &pack_days)?;
    if let Some(line) = first_missing(TARES_LINE, &keys.days, &sorted) {
        return Ok(Some(line));
    }
    let packs_line = TARES_LINE + paper.tares.len() as u32;
    Ok(first_missing(packs_line, &pack_days, &keys.days))
}

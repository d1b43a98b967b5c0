//! A batch of one day, corrected once.

ghost use Rattle.std.specs.Prelude.{◌≡◌, pos, ◌+◌, ◌<◌, ◌≤◌, [], length};
ghost use Rattle.batch_sums_tests.specs.Rows.{IsOneGroup};

use annex_tables::{Limits, MAX_POPULATION};
use batch_sums::{BatchSums, NoMemory, STEPS_PER_GROUP, Steps, Totals};
use pack_judge::{Pile, Span};
use std::alloc::Global;
use std::sync::ledger::{Blank, Ledger};

const DAY: i32 = 20_150;

// Adds 10 000 packs of one batch and day to sums that have none.
fn add_packs(sums: &mut BatchSums, batch: u32) -> Result<(), NoMemory>
    requires batch { batch < length sums.old.batches }
    requires empty { sums.old.packs ≡ [] }
    ensures one { IsOneGroup batch DAY sums.new.packs }
    ensures few { length sums.new.packs ≤ MAX_POPULATION }
    ensures batches { sums.new.batches ≡ sums.old.batches }
{
    for number in 0..MAX_POPULATION {
        sums.add(batch, number, DAY, 260_000, 10_000, Pile::Passed)?;
    }
    Ok(())
}

// Adds a batch of 10 000 packs of one day at 260 g to sums that have no packs, and corrects their
// tare from 10 g to 20 g. It takes the steps of one group. The totals of the batch are told.
fn correct_full_batch<L: Ledger>(
    sums: &mut BatchSums,
    limits: Limits,
    steps: &mut Steps<L>,
) -> Result<Totals, NoMemory>
    requires empty { sums.old.packs ≡ [] }
    ensures cost { steps.new ≤ steps.old + STEPS_PER_GROUP }
{
    let batch = sums.add_batch(7, limits)?;
    add_packs(sums, batch)?;
    let span = Span {
        from: DAY,
        until: None,
    };
    sums.rejudge(7, span, 20_000, steps);
    Ok(sums.totals(batch))
}

/// The totals of 10 000 packs of one batch and day at 260 g after their tare was corrected from 10
/// g to 20 g.
pub fn corrected_totals<L: Ledger>(
    alloc: Global,
    limits: Limits,
    blank: Blank,
) -> Result<Totals, NoMemory>
    requires name { blank.name ≡ L.name }
    requires parts { blank.parts ≡ L.parts }
    requires some { 0 < blank.parts }
{
    let mut sums = BatchSums::new(alloc);
    let mut steps: Steps<L> = Steps::new(blank);
    correct_full_batch(&mut sums, limits, &mut steps)
}

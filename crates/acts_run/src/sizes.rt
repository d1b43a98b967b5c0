ghost use Rattle.std.specs.Prelude.{◌<◌, ◌^◌};
ghost use Rattle.std.specs.List.{AllByRecursion};
ghost use Rattle.row_format.specs.Allowed.{FitsAct, FitsFields};

use book_words::{Act, Entry};

// No work: a number of 16 bits.
fn fit_two(_number: u16)
    ensures { _number < 2 ^ 16 }
{}

// No work: a number of 32 bits.
fn fit_four(_number: u32)
    ensures { _number < 2 ^ 32 }
{}

// No work: a number of 64 bits.
fn fit_eight(_number: u64)
    ensures { _number < 2 ^ 64 }
{}

// No work: the numbers of an act have the sizes of its fields.
fn fit_act(act: &Act)
    ensures { FitsAct act.now }
{
    match act {
        Act::Void { pack } => fit_four(*pack),
        Act::Measure { pack, .. } => fit_four(*pack),
        Act::Draw { word, .. } => fit_eight(*word),
        Act::DrawSecond { word, .. } => fit_eight(*word),
        _ => (),
    }
}

// No work: the numbers of an entry have the sizes of its fields.
fn fit_entry(entry: &Entry)
    ensures { FitsFields entry.now }
{
    fit_two(entry.by);
    fit_two(entry.desk);
    fit_four(entry.request);
    fit_act(&entry.act);
}

/// No work: the numbers of entries have the sizes of their fields.
pub fn fit_fields(entries: &[Entry])
    ensures { AllByRecursion FitsFields entries.now }
{
    for entry in entries {
        fit_entry(entry);
    }
}

use crate::runs::{Way, disk_failing, run_on};
use disk_core::MemorySink;
use std::alloc::Global;

// The two numbers of a trial, and the summary that it writes. Worked out by a Python script that
// has a list of grosses and draws by `list.pop`.
static TRIALS: [((u64, u32), &str); 6] = [
    (
        (0, 2),
        "rows 17\nreadings 2 gross 521.601\npassed 0 gross 0.000\nrejected 0 gross 0.000\n\
        sampled 2 gross 521.601\nvoided 0 gross 0.000\n\
        batches running 0 ended 0 drawn 0 closed 1\n",
    ),
    (
        (1, 1),
        "rows 15\nreadings 1 gross 259.900\npassed 0 gross 0.000\nrejected 0 gross 0.000\n\
        sampled 1 gross 259.900\nvoided 0 gross 0.000\n\
        batches running 0 ended 0 drawn 0 closed 1\n",
    ),
    (
        (0, 600),
        "rows 663\nreadings 600 gross 156543.007\npassed 550 gross 143530.682\n\
        rejected 0 gross 0.000\nsampled 50 gross 13012.325\nvoided 0 gross 0.000\n\
        batches running 0 ended 0 drawn 0 closed 1\n",
    ),
    (
        (0, 601),
        "rows 675\nreadings 601 gross 156800.921\npassed 550 gross 143530.682\n\
        rejected 0 gross 0.000\nsampled 51 gross 13270.239\nvoided 0 gross 0.000\n\
        batches running 0 ended 0 drawn 0 closed 2\n",
    ),
    (
        (7, 1_300),
        "rows 1463\nreadings 1300 gross 339012.393\npassed 1170 gross 305147.104\n\
        rejected 0 gross 0.000\nsampled 130 gross 33865.289\nvoided 0 gross 0.000\n\
        batches running 0 ended 0 drawn 0 closed 3\n",
    ),
    (
        (u64::MAX, 3),
        "rows 19\nreadings 3 gross 778.313\npassed 0 gross 0.000\nrejected 0 gross 0.000\n\
        sampled 3 gross 778.313\nvoided 0 gross 0.000\n\
        batches running 0 ended 0 drawn 0 closed 1\n",
    ),
];

// The summary of the trial of 1 and 601 behind that of 0 and 2: the day and the tare are entered
// anew; batch T1 is closed, so that its packs are refused; and T2 has one pack of 256.202 g.
const BEHIND_ANOTHER: &str = "rows 31\nreadings 3 gross 777.803\npassed 0 gross 0.000\n\
    rejected 0 gross 0.000\nsampled 3 gross 777.803\nvoided 0 gross 0.000\n\
    batches running 0 ended 0 drawn 0 closed 2\n";

// Whether a trial over a new book is finished, and writes this.
fn writes(alloc: Global, trial: (u64, u32), text: &str) -> bool {
    let mut output = MemorySink::new(alloc, Vec::new(alloc));
    let Ok(disk) = disk_failing(alloc, &[]) else {
        return false;
    };
    match run_on(alloc, disk, trial, &mut output) {
        Some((way, _, _)) => way == Way::Finished && output.bytes() == text.as_bytes(),
        None => false,
    }
}

// The first trial that is wrong.
fn wrong_trial(alloc: Global) -> Option<(u64, u32)> {
    for (trial, text) in &TRIALS {
        if !writes(alloc, *trial, *text) {
            return Some(*trial);
        }
    }
    None
}

#[test]
fn summaries(rt: HostRuntime) -> Result<(), std::alloc::AllocError> {
    assert!(rt; wrong_trial(rt.alloc()) == None);
    Ok(())
}

// What the trial of 1 and 601 writes behind that of 0 and 2.
fn is_behind_another(alloc: Global) -> Option<bool> {
    let mut first = MemorySink::new(alloc, Vec::new(alloc));
    let mut second = MemorySink::new(alloc, Vec::new(alloc));
    let disk = disk_failing(alloc, &[]).ok()?;
    let (_, _, disk) = run_on(alloc, disk, (0, 2), &mut first)?;
    let (way, rows, _) = run_on(alloc, disk, (1, 601), &mut second)?;
    Some(way == Way::Finished && rows == 31 && second.bytes() == BEHIND_ANOTHER.as_bytes())
}

#[test]
fn behind_another_trial(rt: HostRuntime) -> Result<(), std::alloc::AllocError> {
    assert!(rt; is_behind_another(rt.alloc()) == Some(true));
    Ok(())
}

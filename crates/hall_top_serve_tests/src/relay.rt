//! Two lanes that wait for each other's gates: neither is stopped while the other changes its batch.
use crate::devices::LOOKS;
use book_words::Caller;
use device_facts::counted_once_more;
use disk_core::{Failed, ListDoor, MemorySink, QuietDisk, QuietSource};
use hall_top::{NoNotices, hall};
use lane_worker::{Cell, CellNext, Gate, PairLane};
use memory_hall::CellItem::{Batch, Gross};
use memory_hall::{CellItem, copy, words_of};
use std::alloc::Global;
use std::sync::Wait;
use std::sync::atomic::{AtomicU64, Ordering};
use std::test::Fail;
use std::thread;
use std::thread::Threads;

// Lane 1 changes its batch, and lane 2 is worked for one.
const PLAN: &str = "\
setup = \"\"\"
day 2025-03-03
product rice250 250
tare rice250 2025-03-03 10
open A rice250
open B rice250
open C rice250
\"\"\"

[[lane]]
number = 1
changes = true

[[lane]]
number = 2
batch = \"B\"
";

const PRINTED: &str = "\
lane 1 opened 2 done
lane 2 opened 3 done
rows 17
readings 5 gross 1255.000
passed 5 gross 1255.000
rejected 0 gross 0.000
sampled 0 gross 0.000
voided 0 gross 0.000
batches running 3 ended 0 drawn 0 closed 0
";

// An item that a cell gives once the gate of this lane has opened so often.
type Step = (u8, u64, CellItem);

// Lane 1 says its batch once gate 2 has opened, and the next once it has opened again.
const FIRST: &[Step] = &[
    (2, 1, Batch(b"A", 1)),
    (2, 1, Gross(251_000)),
    (2, 2, Batch(b"C", 3)),
    (2, 2, Gross(251_000)),
];

// Lane 2 goes on once gate 1 has opened for the batch that was said.
const SECOND: &[Step] = &[
    (1, 0, Gross(251_000)),
    (1, 1, Gross(251_000)),
    (1, 2, Gross(251_000)),
];

// How often the gates opened.
#[derive(Drop)]
struct Relay {
    first: AtomicU64,
    second: AtomicU64,
}

impl Relay {
    fn new() -> Relay {
        Relay {
            first: AtomicU64::new(0),
            second: AtomicU64::new(0),
        }
    }

    // How often the gate of a lane opened.
    fn of(&self, lane: u8) -> &AtomicU64 {
        if lane == 1 { &self.first } else { &self.second }
    }

    // Waits until the gate of a lane has opened so often, and tells whether it has.
    fn wait(&self, lane: u8, times: u64) -> bool {
        for _look in 0..LOOKS {
            if self.of(lane).load(Ordering::SeqCst) >= times {
                return true;
            }
            thread::yield_now();
        }
        false
    }
}

#[derive(Drop)]
struct RelayCell<'a> {
    relay: &'a Relay,
    steps: &'static [Step],
    given: usize,
    faults: u64,
}

impl<'a> Cell for RelayCell<'a> {
    ghost use Rattle.std.specs.Prelude.{None};
    ghost use Rattle.device_facts.specs.Frame.{NothingElse};
    ghost use Rattle.lane_worker.specs.Cells.{told_left};

    ghost feed = { λ _. told_left None };

    ghost faults = { λ c. c.faults };

    ghost keeps_rest = { NothingElse };

    fn next(&mut self) -> Result<CellNext, Failed> {
        let Some((lane, times, item)) = self.steps.get(self.given) else {
            return Ok(CellNext::End);
        };
        if !self.relay.wait(*lane, *times) {
            self.faults = counted_once_more(self.faults);
            return Err(Failed);
        }
        self.given = self.given.saturating_add(1);
        Ok(item.next())
    }

    fn expect_batches(&mut self) {}
}

#[derive(Drop)]
struct RelayGate<'a> {
    relay: &'a Relay,
    lane: u8,
}

impl<'a> Gate for RelayGate<'a> {
    ghost use Rattle.std.specs.Prelude.{None};
    ghost use Rattle.device_facts.specs.Frame.{NothingElse};

    ghost opened = { λ _. None };

    ghost faults = { λ _. 0 };

    ghost keeps_rest = { NothingElse };

    fn lift<C: Caller>(&mut self, _: &C, _: u32) -> Result<(), Failed> {
        self.relay.of(self.lane).fetch_add(1, Ordering::SeqCst);
        Ok(())
    }
}

// A lane whose cell takes these steps.
fn lane_at<'a>(
    relay: &'a Relay,
    lane: u8,
    steps: &'static [Step],
) -> PairLane<RelayCell<'a>, RelayGate<'a>> {
    let cell = RelayCell {
        relay,
        steps,
        given: 0,
        faults: 0,
    };
    PairLane::new(cell, RelayGate { relay, lane })
}

// Whether a hall of both lanes ends well.
fn relays<R: Threads + Wait + Sync>(rt: &R, alloc: Global) -> bool {
    let relay = Relay::new();
    let words = words_of(alloc, &["serve"]);
    let mut input = QuietSource::new(copy(alloc, PLAN.as_bytes()));
    let mut output = MemorySink::new(alloc, Vec::new(alloc));
    let mut lanes = Vec::new(alloc);
    let _ = lanes.push(lane_at(&relay, 1, FIRST));
    let _ = lanes.push(lane_at(&relay, 2, SECOND));
    let doors: Vec<ListDoor> = Vec::new(alloc);
    let disk = QuietDisk::new(Vec::with_capacity(alloc, 1_000_000).unwrap_or(Vec::new(alloc)));
    let ended = hall(
        rt,
        alloc,
        &words,
        &mut input,
        &mut output,
        &mut NoNotices,
        disk,
        lanes,
        doors,
    );
    ended.status == 0 && output.bytes() == PRINTED.as_bytes()
}

#[test]
fn lanes_wait_for_each_others_gates(rt: HostRuntime) -> Result<(), Fail> {
    assert!(rt; relays(&rt, rt.alloc()));
    Ok(())
}

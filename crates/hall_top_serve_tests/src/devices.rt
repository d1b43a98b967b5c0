//! Devices that meet before the first of them gives anything, so that their callers ask at the same
//! time.
use crate::acts::{PACKS, gross};
use device_facts::counted_once_more;
use disk_core::{Door, Failed, Sink, Source};
use lane_worker::{Cell, CellNext};
use std::sync::atomic::{AtomicU64, Ordering};
use std::thread;

/// How often a device looks for the others.
pub const LOOKS: u32 = 100_000_000;

const NOTHING: &[u8] = b"";

/// Where so many devices meet.
#[derive(Drop)]
pub struct Meeting {
    came: AtomicU64,
    devices: u64,
}

impl Meeting {
    pub fn new(devices: u64) -> Meeting {
        Meeting {
            came: AtomicU64::new(0),
            devices,
        }
    }

    // Waits for the others, and tells whether all came. Where one is at work only after another has
    // ended, that other waits in vain.
    fn wait(&self) -> bool {
        self.came.fetch_add(1, Ordering::SeqCst);
        for _look in 0..LOOKS {
            if self.came.load(Ordering::SeqCst) >= self.devices {
                return true;
            }
            thread::yield_now();
        }
        false
    }
}

/// The cell of a lane, which waits before its first pack.
#[derive(Drop)]
pub struct MeetingCell<'a> {
    pub meeting: &'a Meeting,
    pub lane: u8,
    pub given: u32,
    pub faults: u64,
}

impl<'a> Cell for MeetingCell<'a> {
    ghost use Rattle.std.specs.Prelude.{None};
    ghost use Rattle.device_facts.specs.Frame.{NothingElse};
    ghost use Rattle.lane_worker.specs.Cells.{told_left};

    ghost feed = { λ _. told_left None };

    ghost faults = { λ c. c.faults };

    ghost keeps_rest = { NothingElse };

    fn next(&mut self) -> Result<CellNext, Failed> {
        if self.given == 0 && !self.meeting.wait() {
            self.faults = counted_once_more(self.faults);
            return Err(Failed);
        }
        if self.given >= PACKS {
            return Ok(CellNext::End);
        }
        self.given += 1;
        Ok(CellNext::Gross(gross(self.lane, self.given)))
    }

    fn expect_batches(&mut self) {}
}

/// A door to one connection, which waits before its first byte.
#[derive(Drop)]
pub struct MeetingDoor<'a> {
    pub meeting: &'a Meeting,
    /// What the connection sends, and how many bytes of it were read.
    pub sent: Vec<u8>,
    pub read: usize,
    /// What was written to it.
    pub written: Vec<u8>,
    /// Whether it wasn't admitted yet.
    pub waits: bool,
    pub ended: bool,
    pub faults: u64,
}

impl<'a> Source for MeetingDoor<'a> {
    ghost use Rattle.std.specs.Prelude.{None};
    ghost use Rattle.device_facts.specs.Frame.{NothingElse, nothing_else};

    ghost left = { λ _. None };

    ghost ended = { λ d. d.ended };

    ghost faults = { λ d. d.faults };

    ghost keeps_rest = { NothingElse };

    ghost frame = { nothing_else };

    fn read(&mut self, into: &mut [u8]) -> Result<usize, Failed> {
        if self.read == 0 && !self.meeting.wait() {
            self.faults = counted_once_more(self.faults);
            return Err(Failed);
        }
        let left = self.sent.get(self.read..).unwrap_or(NOTHING);
        let count = left.len().min(into.len());
        into[..count].copy_from_slice(&left[..count]);
        self.read = self.read.saturating_add(count);
        self.ended = count == 0 && !into.is_empty();
        Ok(count)
    }
}

impl<'a> Sink for MeetingDoor<'a> {
    ghost use Rattle.std.specs.Prelude.{◌≡◌, None, refl};
    ghost use Rattle.std.proofs.Common.{◌∙◌};

    ghost held = { λ _. None };

    ghost faults = { λ d. d.faults };

    ghost keeps_rest = { λ old new. new.ended ≡ old.ended };

    ghost frame = { record { none = λ d. refl; both = λ a b c first second. second ∙ first } };

    fn write(&mut self, bytes: &[u8]) -> Result<usize, Failed> {
        if self.written.extend_from_slice(bytes).is_err() {
            self.faults = counted_once_more(self.faults);
            return Err(Failed);
        }
        Ok(bytes.len())
    }
}

impl<'a> Door for MeetingDoor<'a> {
    ghost use Rattle.std.specs.Prelude.{None, refl};

    ghost connections = { λ _. None };

    ghost missed = { λ _. 0 };

    ghost source_left = { λ d. refl };

    ghost sink_held = { λ d. refl };

    ghost one_count = { λ d. refl };

    ghost read_adds = { λ old new bytes same parts. refl };

    ghost write_adds = { λ old new bytes same grown. refl };

    ghost write_leaves_end = { λ old new same. same };

    ghost read_misses_none = { λ old new same. refl };

    ghost write_misses_none = { λ old new same. refl };

    fn next(&mut self) -> Result<bool, Failed> {
        let found = self.waits;
        self.waits = false;
        self.ended = false;
        Ok(found)
    }
}

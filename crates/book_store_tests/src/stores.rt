ghost use Rattle.std.specs.Prelude.{◌≤◌, length};
ghost use Rattle.book_store.specs.Stores.{IsSound};

use crate::books::{ROWS, entry_at};
use book_mount::{MountError, mount};
use book_store::{AdoptError, Store};
use book_words::{Answered, Ask, AskError, Entry, Reply, Want};
use disk_core::{Disk, Keep, MemoryDisk};
use pack_judge::Signal;
use std::alloc::Global;

/// What a crash may leave of the bytes that were written since the last sync.
const KEEPS: [Keep; 4] = [Keep::Earlier, Keep::Written, Keep::Fill(1), Keep::Fill(0)];

/// A copy of some items; of none where there is no memory, so that the test then fails.
pub(crate) fn copy<T: Copy>(alloc: Global, items: &[T]) -> Vec<T> {
    Vec::from_slice(alloc, items).unwrap_or(Vec::new(alloc))
}

/// What is told, where it can be copied.
#[derive(Clone, Copy, PartialEq, Eq)]
pub(crate) enum Told {
    Row(u32, Option<Signal>),
    View,
    Refused,
    DiskFault,
    NoMemory,
}

// What a reply tells.
fn told_of(reply: &Reply) -> Told {
    match reply {
        Reply::Done { row } => Told::Row(*row, None),
        Reply::Judged { row, signal } => Told::Row(*row, Some(*signal)),
        _ => Told::View,
    }
}

/// What an answer tells.
pub(crate) fn read_answer(answer: &Result<Answered, AskError>) -> Told {
    match answer {
        Ok(answered) => told_of(&answered.reply),
        Err(AskError::Refused(_)) => Told::Refused,
        Err(AskError::DiskFault) => Told::DiskFault,
        Err(AskError::NoMemory) => Told::NoMemory,
    }
}

/// How far a book is taken: up to which row, whether it keeps a snapshot then, for how many rows
/// behind the fifth room is taken there, and whether its acts are adopted; and how many rows it
/// may have.
#[derive(Clone, Copy)]
pub(crate) struct Way {
    pub(crate) rows: u32,
    pub(crate) rests: bool,
    pub(crate) room: u32,
    pub(crate) adopts: bool,
    pub(crate) limit: u32,
}

/// Nothing is asked.
pub(crate) const LOOK: Way = Way {
    rows: 0,
    rests: false,
    room: 0,
    adopts: false,
    limit: 1_000,
};

/// Five rows.
pub(crate) const FIVE: Way = Way { rows: 5, ..LOOK };

/// The long run, and its snapshot.
pub(crate) const WHOLE: Way = Way {
    rows: ROWS,
    rests: true,
    ..LOOK
};

/// How many calls the long run makes over an empty disk: mounting makes four, each act four more,
/// and keeping the snapshot seven, which are the length, three writes and a sync, and the mark and
/// a sync.
pub(crate) const CALLS: u32 = 4 + 4 * ROWS + 7;

/// What is seen of a disk: how many rows it held when it was mounted; whether these and all
/// answers were right; how often the disk failed; and why it wasn't mounted.
#[derive(Clone, Copy)]
pub(crate) struct Seen {
    pub(crate) held: u32,
    pub(crate) right: bool,
    pub(crate) faults: u32,
    pub(crate) why: Option<MountError>,
}

/// What three acts are told behind five rows, and whether an entry hangs then.
pub(crate) type Lines = [(Told, bool); 3];

/// A book on a disk, and how often the disk failed. It is closed, and never let go.
pub(crate) struct TestStore<D: Disk> {
    store: Store<D>,
    faults: u32,
    ghost sound: { IsSound D.Disk store },
}

impl<D: Disk> TestStore<D> {
    // Asks the act of an entry.
    fn ask(&mut self, entry: &Entry) -> Told {
        let want = Want::Act(entry.act);
        let answer = self.store.ask(
            entry.by,
            &Ask {
                desk: entry.desk,
                request: entry.request,
                want,
            },
        );
        read_answer(&answer)
    }

    // Adopts an entry, or asks its act. What isn't lawful is refused.
    fn act(&mut self, entry: &Entry, adopts: bool) -> Told {
        if !adopts {
            return self.ask(entry);
        }
        match self.store.adopt(entry) {
            Ok(row) => Told::Row(row, None),
            Err(AdoptError::Unlawful) => Told::Refused,
            Err(AdoptError::DiskFault) => Told::DiskFault,
            Err(AdoptError::NoMemory) => Told::NoMemory,
        }
    }

    // Whether an entry is told its row, and added no other. A desk's act is told again.
    fn is_told(&mut self, entry: &Entry, number: u32) -> bool {
        let told = Told::Row(number, entry.signal);
        self.store.len() == number
            && (entry.desk == 0 || self.ask(entry) == told)
            && self.store.len() == number
    }

    // Whether the act of a row is answered with its row; where the disk fails it is asked again.
    fn take(&mut self, entry: &Entry, number: u32) -> bool {
        let mut told = self.ask(entry);
        for _turn in 0..2u8 {
            if told == Told::DiskFault {
                self.faults = self.faults.saturating_add(1);
                told = self.ask(entry);
            }
        }
        told == Told::Row(number, entry.signal) && self.is_told(entry, number)
    }

    // Whether an entry is adopted as its row, where the book may have one row: behind it what is
    // asked is refused.
    fn adopts(&mut self, entry: &Entry, number: u32) -> bool {
        (number == 1 || self.ask(entry) == Told::Refused)
            && self.act(entry, true) == Told::Row(number, None)
            && self.store.len() == number
    }

    // Whether each act up to a row is answered with its row.
    fn take_to(&mut self, entries: &[Entry], rows: u32, adopts: bool) -> bool {
        for number in self.store.len().saturating_add(1)..rows.saturating_add(1) {
            let right = match entry_at(entries, number) {
                Some(entry) if adopts => self.adopts(&entry, number),
                Some(entry) => self.take(&entry, number),
                None => false,
            };
            if !right {
                return false;
            }
        }
        true
    }

    // Whether the rows are the first of some entries.
    fn has_front(&self, entries: &[Entry]) -> bool {
        for number in 1..self.store.len().saturating_add(1) {
            if self.store.entry(number) != entry_at(entries, number) {
                return false;
            }
        }
        true
    }

    // Whether the act of the last row is told that row, where a desk asked it.
    fn repeats_last(&mut self, entries: &[Entry]) -> bool {
        let number = self.store.len();
        match entry_at(entries, number) {
            Some(entry) => self.is_told(&entry, number),
            None => number == 0,
        }
    }

    // Whether a snapshot is kept, where it is wanted; where the disk fails that is asked again.
    fn keep(&mut self, wanted: bool) -> bool {
        if !wanted {
            return true;
        }
        for _turn in 0..3u8 {
            match self.store.rest() {
                Ok(kept) => return kept,
                Err(_) => self.faults = self.faults.saturating_add(1),
            }
        }
        false
    }

    // Takes a book so far, and tells what is seen.
    fn go(&mut self, entries: &[Entry], way: Way) -> Seen {
        let held = self.store.len();
        let right = self.has_front(entries)
            && self.repeats_last(entries)
            && self.take_to(entries, way.rows.min(5), way.adopts)
            && (way.room == 0 || self.store.reserve(way.room).is_ok())
            && self.take_to(entries, way.rows, way.adopts)
            && self.has_front(entries)
            && self.keep(way.rests);
        Seen {
            held,
            right: right && self.store.held() == held,
            faults: self.faults,
            why: None,
        }
    }

    // Asks an act or adopts an entry, and tells whether an entry hangs then.
    fn act_and_look(&mut self, entry: &Entry, adopts: bool) -> (Told, bool) {
        let told = self.act(entry, adopts);
        (told, self.store.hanging())
    }

    // Asks three acts behind five rows, or adopts three entries.
    fn act_in_turn(&mut self, entries: &[Entry], adopts: bool, acts: &[Entry; 3]) -> Lines {
        self.go(entries, FIVE);
        let first = self.act_and_look(&acts[0], adopts);
        let second = self.act_and_look(&acts[1], adopts);
        [first, second, self.act_and_look(&acts[2], adopts)]
    }
}

/// What was seen of a disk, and the disk.
#[derive(Drop)]
pub(crate) struct Used<D: Disk> {
    pub(crate) seen: Seen,
    pub(crate) disk: D,
}

// Takes a book so far, and gives its disk.
fn go_and_close<D: Disk>(store: TestStore<D>, entries: &[Entry], way: Way) -> Used<D> {
    let mut store = store;
    let seen = store.go(entries, way);
    let TestStore { store, faults: _ } = store;
    let (disk, _) = store.close();
    Used { seen, disk }
}

/// Mounts a disk, again where that fails, and takes its book so far. The book may have at least a
/// row, and at most those of a look.
pub(crate) fn use_disk(
    alloc: Global,
    disk: MemoryDisk,
    entries: &[Entry],
    way: Way,
) -> Used<MemoryDisk> {
    let limit = way.limit.max(1).min(LOOK.limit);
    let mut disk = disk;
    let mut why = None;
    for faults in 0..3u32 {
        match mount(alloc, disk, limit) {
            Ok(store) => return go_and_close(TestStore { store, faults }, entries, way),
            Err(refused) => {
                disk = refused.disk;
                why = Some(refused.why);
            }
        }
    }
    let seen = Seen {
        held: 0,
        right: false,
        faults: 3,
        why,
    };
    Used { seen, disk }
}

/// Mounts these bytes and takes their book so far.
pub(crate) fn use_bytes(
    alloc: Global,
    bytes: &[u8],
    entries: &[Entry],
    way: Way,
) -> Used<MemoryDisk> {
    let disk = MemoryDisk::new(alloc, copy(alloc, bytes), Vec::new(alloc));
    use_disk(alloc, disk, entries, way)
}

// Asks three acts behind five rows, or adopts three entries, and gives the disk.
fn act_and_close<D: Disk>(
    store: TestStore<D>,
    entries: &[Entry],
    adopts: bool,
    acts: &[Entry; 3],
) -> (Lines, D) {
    let mut store = store;
    let lines = store.act_in_turn(entries, adopts, acts);
    let TestStore { store, faults: _ } = store;
    let (disk, _) = store.close();
    (lines, disk)
}

/// Asks three acts behind five rows, or adopts three entries, on a disk of which these calls fail.
/// The book may have six rows, and where it adopts five.
pub(crate) fn act_on(
    alloc: Global,
    fails: &[u32],
    entries: &[Entry],
    adopts: bool,
    acts: &[Entry; 3],
) -> (Option<Lines>, MemoryDisk) {
    let disk = MemoryDisk::new(alloc, Vec::new(alloc), copy(alloc, fails));
    let limit = if adopts { 5 } else { 6 };
    match mount(alloc, disk, limit) {
        Ok(store) => {
            let store = TestStore { store, faults: 0 };
            let (lines, disk) = act_and_close(store, entries, adopts, acts);
            (Some(lines), disk)
        }
        Err(refused) => (None, refused.disk),
    }
}

/// How many calls a disk was asked.
pub(crate) fn calls_of(disk: &MemoryDisk) -> u32
    ensures { result ≤ length disk.now.calls }
{
    disk.calls_made().min(u32::MAX as usize) as u32
}

/// Whether what a crash leaves after so many calls is mounted, in each way of it: so many rows are
/// there, or one of the rows up to these; and each act behind them is then answered with its row.
pub(crate) fn survives(
    alloc: Global,
    disk: &MemoryDisk,
    after: u32,
    entries: &[Entry],
    way: Way,
    rows: (u32, u32),
) -> bool {
    let after = after.min(calls_of(disk));
    for keep in KEEPS {
        let Ok(bytes) = disk.crash(after, keep) else {
            return false;
        };
        let seen = use_bytes(alloc, &bytes, entries, way).seen;
        if !seen.right || seen.held < rows.0 || rows.1 < seen.held {
            return false;
        }
    }
    true
}

/// Whether a disk holds so many of these entries, as it is read and whatever a crash leaves of it.
pub(crate) fn holds(alloc: Global, disk: &MemoryDisk, entries: &[Entry], rows: u32) -> bool {
    let seen = use_bytes(alloc, disk.bytes(), entries, LOOK).seen;
    seen.right && seen.held == rows && survives(alloc, disk, u32::MAX, entries, LOOK, (rows, rows))
}

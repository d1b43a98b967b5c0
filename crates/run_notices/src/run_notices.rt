use crate::job_lines::{Doors, door_stop, lane_stop};
use crate::meanings::meaning;
use batch_reports::refusal_text;
use book_words::{Act, Entry, Name, Refusal, Refused};
use command_line::{BookUse, Command, Wants, needs_of};
use lane_changes::ChangeNotices;
use lane_worker::{LaneEnd, LaneStop};
use office_door::DoorEnd;
use session_jobs::JobNotices;
use setup_run::SetupNotices;
use std::alloc::Global;
use std::fmt;
use std::io::Eprint;

// A new day that is more days than this ahead of the one before is told.
const FAR_AHEAD: i32 = 31;

// So many rows left are told as soon as there are no more, where there were more.
const FEW_ROWS: u32 = 50_000;

// Of a book's rows, the last one in so many are told at each run that adds some.
const LAST_PART: u32 = 100;

// A lane at work: for its batch, or for those that its cell says.
#[derive(Clone, Copy)]
struct Job {
    lane: u8,
    batch: Option<Name>,
}

impl fmt::Display for Job {
    fn fmt<W: fmt::Write>(&self, f: &mut fmt::Formatter<W>) -> fmt::Result {
        let lane = self.lane;
        match self.batch {
            Some(batch) => write!(f, "lane {lane}, batch {}", batch.as_bytes().escape_ascii()),
            None => write!(f, "lane {lane}, changing"),
        }
    }
}

// A refusal by its number and its name, and how many rows the book had.
#[derive(Clone, Copy)]
struct ShortRefusal(Refused);

impl fmt::Display for ShortRefusal {
    fn fmt<W: fmt::Write>(&self, f: &mut fmt::Formatter<W>) -> fmt::Result {
        let Refused { refusal, at } = self.0;
        write!(f, "refused {} {} at {at}", refusal.number(), refusal.name())
    }
}

/// What people should know of a run. A refused line of a setup, and what becomes of lanes and doors
/// that are at work at once, is told always, all else where standard error is a terminal, and of
/// commands that add rows.
#[derive(Drop)]
pub struct RunNotices<E: Eprint + Drop> {
    errors: E,
    alloc: Global,
    at_terminal: bool,
    adds_rows: bool,
    has_book: bool,
    is_serving: bool,
    limit: u32,
    lanes: u8,
    doors: Doors,
}

impl<E: Eprint + Drop> RunNotices<E> {
    /// What there is to say of a run that words ask for.
    pub fn new(errors: E, alloc: Global, at_terminal: bool, wanted: &Wants) -> Self {
        RunNotices {
            errors,
            alloc,
            at_terminal,
            adds_rows: needs_of(wanted.command).book == BookUse::Adds,
            has_book: wanted.book.is_some(),
            is_serving: wanted.command == Command::Serve,
            limit: wanted.limit,
            lanes: wanted.lanes,
            doors: Doors::new(wanted),
        }
    }

    /// Says that the rows of a run are kept in memory alone, where it has no book.
    pub fn say_memory(&self) {
        if self.at_terminal && self.adds_rows && !self.has_book {
            let _ = eprintln!(&self.errors;
                "hall: without --book the rows are in memory alone, and gone at the end"
            );
        }
    }

    // Says how many rows are left behind a run. While lanes and doors are at work at once the disk
    // says that.
    fn say_left(&self, held: u32, count: u32) {
        if !self.is_serving {
            say_left(&self.errors, held, count, self.limit);
        }
    }

    /// Says what should be known of the rows of a book behind a run, of which the first were held
    /// before it.
    pub fn say_rows(&self, held: u32, rows: &[Entry]) {
        if self.at_terminal && self.adds_rows {
            say_days(&self.errors, held as usize, rows);
            self.say_left(held, u32::try_from(rows.len()).unwrap_or(u32::MAX));
        }
    }
}

// Says which days behind the first rows are far ahead of the day before them.
fn say_days<E: Eprint>(errors: &E, held: usize, rows: &[Entry]) {
    let mut newest = None;
    for (place, row) in rows.iter().enumerate() {
        if let Act::NewDay { day } = row.act {
            if place >= held {
                say_day(errors, place.saturating_add(1), newest, day);
            }
            newest = Some(day);
        }
    }
}

// Says that the day of a row is far ahead of the one before.
fn say_day<E: Eprint>(errors: &E, row: usize, before: Option<i32>, day: i32) {
    let ahead = day.saturating_sub(before.unwrap_or(day));
    if ahead > FAR_AHEAD {
        let _ = eprintln!(errors;
            "hall: row {row}: the day is {ahead} days ahead of the one before, and it stands"
        );
    }
}

// Says how many rows are left, where these are the last part of all, or have become few.
fn say_left<E: Eprint>(errors: &E, held: u32, count: u32, limit: u32) {
    let left = limit.saturating_sub(count);
    let became_few = left <= FEW_ROWS && limit.saturating_sub(held) > FEW_ROWS;
    if became_few || left <= limit / LAST_PART {
        let _ = eprintln!(errors;
            "hall: {left} rows are left of {limit}: a full book takes no act, not even a verdict"
        );
    }
}

// Whether a line was refused because it was done at an earlier start.
fn is_done(refusal: &Refusal) -> bool {
    matches!(refusal, Refusal::RequestOld { .. })
}

impl<E: Eprint + Drop> SetupNotices for RunNotices<E> {
    fn refused(&mut self, number: u64, line: &[u8], refused: &Refused) {
        let mut text = Vec::new(self.alloc);
        if is_done(&refused.refusal) || refusal_text(refused, &mut text).is_err() {
            return;
        }
        let text = str::from_utf8(&text).unwrap_or("").trim_end();
        let meaning = meaning(&refused.refusal);
        let _ = eprintln!(&self.errors;
            "hall: line {number} of the setup, {}: {text}: {meaning}",
            line.escape_ascii()
        );
    }
}

impl<E: Eprint + Drop> ChangeNotices for RunNotices<E> {
    fn start_refused(&self, lane: u8, batch: Name, refused: Refused) {
        let _ = eprintln!(&self.errors;
            "hall: lane {lane} waits, batch {}: {}: {}",
            batch.as_bytes().escape_ascii(),
            ShortRefusal(refused),
            meaning(&refused.refusal)
        );
    }

    fn weight_without_batch(&self, lane: u8, count: u32) {
        if count == 1 {
            let _ = eprintln!(&self.errors;
                "hall: lane {lane} waits: a weight came without a batch"
            );
        }
    }

    fn weights_without_batch(&self, lane: u8, count: u32) {
        let weights = if count == 1 { "weight" } else { "weights" };
        let _ = eprintln!(&self.errors;
            "hall: lane {lane}: {count} {weights} came without a batch"
        );
    }
}

impl<E: Eprint + Drop> JobNotices for RunNotices<E> {
    fn begin(&self, rows: u32) {
        let left = self.limit.saturating_sub(rows);
        let _ = eprintln!(&self.errors;
            "hall: serving, lanes {}, {}, rows {rows}, left {left}",
            self.lanes, self.doors
        );
    }

    fn lane_ended(&self, lane: u8, batch: Option<Name>, end: LaneEnd) {
        let job = Job { lane, batch };
        if let LaneStop::Refused(refused) = end.stop {
            let _ = eprintln!(&self.errors; "hall: {job}: {}", ShortRefusal(refused));
            return;
        }
        let mut text = Vec::new(self.alloc);
        let stop = lane_stop(&end, &mut text);
        let _ = eprintln!(&self.errors; "hall: {job}: {stop}");
    }

    fn door_ended(&self, door: u8, end: DoorEnd) {
        let mut text = Vec::new(self.alloc);
        let stop = door_stop(&end, &mut text);
        let _ = eprintln!(&self.errors; "hall: door {door}: {stop}");
    }
}

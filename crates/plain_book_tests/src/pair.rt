//! A book and a plain one, which get the same asks.

ghost use Rattle.std.specs.Prelude.{◌≤◌};
ghost use Rattle.hall_limits.specs.declared.TheConstants.{MAX_ROWS};

use crate::met::Met;
use book_core::{Book, BookError, Rows};
use book_words::{Answered, Ask, Entry, PackView, Question, Want};
use plain_book::PlainBook;
use std::alloc::{AllocError, Global};

// Who brings the asks.
const BY: u16 = 3;

// Lanes on which the books are compared; the first and the last aren't numbers of lanes.
const LANES: [u8; 5] = [0, 1, 2, 3, 17];

/// Why a comparison ends early.
#[derive(Clone, Copy, Debug)]
pub enum Stop {
    /// Memory was refused.
    NoMemory,
    /// The books answer an ask otherwise.
    Answers { ask: Ask },
    /// The books have other rows, packs or unsettled lanes behind an ask.
    Behind { ask: Ask },
    /// The books have other rows at the end.
    Rows,
    /// So many rows are no limit of a book.
    Limit,
}

impl From<AllocError> for Stop {
    fn from(_error: AllocError) -> Stop {
        Stop::NoMemory
    }
}

/// A book and the plain one. It isn't let go but closed: what takes a book apart is costly to prove.
pub struct Pair {
    book: Book,
    plain: PlainBook,
}

// The calls of the book that are compared, without their contracts: no test here needs them.
fn ask_book(book: &mut Book, ask: &Ask) -> Result<Answered, BookError> {
    book.ask(BY, ask)
}

fn length_of(book: &Book) -> u32 {
    book.len()
}

fn entry_in(book: &Book, number: u32) -> Option<Entry> {
    book.entry(number)
}

fn pack_in(book: &Book, number: u32) -> Option<PackView> {
    book.pack(number)
}

fn unsettled_in(book: &Book, lane: u8) -> Option<u32> {
    book.unsettled(lane)
}

fn rows_of(book: Book) -> Rows {
    book.rows()
}

impl Pair {
    /// Two books without entries, which may have so many rows.
    pub fn new(alloc: Global, limit: u32) -> Pair
        requires least { 1 ≤ limit }
        requires most { limit ≤ MAX_ROWS }
    {
        Pair {
            book: Book::new(alloc, limit),
            plain: PlainBook::new(alloc, limit),
        }
    }

    /// The plain book.
    pub fn plain(&self) -> &PlainBook {
        &self.plain
    }

    /// Gives an ask to both; their answers have to be the same, and are counted.
    pub fn ask(&mut self, met: &mut Met, ask: &Ask) -> Result<(), Stop> {
        let rows = length_of(&self.book);
        let is_same = match (ask_book(&mut self.book, ask), self.plain.take(BY, ask)?) {
            (Ok(answered), Ok(plain)) => {
                met.note_answered(rows, ask, &answered);
                answered == plain
            }
            (Err(BookError::Refused(refused)), Err(plain)) => {
                met.note_refused(refused.refusal.number());
                refused == plain
            }
            _ => false,
        };
        if is_same {
            return Ok(());
        }
        Err(Stop::Answers { ask: *ask })
    }

    /// Gives an act to the book alone; the plain book takes over its newest entry.
    pub fn follow(&mut self, ask: &Ask) -> Result<(), Stop> {
        let _ = ask_book(&mut self.book, ask);
        let newest = length_of(&self.book);
        match entry_in(&self.book, newest) {
            Some(entry) => Ok(self.plain.follow(&entry)?),
            None => Ok(()),
        }
    }

    // Whether both say the same of the unsettled packs of some lanes.
    fn agree_on_lanes(&self) -> bool {
        for lane in &LANES {
            if unsettled_in(&self.book, *lane) != self.plain.unsettled(*lane) {
                return false;
            }
        }
        true
    }

    /// Behind an ask both have to have the same number of rows, the same entry and pack at a
    /// number, and the same unsettled packs.
    pub fn compare(&self, ask: &Ask, number: u32) -> Result<(), Stop> {
        let pack = self.plain.pack(number)?;
        if length_of(&self.book) as usize == self.plain.entries().len()
            && entry_in(&self.book, number) == self.plain.entry(number)
            && pack_in(&self.book, number) == pack
            && self.agree_on_lanes()
        {
            return Ok(());
        }
        Err(Stop::Behind { ask: *ask })
    }

    /// Gives a question to both.
    pub fn question(&mut self, met: &mut Met, question: Question) -> Result<(), Stop> {
        self.ask(
            met,
            &Ask {
                desk: 0,
                request: 0,
                want: Want::Question(question),
            },
        )
    }

    /// At the end both have to have the same rows, if nothing was wrong before.
    pub fn close(self, compared: Result<(), Stop>) -> Result<(), Stop> {
        let Pair { book, plain } = self;
        let rows = rows_of(book);
        let is_same = rows.as_slice() == plain.entries();
        if compared.is_err() || is_same {
            return compared;
        }
        Err(Stop::Rows)
    }
}

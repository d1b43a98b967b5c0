//! Acts and questions drawn by numbers, in and out of the ranges of the rules.

ghost use Rattle.std.specs.Prelude.{◌<◌};

use annex_tables::Mode;
use book_words::{Act, Ask, Entry, Name, Prior, Question, Unit, Want};
use plain_book::{is_lane_act, newest_of_desk, unsettled_of};
use std::fmt;

fn named(bytes: &[u8]) -> Result<Name, fmt::Error> {
    match Name::new(bytes) {
        Some(name) => Ok(name),
        None => Err(fmt::Error),
    }
}

/// The names that are drawn. The last of each has not the shape of a name.
#[derive(Clone, Copy)]
pub struct Names {
    pub products: [Name; 4],
    pub batches: [Name; 8],
}

impl Names {
    /// Three good names of products and seven of batches, and one of each that isn't.
    pub fn new() -> Result<Names, fmt::Error> {
        Ok(Names {
            products: [
                named(b"rice".as_slice())?,
                named(b"salt.50".as_slice())?,
                named(b"Oil_10000-ml_Oil_10000-ml_Oil_10".as_slice())?,
                named(b"-nobody".as_slice())?,
            ],
            batches: [
                named(b"A".as_slice())?,
                named(b"2".as_slice())?,
                named(b"C-3".as_slice())?,
                named(b"d.4".as_slice())?,
                named(b"E_5".as_slice())?,
                named(b"a".as_slice())?,
                named(b"G7G7G7G7G7G7G7G7G7G7G7G7G7G7G7G7".as_slice())?,
                named(b"_rice".as_slice())?,
            ],
        })
    }
}

// Two of ten are out of range.
const LANES: [u8; 10] = [1, 1, 1, 2, 2, 2, 3, 3, 0, 17];

const PRIORS: [Prior; 4] = [Prior::Nothing, Prior::Opened, Prior::Stayed, Prior::Unknown];

const UNITS: [Unit; 2] = [Unit::Mass, Unit::Volume];

const MODES: [Mode; 3] = [Mode::Destroy, Mode::Keep, Mode::Keep];

/// In mg or microlitres, in each row of the table of errors. The last two are out of range.
pub const NOMINALS: [i64; 12] = [
    5_000, 50_000, 50_001, 123_456, 250_000, 250_000, 333_333, 750_000, 1_234_567, 10_000_000,
    4_999, 10_000_001,
];

// In mg.
const TARES: [i64; 8] = [10_000, 10_000, 10_001, 9_000, 0, 5_000_000, -1, 5_000_001];

// In mg.
const GROSSES: [i64; 8] = [
    0, 30_000_000, 30_000_001, -1, 260_000, 251_000, 242_000, 62_000,
];

// In mg a litre.
const DENSITIES: [u32; 6] = [0, 0, 500_000, 2_000_000, 499_999, 2_000_001];

// The last two aren't numbers of desks.
const DESKS: [u16; 6] = [0, 0, 101, 164, 100, 165];

// Days from the one round which days are drawn.
const SHIFTS: [i32; 12] = [0, 0, 0, 0, 0, 0, -1, -1, 1, 1, -2, 2];

// Days out of range.
const NO_DAYS: [i32; 2] = [-1, 2_932_897];

// How many numbers may be drawn: those of 31 bits.
const NUMBERS: u64 = 2_147_483_648;

/// What is drawn from next: a word of the generator of Knuth's MMIX, a day round which days are
/// drawn, and what is meant for the batch that comes next.
#[derive(Drop)]
pub struct Draws {
    pub names: Names,
    pub word: u64,
    pub day: i32,
    /// The place of the batch among the names.
    pub place: usize,
    /// How many weighings the first batch gets.
    pub many: u32,
    /// How many weighings of the batch are still to be asked for.
    pub left: u32,
    /// Whether its packs lie round the limits.
    pub rough: bool,
    /// How many packs of its first sample are to be defective.
    pub low: u32,
    /// How many of its second.
    pub second_low: u32,
    /// How the others are filled: amply, round the nominal quantity or little.
    pub filling: usize,
}

impl Draws {
    /// The draws by a word, from 2025-03-02 on, with so many weighings for the first batch.
    pub fn begin(word: u64, many: u32, names: &Names) -> Draws {
        Draws {
            names: *names,
            word,
            day: 20_149,
            place: 0,
            many,
            left: 0,
            rough: false,
            low: 0,
            second_low: 0,
            filling: 0,
        }
    }

    /// The next drawn number, of 31 bits.
    pub fn number(&mut self) -> u64 {
        self.word = self
            .word
            .wrapping_mul(6_364_136_223_846_793_005)
            .wrapping_add(1_442_695_040_888_963_407);
        self.word >> 33
    }

    /// A number below `count`.
    pub fn below(&mut self, count: usize) -> usize
        requires { 0 < count }
        ensures { result < count }
    {
        self.number() as usize % count
    }

    /// A quantity from 0 on and below `count`.
    pub fn quantity(&mut self, count: i64) -> i64 {
        let number = (self.number() % NUMBERS) as i64;
        if count < 1 { 0 } else { number % count }
    }

    /// Whether one of so many comes up.
    pub fn one_of(&mut self, count: usize) -> bool
        requires { 0 < count }
    {
        self.below(count) == 0
    }

    pub fn unit(&mut self) -> Unit {
        UNITS[self.below(2)]
    }

    pub fn mode(&mut self) -> Mode {
        MODES[self.below(3)]
    }

    fn batch(&mut self) -> Name {
        self.names.batches[self.below(8)]
    }

    // A day up to two days from the one round which days are drawn, or one out of range.
    fn drawn_day(&mut self) -> i32 {
        if self.one_of(7) {
            NO_DAYS[self.below(2)]
        } else {
            self.day.saturating_add(SHIFTS[self.below(12)])
        }
    }

    /// A number round those of the rows of a list.
    pub fn row(&mut self, entries: &[Entry]) -> u32 {
        let count = entries.len().saturating_add(2);
        u32::try_from(self.below(count)).unwrap_or(0)
    }

    /// What is said of the gate of a lane: most times as it should be.
    pub fn prior(&mut self, entries: &[Entry], lane: u8) -> Prior {
        if self.one_of(16) {
            PRIORS[self.below(4)]
        } else if unsettled_of(entries, lane).is_some() {
            Prior::Opened
        } else {
            Prior::Nothing
        }
    }

    // Any act of the office on the day, products, tares and batches.
    fn any_setup(&mut self) -> Act {
        let name = self.names.products[self.below(4)];
        let day = self.drawn_day();
        match self.below(4) {
            0 => Act::NewDay { day },
            1 => Act::PutProduct {
                name,
                nominal: NOMINALS[self.below(12)],
                unit: self.unit(),
            },
            2 => Act::PutTare {
                product: name,
                day,
                tare: TARES[self.below(8)],
            },
            _ => Act::OpenBatch {
                batch: self.batch(),
                product: name,
                density: DENSITIES[self.below(6)],
            },
        }
    }

    // Any act of a lane.
    fn any_of_lane(&mut self, entries: &[Entry]) -> Act {
        let lane = LANES[self.below(10)];
        let prior = self.prior(entries, lane);
        match self.below(3) {
            0 => Act::StartLane {
                lane,
                batch: self.batch(),
            },
            1 => Act::Weigh {
                lane,
                gross: GROSSES[self.below(8)],
                prior,
            },
            _ => Act::StopLane { lane, prior },
        }
    }

    // Any act of the test of a batch.
    fn any_of_test(&mut self, entries: &[Entry]) -> Act {
        let batch = self.batch();
        let pack = self.row(entries);
        let word = self.number();
        match self.below(6) {
            0 => Act::Void { pack },
            1 => Act::EndRun { batch },
            2 => Act::Draw {
                batch,
                mode: self.mode(),
                word,
            },
            3 => Act::Measure {
                pack,
                gross: GROSSES[self.below(8)],
                empty: TARES[self.below(8)],
            },
            4 => Act::DrawSecond { batch, word },
            _ => Act::Close { batch },
        }
    }

    /// Any act.
    pub fn any_act(&mut self, entries: &[Entry]) -> Act {
        match self.below(3) {
            0 => self.any_setup(),
            1 => self.any_of_lane(entries),
            _ => self.any_of_test(entries),
        }
    }

    /// Any question, which nobody's desk asks.
    pub fn any_question(&mut self, entries: &[Entry]) -> Ask {
        let batch = self.batch();
        let question = match self.below(8) {
            0 => Question::Sheet { batch },
            1 => Question::Pack {
                pack: self.row(entries),
            },
            2 => Question::Lane {
                lane: LANES[self.below(10)],
            },
            3 => Question::Sample { batch },
            4 => Question::Summary,
            5 => Question::Rows {
                after: self.row(entries),
            },
            6 => Question::Shipment {
                after: self.row(entries),
            },
            _ => Question::Packs {
                batch,
                after: self.row(entries),
            },
        };
        Ask {
            desk: 0,
            request: 0,
            want: Want::Question(question),
        }
    }

    /// An act of any desk, with a request round that of its newest one.
    pub fn by_any_desk(&mut self, entries: &[Entry], act: Act) -> Ask {
        let desk = DESKS[self.below(6)];
        let last = last_request(entries, desk);
        Ask {
            desk,
            request: match self.below(6) {
                0 => 0,
                1 => last,
                2 => last.saturating_sub(1),
                3 => last.saturating_add(2),
                _ => last.saturating_add(1),
            },
            want: Want::Act(act),
        }
    }

    /// An act as it should be asked: by a desk with its next request, where it isn't a lane's, and
    /// half of the others by none.
    pub fn by_good_desk(&mut self, entries: &[Entry], act: Act) -> Ask {
        let drawn = DESKS[2 + self.below(2)];
        let desk = if is_lane_act(&act) || self.one_of(2) {
            0
        } else {
            drawn
        };
        let next = last_request(entries, desk).saturating_add(1);
        Ask {
            desk,
            request: if desk == 0 { 0 } else { next },
            want: Want::Act(act),
        }
    }

    /// The newest act of a desk once more; one that nobody asked for where there is none.
    pub fn once_more(&mut self, entries: &[Entry]) -> Ask {
        let desk = DESKS[2 + self.below(2)];
        let (request, act) = match newest_of_desk(entries, desk) {
            Some(row) => (row.entry.request, row.entry.act),
            None => (1, Act::Void { pack: 1 }),
        };
        Ask {
            desk,
            request,
            want: Want::Act(act),
        }
    }
}

// The newest request of a desk, 0 where it has none.
fn last_request(entries: &[Entry], desk: u16) -> u32 {
    match newest_of_desk(entries, desk) {
        Some(row) => row.entry.request,
        None => 0,
    }
}

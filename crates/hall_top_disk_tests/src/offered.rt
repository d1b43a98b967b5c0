use book_words::{Act, Entry, Name, Prior, Unit};
use memory_hall::{MARCH_3, rice_acts};
use pack_judge::Signal;

/// How many rows there are before the lane and the door are at work.
pub const FRONT_ROWS: usize = 6;

/// How many rows there are in all, where nothing fails.
pub const ALL_ROWS: usize = 13;

/// What is offered to the book: the rows before the lane and the door are at work, and the acts of
/// either in their order.
#[derive(Drop)]
pub struct Offered {
    pub front: [Entry; FRONT_ROWS],
    pub lane: [Entry; 4],
    pub desk: [Entry; 3],
}

fn entry_by(by: u16, act: Act) -> Entry {
    Entry {
        by,
        desk: 0,
        request: 0,
        act,
        signal: None,
    }
}

// A product of this name; an act of no row where it is none.
fn product(name: &[u8]) -> Act {
    match Name::new(name) {
        Some(name) => Act::PutProduct {
            name,
            nominal: 250_000,
            unit: Unit::Mass,
        },
        None => Act::NewDay { day: 0 },
    }
}

// The request of the desk that door 1 brings; its number is the first behind those of the lanes.
fn by_desk(request: u32, name: &[u8]) -> Entry {
    Entry {
        by: 17,
        desk: 101,
        request,
        act: product(name),
        signal: None,
    }
}

fn stop(prior: Prior) -> Entry {
    entry_by(1, Act::StopLane { lane: 1, prior })
}

// A pack that lane 1 weighs, and lets pass.
fn weighed() -> Entry {
    let act = Act::Weigh {
        lane: 1,
        gross: 260_000,
        prior: Prior::Nothing,
    };
    Entry {
        signal: Some(Signal::Pass),
        ..entry_by(1, act)
    }
}

// What lane 1 asks: it is found with a batch, to which nothing is to be said of the gate.
fn by_lane(start: Act) -> [Entry; 4] {
    [
        stop(Prior::Nothing),
        entry_by(1, start),
        weighed(),
        stop(Prior::Opened),
    ]
}

// What is offered where the batch of rice is opened and started by these acts.
fn offered_behind(acts: [Act; 5]) -> Offered {
    let [day, rice, tare, open, start] = acts;
    Offered {
        front: [
            entry_by(0, day),
            entry_by(0, rice),
            entry_by(0, tare),
            entry_by(0, open),
            entry_by(0, start),
            entry_by(0, Act::NewDay { day: MARCH_3 + 1 }),
        ],
        lane: by_lane(start),
        desk: [by_desk(1, b"b"), by_desk(2, b"c"), by_desk(3, b"d")],
    }
}

// Whether the entry at a place is this row.
fn is_at(entries: &[Entry], place: usize, row: &Entry) -> bool {
    match entries.get(place) {
        Some(entry) => entry == row,
        None => false,
    }
}

// Whether the row at a place is an act of the desk that a script asked.
fn is_asked_at(rows: &[Entry], place: usize, act: &Entry) -> bool {
    is_at(rows, place, &Entry { by: 0, ..*act })
}

impl Offered {
    /// What is offered, written down by hand.
    pub fn new() -> Option<Offered> {
        match rice_acts() {
            Some(acts) => Some(offered_behind(acts)),
            None => None,
        }
    }

    /// Whether rows are the first of those before the work, or all of them with the first acts of
    /// the lane and the first acts of the desk behind them, one among the other.
    pub fn allows(&self, rows: &[Entry]) -> bool {
        let (front, rest) = rows.split_at(rows.len().min(FRONT_ROWS));
        let (mut lane, mut desk) = (0usize, 0usize);
        for row in rest {
            if is_at(&self.lane, lane, row) {
                lane = lane.saturating_add(1);
            } else if is_at(&self.desk, desk, row) {
                desk = desk.saturating_add(1);
            }
        }
        lane.saturating_add(desk) == rest.len() && self.front.starts_with(front)
    }

    /// Whether rows are those of the acts of the desk that are missing among others, asked by a
    /// script.
    pub fn are_missing(&self, rows: &[Entry], others: &[Entry]) -> bool {
        let (mut missing, mut found) = (0usize, 0usize);
        for act in &self.desk {
            if number_of(others, act).is_none() {
                if is_asked_at(rows, missing, act) {
                    found = found.saturating_add(1);
                }
                missing = missing.saturating_add(1);
            }
        }
        (missing, found) == (rows.len(), rows.len())
    }
}

/// The number of the first row that is this one.
pub fn number_of(rows: &[Entry], wanted: &Entry) -> Option<usize> {
    let mut number = 0usize;
    for row in rows {
        number = number.saturating_add(1);
        if row == wanted {
            return Some(number);
        }
    }
    None
}

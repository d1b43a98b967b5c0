//! What each caller does, by formulas that count along, and the entries that it is to leave.
use book_words::{Act, Entry, Name, Prior, Unit};
use hall_limits::MAX_LANE;
use pack_judge::{Cause, Signal};

/// How many packs each lane weighs.
pub const PACKS: u32 = 1_000;

/// How many acts the desk of each door sends.
pub const REQUESTS: u32 = 1_000;

/// How many rows the setup of sixteen lanes leaves: a day, a product, a tare, and a batch a lane.
pub const SETUP_ROWS: usize = 19;

// The place of the act behind all packs of a lane.
const STOP: u32 = PACKS + 1;

// From the number that the first door's rows bear, 17, to its desk, 101, and so on for the others.
const TO_DESK: u16 = 84;

// Whether this pack of a lane, from 1, is one of the light ones: each tenth.
fn is_light(lane: u8, pack: u32) -> bool {
    pack.saturating_add(u32::from(lane)) % 10 == 0
}

/// The gross of a pack of a lane, in mg; each comes once. Of 250 g with 10 g of tare a pack is
/// standard from 251 g on, and inadequate below 242 g.
pub fn gross(lane: u8, pack: u32) -> i64 {
    let least: i64 = if is_light(lane, pack) {
        200_000
    } else {
        251_000
    };
    least.saturating_add(i64::from(pack) * 16 + i64::from(lane))
}

// What the act behind this pack says of the gate.
fn prior(lane: u8, pack: u32) -> Prior {
    if pack == 0 || is_light(lane, pack) {
        Prior::Nothing
    } else {
        Prior::Opened
    }
}

// The act of a lane behind so many others of its own.
fn lane_act(lane: u8, place: u32) -> Option<Act> {
    let batch = Name::new(&[b'@'.saturating_add(lane)])?;
    let prior = prior(lane, place.saturating_sub(1));
    match place {
        0 => Some(Act::StartLane { lane, batch }),
        1..=PACKS => Some(Act::Weigh {
            lane,
            gross: gross(lane, place),
            prior,
        }),
        STOP => Some(Act::StopLane { lane, prior }),
        _ => None,
    }
}

// The signal of that act.
fn lane_signal(lane: u8, place: u32) -> Option<Signal> {
    if place == 0 || place > PACKS {
        None
    } else if is_light(lane, place) {
        Some(Signal::Reject(Cause::Inadequate))
    } else {
        Some(Signal::Pass)
    }
}

fn digit(number: u32) -> u8 {
    b'0' + (number % 10) as u8
}

/// The name of the product that a desk makes by a request.
pub fn product_of(desk: u16, request: u32) -> [u8; 8] {
    let desk = u32::from(desk);
    [
        b'p',
        digit(desk / 100),
        digit(desk / 10),
        digit(desk),
        digit(request / 1_000),
        digit(request / 100),
        digit(request / 10),
        digit(request),
    ]
}

/// The act of a desk by a request.
pub fn desk_act(desk: u16, request: u32) -> Option<Act> {
    let name = Name::new(&product_of(desk, request))?;
    Some(Act::PutProduct {
        name,
        nominal: 250_000,
        unit: Unit::Mass,
    })
}

// The entry of a lane behind so many others of its own.
fn lane_entry(lane: u8, place: u32) -> Option<Entry> {
    Some(Entry {
        by: u16::from(lane),
        desk: 0,
        request: 0,
        act: lane_act(lane, place)?,
        signal: lane_signal(lane, place),
    })
}

// The entry of a door, which bears this number, behind so many others of its own.
fn door_entry(by: u16, place: u32) -> Option<Entry> {
    if place >= REQUESTS {
        return None;
    }
    let desk = by.saturating_add(TO_DESK);
    let request = place + 1;
    Some(Entry {
        by,
        desk,
        request,
        act: desk_act(desk, request)?,
        signal: None,
    })
}

/// The entry that the lane or the door with this number leaves behind so many others of its own, if
/// it is to leave one more.
pub fn entry_of(by: u16, place: u32) -> Option<Entry> {
    if by <= u16::from(MAX_LANE) {
        lane_entry(by as u8, place)
    } else {
        door_entry(by, place)
    }
}

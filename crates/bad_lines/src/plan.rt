use std::alloc::Global;
use std::fmt;
use toml::de::Error;
use toml::{Table, Value};

/// A plan that is read has at most so many bytes.
const MAX_PLAN: usize = 65_536;

/// The numbers of lanes, and for how many rows room is made at most.
const MAX_LANE: i64 = 16;

const MAX_RESERVE: i64 = 1_000_000;

/// The most bytes of a name.
const MAX_NAME: usize = 32;

/// What a plan is told to be.
#[derive(Drop)]
pub(crate) enum PlanFault {
    /// It has more bytes than a plan.
    Long,
    /// It isn't for as many lanes as there are.
    Lanes { planned: usize, wanted: u8 },
    /// The value of a key of the document isn't as it has to be.
    Value(&'static str),
    /// That of a key of a table of `lane` isn't, by the table's place from 1.
    Lane(usize, &'static str),
    /// A text that TOML doesn't read, from this line on.
    NoToml(usize, Error),
    /// No text.
    NoText,
    /// Nothing else is known.
    Other,
}

/// What is wrong with a plan that should be for so many lanes.
pub(crate) fn plan_fault(alloc: Global, plan: &[u8], wanted: u8) -> PlanFault {
    if plan.len() > MAX_PLAN {
        return PlanFault::Long;
    }
    let Ok(text) = str::from_utf8(plan) else {
        return PlanFault::NoText;
    };
    match toml::table_from_str(alloc, text) {
        Ok(table) => fault_of(&table, wanted),
        Err(error) => PlanFault::NoToml(line_of(plan, &error), error),
    }
}

// What is wrong with the table of a plan.
fn fault_of(plan: &Table, wanted: u8) -> PlanFault {
    if !is_text(plan.get("setup")) {
        return PlanFault::Value("setup isn't a text");
    }
    if !is_reserve(plan.get("reserve")) {
        return PlanFault::Value("reserve isn't a number from 0 to 1000000");
    }
    match plan.get("lane") {
        None => fault_of_lanes(&[], wanted),
        Some(lanes) => match lanes.as_array() {
            Some(lanes) => fault_of_lanes(lanes, wanted),
            None => PlanFault::Value("lane isn't an array of tables: [[lane]]"),
        },
    }
}

// What is wrong with the lanes of a plan.
fn fault_of_lanes(lanes: &[Value], wanted: u8) -> PlanFault {
    for (place, lane) in lanes.iter().enumerate() {
        if let Some(why) = fault_of_lane(lane) {
            return PlanFault::Lane(place.saturating_add(1), why);
        }
        if has_number_of(lanes.get(..place).unwrap_or(&[]), lane) {
            return PlanFault::Lane(place.saturating_add(1), "its number was there before");
        }
    }
    if lanes.len() == usize::from(wanted) {
        return PlanFault::Other;
    }
    PlanFault::Lanes {
        planned: lanes.len(),
        wanted,
    }
}

// Whether one of some lanes has the number of a lane.
fn has_number_of(lanes: &[Value], lane: &Value) -> bool {
    let number = number_of(lane);
    lanes.iter().any(|other| number_of(other) == number)
}

// The number of a lane.
fn number_of(lane: &Value) -> Option<i64> {
    lane.get("number")?.as_integer()
}

// What is wrong with a lane.
fn fault_of_lane(lane: &Value) -> Option<&'static str> {
    match number_of(lane) {
        Some(number) if 1 <= number && number <= MAX_LANE => {
            fault_of_batch(lane.get("batch"), lane.get("changes"))
        }
        _ => Some("its number isn't 1 to 16"),
    }
}

// What is wrong with the batch of a lane, which it has or changes.
fn fault_of_batch(batch: Option<&Value>, changes: Option<&Value>) -> Option<&'static str> {
    match (batch, changes) {
        (Some(batch), None) => fault_of_name(batch),
        (None, Some(changes)) if changes.as_bool() == Some(true) => None,
        (None, Some(_)) => Some("its changes isn't true"),
        (Some(_), Some(_)) => Some("it has both batch and changes"),
        (None, None) => Some("it has no batch, nor changes = true"),
    }
}

// What is wrong with the name of a batch.
fn fault_of_name(batch: &Value) -> Option<&'static str> {
    match batch.as_str() {
        Some(name) if !name.is_empty() && name.len() <= MAX_NAME => None,
        _ => Some("its batch isn't a name of 1 to 32 bytes"),
    }
}

// Whether there is no value, or a text.
fn is_text(value: Option<&Value>) -> bool {
    match value {
        Some(value) => value.as_str().is_some(),
        None => true,
    }
}

// Whether there is no value, or a number of rows to make room for.
fn is_reserve(value: Option<&Value>) -> bool {
    let Some(value) = value else {
        return true;
    };
    match value.as_integer() {
        Some(rows) => 0 <= rows && rows <= MAX_RESERVE,
        None => false,
    }
}

// The line where an error of TOML stands, from 1.
fn line_of(plan: &[u8], error: &Error) -> usize {
    let place = error.span().map_or(0, |span| span.start);
    let before = plan.iter().take(place);
    before
        .filter(|byte| **byte == b'\n')
        .count()
        .saturating_add(1)
}

/// The table of a plan.
pub(crate) fn table_of(alloc: Global, plan: &[u8]) -> Option<Table> {
    toml::table_from_str(alloc, str::from_utf8(plan).ok()?).ok()
}

/// A line of the setup of a plan, by its number from 1.
pub(crate) fn setup_line(plan: &Table, number: u64) -> Option<&[u8]> {
    let setup = plan.get("setup").and_then(Value::as_str)?;
    let mut lines = setup.as_bytes().split(|byte| *byte == b'\n');
    lines.nth(number.checked_sub(1)? as usize)
}

impl fmt::Display for PlanFault {
    fn fmt<W: fmt::Write>(&self, f: &mut fmt::Formatter<W>) -> fmt::Result {
        match self {
            PlanFault::Long => f.write_str("bad plan: it has more than 65536 bytes"),
            PlanFault::Lanes { planned: 1, wanted } => {
                write!(f, "plan has 1 lane, --lanes {wanted}")
            }
            PlanFault::Lanes { planned, wanted } => {
                write!(f, "plan has {planned} lanes, --lanes {wanted}")
            }
            PlanFault::Value(why) => write!(f, "bad plan: {why}"),
            PlanFault::Lane(place, why) => write!(f, "bad plan: [[lane]] {place}: {why}"),
            PlanFault::NoToml(line, error) => {
                write!(
                    f,
                    "bad plan: its line {line} isn't TOML: {}",
                    error.message()
                )
            }
            PlanFault::NoText => f.write_str("bad plan: it isn't a text in UTF-8"),
            PlanFault::Other => f.write_str("bad plan: a value is out of its range"),
        }
    }
}

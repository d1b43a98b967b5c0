use command_line::Wants;
use job_reports::{door_text, lane_text};
use lane_worker::LaneEnd;
use office_door::DoorEnd;
use std::fmt;

// Behind so many words of its line a lane says why no more was weighed, and a door why no more were
// served.
const WORDS_OF_LANE: usize = 4;

const WORDS_OF_DOOR: usize = 6;

/// Why a lane weighed no more, in the words of its line. It is written into an empty list; where there
/// is no memory for it, it is empty.
pub(crate) fn lane_stop<'a>(end: &LaneEnd, text: &'a mut Vec<u8>) -> &'a str {
    match lane_text(0, end, text) {
        Ok(()) => behind(text, WORDS_OF_LANE),
        Err(_) => "",
    }
}

/// Why a door served no more, in the words of its line. It is written into an empty list.
pub(crate) fn door_stop<'a>(end: &DoorEnd, text: &'a mut Vec<u8>) -> &'a str {
    match door_text(0, end, text) {
        Ok(()) => behind(text, WORDS_OF_DOOR),
        Err(_) => "",
    }
}

// What stands in a line behind so many words.
fn behind(line: &[u8], words: usize) -> &str {
    let line = str::from_utf8(line).unwrap_or("").trim_end();
    line.splitn(words.saturating_add(1), ' ')
        .last()
        .unwrap_or("")
}

/// The doors that words ask for, with their ports.
#[derive(Clone, Copy)]
pub(crate) struct Doors {
    count: u8,
    first: u16,
}

impl Doors {
    /// The doors that words ask for.
    pub fn new(wanted: &Wants) -> Self {
        Doors {
            count: wanted.doors,
            first: wanted.port,
        }
    }
}

impl fmt::Display for Doors {
    fn fmt<W: fmt::Write>(&self, f: &mut fmt::Formatter<W>) -> fmt::Result {
        let first = self.first;
        match self.count {
            0 => f.write_str("doors 0"),
            1 => write!(f, "doors 1 at port {first}"),
            count => {
                let last = first.saturating_add(u16::from(count).saturating_sub(1));
                write!(f, "doors {count} at ports {first} to {last}")
            }
        }
    }
}

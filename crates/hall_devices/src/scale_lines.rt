//! What standard error is told of the lines of a scale at a port: that a number comes again with
//! something else, as where two scales send to one port, and that a line is ahead.
use std::io::Eprint;

/// The most bytes of a line, and its LF.
const ROOM: usize = 65;

/// So many lines of a port are told at most.
const MAX_TOLD: u32 = 20;

// No bytes.
const NOTHING: &[u8] = &[];

/// The bytes of a line that has begun or was taken.
#[derive(Clone, Copy)]
struct Line {
    bytes: [u8; ROOM],
    count: usize,
}

impl Line {
    // No bytes.
    const EMPTY: Line = Line {
        bytes: [0; ROOM],
        count: 0,
    };

    // The bytes.
    fn as_bytes(&self) -> &[u8] {
        self.bytes.get(..self.count).unwrap_or(NOTHING)
    }

    // One byte more, where there is room.
    fn push(&mut self, byte: u8) {
        if let Some(place) = self.bytes.get_mut(self.count) {
            *place = byte;
            self.count = self.count.saturating_add(1);
        }
    }

    // The number that the line begins with, where a space follows.
    fn number(&self) -> Option<u64> {
        let bytes = self.as_bytes();
        let place = bytes.iter().position(|byte| *byte == b' ')?;
        str::from_utf8(bytes.get(..place)?).ok()?.parse().ok()
    }
}

/// The lines of a scale, as their bytes come.
#[derive(Drop)]
pub(crate) struct ScaleLines {
    port: u16,
    begun: Line,
    // The line that was taken last, by its number.
    taken: u64,
    newest: Line,
    told: u32,
    is_ahead: bool,
}

impl ScaleLines {
    /// Before the first byte that comes to this port.
    pub fn new(port: u16) -> Self {
        ScaleLines {
            port,
            begun: Line::EMPTY,
            taken: 0,
            newest: Line::EMPTY,
            told: 0,
            is_ahead: false,
        }
    }

    /// A connection begins: a line that had begun is none.
    pub fn begin(&mut self) {
        self.begun = Line::EMPTY;
    }

    /// Hears some bytes.
    pub fn hear<E: Eprint>(&mut self, errors: &E, bytes: &[u8]) {
        for byte in bytes {
            if *byte == b'\n' {
                self.end_line(errors);
                self.begun = Line::EMPTY;
            } else {
                self.begun.push(*byte);
            }
        }
    }

    // A line has ended.
    fn end_line<E: Eprint>(&mut self, errors: &E) {
        let Some(number) = self.begun.number() else {
            return;
        };
        let next = self.taken.saturating_add(1);
        if number == next {
            self.taken = number;
            self.newest = self.begun;
            self.is_ahead = false;
        } else if number > next {
            self.tell_ahead(errors, number, next);
        } else if number == self.taken && self.begun.as_bytes() != self.newest.as_bytes() {
            self.tell_other(errors, number);
        }
    }

    // Tells that a line is passed over, since it is ahead; once until one is taken.
    fn tell_ahead<E: Eprint>(&mut self, errors: &E, number: u64, next: u64) {
        if !self.is_ahead && self.may_tell() {
            let port = self.port;
            let _ = eprintln!(errors;
                "hall: port {port}: the scale says number {number}, and {next} is the next one"
            );
        }
        self.is_ahead = true;
    }

    // Tells that a number comes again with something else.
    fn tell_other<E: Eprint>(&mut self, errors: &E, number: u64) {
        if self.may_tell() {
            let port = self.port;
            let _ = eprintln!(errors;
                "hall: port {port}: number {number} comes again with another weight: do two scales \
                 send to it?"
            );
        }
    }

    // Whether one line more is told.
    fn may_tell(&mut self) -> bool {
        self.told = self.told.saturating_add(1);
        self.told <= MAX_TOLD
    }
}

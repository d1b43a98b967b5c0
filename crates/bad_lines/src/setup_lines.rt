/// How many bytes of a line are looked at: its first word lies within.
const LINE_ROOM: usize = 64;

// No bytes.
const NOTHING: &[u8] = &[];

// The first words of acts.
const ACTS: [&[u8]; 13] = [
    b"day", b"product", b"tare", b"open", b"start", b"weigh", b"stop", b"void", b"end", b"draw",
    b"measure", b"second", b"close",
];

/// Where in a plan a line stands.
#[derive(Clone, Copy, PartialEq, Eq)]
enum Stage {
    /// Before the text of the setup.
    Before,
    /// Within it.
    Within,
    /// Behind it, or behind the line that was named.
    Behind,
}

/// The lines of a setup that is a text over several lines, as they come byte by byte.
#[derive(Drop)]
pub(crate) struct SetupLines {
    line: [u8; LINE_ROOM],
    count: usize,
    stage: Stage,
    number: u32,
}

impl SetupLines {
    /// Before the first byte.
    pub fn new() -> Self {
        SetupLines {
            line: [0; LINE_ROOM],
            count: 0,
            stage: Stage::Before,
            number: 0,
        }
    }

    /// Hears the next byte. Tells the number of the first line that is an act without a desk, when
    /// that ends.
    pub fn hear(&mut self, byte: u8) -> Option<u32> {
        if byte == b'\n' {
            let found = self.end_line();
            self.count = 0;
            return found;
        }
        if let Some(place) = self.line.get_mut(self.count) {
            *place = byte;
            self.count = self.count.saturating_add(1);
        }
        None
    }

    // The line has ended.
    fn end_line(&mut self) -> Option<u32> {
        let line = without_blanks(self.line.get(..self.count).unwrap_or(NOTHING));
        match self.stage {
            Stage::Before if line.starts_with(b"setup") && has_quotes(line) => {
                self.stage = Stage::Within;
            }
            Stage::Within if is_act(line) => {
                self.stage = Stage::Behind;
                return Some(self.number.saturating_add(1));
            }
            Stage::Within if has_quotes(line) => self.stage = Stage::Behind,
            Stage::Within => self.number = self.number.saturating_add(1),
            Stage::Before | Stage::Behind => {}
        }
        None
    }
}

// A line without the blanks that it begins with.
fn without_blanks(line: &[u8]) -> &[u8] {
    let begin = line.iter().position(|byte| *byte != b' ' && *byte != b'\t');
    match begin {
        Some(begin) => line.get(begin..).unwrap_or(NOTHING),
        None => NOTHING,
    }
}

// Whether a line begins or ends a text over several lines.
fn has_quotes(line: &[u8]) -> bool {
    line.windows(3).any(|three| three == b"\"\"\"".as_slice() || three == b"'''".as_slice())
}

// Whether a line is an act that has no desk.
fn is_act(line: &[u8]) -> bool {
    ACTS.iter().any(|act| line.starts_with(act))
}

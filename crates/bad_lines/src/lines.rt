use command_line::Input;
use std::alloc::Global;

/// The lines of an input that are kept.
#[derive(Drop)]
pub(crate) struct Lines {
    kind: Input,
    kept: Vec<u8>,
    // How many ended before what is kept.
    ended: u64,
}

impl Lines {
    /// Before the first byte.
    pub fn new(alloc: Global, kind: Input) -> Self {
        Lines {
            kind,
            kept: Vec::new(alloc),
            ended: 0,
        }
    }

    /// What the input is made of.
    pub fn kind(&self) -> Input {
        self.kind
    }

    /// What is kept.
    pub fn bytes(&self) -> &[u8] {
        &self.kept
    }

    /// Keeps bytes that were read, behind the line that they go on. Where there is no memory, nothing
    /// more is kept.
    pub fn keep(&mut self, bytes: &[u8]) {
        if self.kind == Input::Script && !bytes.is_empty() {
            self.let_go();
        }
        if self.has_lines() && self.kept.extend_from_slice(bytes).is_err() {
            self.kind = Input::Other;
        }
    }

    // Whether lines are kept of it.
    fn has_lines(&self) -> bool {
        !matches!(self.kind, Input::Shipments | Input::Other)
    }

    // Lets the lines go that have ended.
    fn let_go(&mut self) {
        let ended = self.kept.iter().filter(|byte| **byte == b'\n').count();
        self.ended = self.ended.saturating_add(ended as u64);
        let bytes = self.kept.iter().rev();
        let begun = bytes.take_while(|byte| **byte != b'\n').count();
        let from = self.kept.len().saturating_sub(begun);
        self.kept.copy_within(from.., 0);
        self.kept.truncate(begun);
    }

    /// A line, by its number from 1.
    pub fn line(&self, number: u64) -> Option<&[u8]> {
        if !self.has_lines() {
            return None;
        }
        let before = number.checked_sub(1)?.checked_sub(self.ended)?;
        let counts_empty = self.kind != Input::Table;
        self.kept
            .split(|byte| *byte == b'\n')
            .filter(|line| counts_empty || !is_empty(line))
            .nth(before as usize)
    }
}

// Whether a line of a table is empty.
fn is_empty(line: &[u8]) -> bool {
    line.is_empty() || line == b"\r".as_slice()
}

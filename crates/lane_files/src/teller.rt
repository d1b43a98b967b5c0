use crate::reason::{Shown, reason};
use std::io::Eprint;

// How many bad lines of a cell are told.
const MAX_TOLD: u32 = 20;

/// Who tells on standard error what came of a cell.
#[derive(Drop)]
pub(crate) struct Teller<E: Eprint + Drop> {
    errors: E,
    name: String,
    // How many lines were bad, and the number of the last of them.
    bad: u32,
    newest: u32,
    has_ended: bool,
}

impl<E: Eprint + Drop> Teller<E> {
    /// Who has told nothing yet of the cell of this name.
    pub fn new(errors: E, name: String) -> Self {
        Teller {
            errors,
            name,
            bad: 0,
            newest: 0,
            has_ended: false,
        }
    }

    /// Tells once that the cell has ended.
    pub fn tell_end(&mut self) {
        if !self.has_ended {
            self.has_ended = true;
            let _ = eprintln!(self.errors; "hall: {} has ended", self.name);
        }
    }

    /// Tells once that a line isn't a weight, and why, where it can be shown; of more than 20 lines
    /// only that there are more.
    pub fn tell_bad(&mut self, number: u32, line: Option<&[u8]>) {
        if number == self.newest {
            return;
        }
        self.newest = number;
        self.bad = self.bad.saturating_add(1);
        if self.bad <= MAX_TOLD {
            self.say_bad(number, line);
        } else if self.bad == MAX_TOLD + 1 {
            let _ = eprintln!(self.errors;
                "hall: {}: more bad lines, which aren't told",
                self.name
            );
        }
    }

    // Says that a line isn't a weight.
    fn say_bad(&self, number: u32, line: Option<&[u8]>) {
        let _ = match line {
            Some(line) => eprintln!(self.errors;
                "hall: {}: bad line {number}, {}: {}",
                self.name,
                Shown(line),
                reason(line)
            ),
            None => eprintln!(self.errors; "hall: {}: bad line {number}", self.name),
        };
    }
}

use crate::setup_lines::SetupLines;
use std::io;
use std::io::{Eprint, Read};
use std::marker::Model;

/// The input of a plan, or of something else, which isn't looked at. It gives what the input gives.
#[derive(Drop)]
pub struct WatchedPlan<R: Read + Drop, P: Eprint + Drop> {
    input: R,
    errors: P,
    is_plan: bool,
    lines: SetupLines,
}

impl<R: Read + Drop, P: Eprint + Drop> Model for WatchedPlan<R, P> {
    ghost Value = { R };

    ghost view = { λ plan. plan.input };
}

impl<R: Read + Drop, P: Eprint + Drop> WatchedPlan<R, P> {
    ghost use Rattle.std.specs.Prelude.{◌≡◌};

    /// Nothing of it was read yet. What is to be told goes to this standard error.
    pub fn new(input: R, errors: P, is_plan: bool) -> Self
        ensures { result ≡ input }
    {
        WatchedPlan {
            input,
            errors,
            is_plan,
            lines: SetupLines::new(),
        }
    }
}

// Looks at bytes that were read, and names the first act without a desk.
fn look<P: Eprint>(lines: &mut SetupLines, errors: &P, bytes: &[u8]) {
    for byte in bytes {
        if let Some(number) = lines.hear(*byte) {
            let _ = eprintln!(errors;
                "hall: line {number} of the setup has no desk, and acts at each start (@164 1 ..)"
            );
        }
    }
}

impl<R: Read + Drop, P: Eprint + Drop> Read for WatchedPlan<R, P> {
    ghost remaining = { R.remaining };

    fn read(&mut self, buf: &mut [u8]) -> io::Result<usize> {
        let count = self.input.read(buf)?;
        if self.is_plan {
            let bytes = buf.get(..count).unwrap_or(&[]);
            look(&mut self.lines, &self.errors, bytes);
        }
        Ok(count)
    }
}

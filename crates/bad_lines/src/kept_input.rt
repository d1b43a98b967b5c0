use crate::lines::Lines;
use crate::shipments::{ShipmentReason, Shipments};
use command_line::Input;
use std::alloc::Global;
use std::io;
use std::io::Read;
use std::marker::Model;

/// An input that keeps what was read last: of a script the newest piece and the line that it goes on,
/// of a table or a plan everything; of shipments where they stand. It gives what the input gives.
#[derive(Drop)]
pub struct KeptInput<R: Read + Drop> {
    input: R,
    lines: Lines,
    shipments: Shipments,
}

impl<R: Read + Drop> Model for KeptInput<R> {
    ghost Value = { R };

    ghost view = { λ kept. kept.input };
}

impl<R: Read + Drop> KeptInput<R> {
    ghost use Rattle.std.specs.Prelude.{◌≡◌};

    /// Nothing of it was read yet.
    pub fn new(alloc: Global, input: R, kind: Input) -> Self
        ensures { result ≡ input }
    {
        KeptInput {
            input,
            lines: Lines::new(alloc, kind),
            shipments: Shipments::new(),
        }
    }

    /// What the input is made of.
    pub fn kind(&self) -> Input {
        self.lines.kind()
    }

    /// What is kept of it.
    pub fn bytes(&self) -> &[u8] {
        self.lines.bytes()
    }

    /// A line, by its number from 1, or a record of a table, where empty lines don't count: its bytes
    /// without the LF, if they are kept.
    pub fn line(&self, number: u64) -> Option<&[u8]> {
        self.lines.line(number)
    }

    /// Why shipments are bad at the line of this number.
    pub(crate) fn shipment_reason(&self, number: u64) -> ShipmentReason {
        self.shipments.reason(number)
    }
}

// Keeps bytes that were read.
fn keep(lines: &mut Lines, shipments: &mut Shipments, bytes: &[u8]) {
    match lines.kind() {
        Input::Shipments => shipments.keep(bytes),
        _ => lines.keep(bytes),
    }
}

impl<R: Read + Drop> Read for KeptInput<R> {
    ghost remaining = { R.remaining };

    fn read(&mut self, buf: &mut [u8]) -> io::Result<usize> {
        let count = self.input.read(buf)?;
        let bytes = buf.get(..count).unwrap_or(&[]);
        keep(&mut self.lines, &mut self.shipments, bytes);
        Ok(count)
    }
}

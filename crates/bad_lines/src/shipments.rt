//! What is known of the shipments that came, so that it can be said why one isn't followed.
use std::fmt;

// How many bytes the head of a shipment has.
const HEAD_BYTES: usize = 16;

// How many bytes a row has.
const ROW_BYTES: u64 = 96;

/// Where an input of shipments stands.
#[derive(Clone, Copy)]
pub(crate) struct Shipments {
    // How many shipments were begun.
    begun: u64,
    // The newest head, and how many bytes of it came.
    head: [u8; HEAD_BYTES],
    filled: usize,
    // Of the newest head that came whole: how many rows the book has, and how many were passed over.
    all: u64,
    passed: u64,
    // How many bytes of its rows are to come.
    left: u64,
}

/// Why a shipment isn't followed, as far as its own bytes tell.
#[derive(Clone, Copy, PartialEq, Eq)]
enum Fault {
    Nothing,
    CutHead(usize),
    Head,
    Gap(u64),
    Cut,
    Row,
    Extra(u64),
}

impl Shipments {
    /// Before the first byte.
    pub fn new() -> Self {
        Shipments {
            begun: 0,
            head: [0; HEAD_BYTES],
            filled: HEAD_BYTES,
            all: 0,
            passed: 0,
            left: 0,
        }
    }

    /// Goes on by bytes that were read.
    pub fn keep(&mut self, bytes: &[u8]) {
        for byte in bytes {
            match self.left {
                0 => self.keep_in_head(*byte),
                left => self.left = left.saturating_sub(1),
            }
        }
    }

    // Goes on by a byte of a head.
    fn keep_in_head(&mut self, byte: u8) {
        if self.filled >= HEAD_BYTES {
            self.filled = 0;
            self.begun = self.begun.saturating_add(1);
        }
        if let Some(place) = self.head.get_mut(self.filled) {
            *place = byte;
        }
        self.filled = self.filled.saturating_add(1);
        if self.filled == HEAD_BYTES {
            self.read_head();
        }
    }

    // Reads a head that came whole: eight bytes of its name, and two numbers.
    fn read_head(&mut self) {
        let [_, _, _, _, _, _, _, _, a, b, c, d, e, f, g, h] = self.head;
        self.all = u64::from(u32::from_le_bytes([a, b, c, d]));
        self.passed = u64::from(u32::from_le_bytes([e, f, g, h]));
        let rows = self.all.saturating_sub(self.passed);
        self.left = rows.saturating_mul(ROW_BYTES);
    }

    // Why it is bad at a line.
    fn fault(&self, number: u64) -> Fault {
        if number == 0 {
            return self.head_fault();
        }
        if self.filled < HEAD_BYTES {
            return Fault::Extra(self.all);
        }
        if number <= self.passed {
            return Fault::Gap(self.passed);
        }
        let came = self.all.saturating_sub(self.left.div_ceil(ROW_BYTES));
        if came < number {
            Fault::Cut
        } else {
            Fault::Row
        }
    }

    // Why it has no head.
    fn head_fault(&self) -> Fault {
        match self.filled {
            _ if self.begun == 0 => Fault::Nothing,
            HEAD_BYTES => Fault::Head,
            filled => Fault::CutHead(filled),
        }
    }

    /// Why the line of this number is bad.
    pub fn reason(&self, number: u64) -> ShipmentReason {
        let fault = self.fault(number);
        let is_extra = matches!(fault, Fault::Extra(_));
        ShipmentReason {
            shipment: self.begun.saturating_sub(u64::from(is_extra)),
            fault,
        }
    }
}

/// Why a shipment isn't followed, and which one it is.
#[derive(Clone, Copy)]
pub(crate) struct ShipmentReason {
    shipment: u64,
    fault: Fault,
}

impl fmt::Display for ShipmentReason {
    fn fmt<W: fmt::Write>(&self, f: &mut fmt::Formatter<W>) -> fmt::Result {
        match self.fault {
            Fault::Nothing => return f.write_str("nothing came, and no shipment is empty"),
            _ => write!(f, "shipment {}: ", self.shipment)?,
        }
        match self.fault {
            Fault::Nothing => Ok(()),
            Fault::CutHead(count) => write!(f, "it is cut: {count} bytes of its head came, of 16"),
            Fault::Head => f.write_str("it doesn't begin with the head of a shipment"),
            Fault::Gap(passed) => write!(
                f,
                "it begins after row {passed}, and the book lacks this row"
            ),
            Fault::Cut => f.write_str("it is cut in this row"),
            Fault::Row => f.write_str(
                "this row isn't the book's, or can't stand after the rows before",
            ),
            Fault::Extra(all) => write!(f, "bytes follow its last row, {all}"),
        }
    }
}

use crate::words::{Broken, Piece, Row, from_desk, from_script, named, put, row_of, weighed};
use annex_tables::Mode;
use book_words::{Act, Entry, Name, Prior, Unit};
use pack_judge::{Cause, Signal};
use row_format::{RowFault, read_row, write_row};
use std::fmt;
use std::test::Fail;

// A first sample of a batch, whose packs are destroyed.
fn draw(batch: Name) -> Act {
    Act::Draw {
        batch,
        mode: Mode::Destroy,
        word: 0x0102_0304_0506_0708,
    }
}

// A batch of a product, at 916 grams a litre.
fn opening(batch: Name, product: Name) -> Act {
    Act::OpenBatch {
        batch,
        product,
        density: 916_000,
    }
}

// A product by volume.
fn product(name: Name) -> Act {
    Act::PutProduct {
        name,
        nominal: 750_000,
        unit: Unit::Volume,
    }
}

// A tare of a product.
fn tare(product: Name) -> Act {
    Act::PutTare {
        product,
        day: 20_150,
        tare: 31_250,
    }
}

// The measurement of a pack.
const MEASURED: Act = Act::Measure {
    pack: 6,
    gross: 251_000,
    empty: 31_250,
};

// The stop of a lane whose gate stayed shut.
const STOPPED: Act = Act::StopLane {
    lane: 3,
    prior: Prior::Stayed,
};

fn entries() -> Result<[Entry; 14], fmt::Error> {
    let oil = named(b"oil")?;
    let batch = named(b"B")?;
    let cans = named(b"O-2025-03-03_oil.of.1-litre-cans")?;
    let allowance = Signal::Reject(Cause::Allowance);
    let word = 0xFFFF_0000_0000_0001;
    Ok([
        from_script(Act::NewDay { day: 20_150 }),
        from_desk(product(oil)),
        from_desk(tare(oil)),
        from_script(opening(cans, oil)),
        from_desk(Act::EndRun { batch }),
        from_script(Act::Close { batch }),
        from_script(Act::StartLane { lane: 16, batch }),
        weighed(1, 251_000, Prior::Nothing, Signal::Pass),
        weighed(2, 30_000_000, Prior::Unknown, allowance),
        from_script(STOPPED),
        from_desk(Act::Void { pack: 70_000 }),
        from_script(draw(batch)),
        from_script(MEASURED),
        from_script(Act::DrawSecond { batch, word }),
    ])
}

// The same entries in bytes.
const ROWS: [Row; 14] = [
    (1, &[(0, b"\x01\x01\x01"), (14, b"\xb6\x4e")]),
    (
        2,
        &[
            (0, b"\x01\x02\x02\0\0\0\x02\0\x65\0\x07\0\0\0\x03oil"),
            (47, b"\xb0\x71\x0b"),
            (55, b"\x01"),
        ],
    ),
    (
        3,
        &[
            (0, b"\x01\x03\x03\0\0\0\x02\0\x65\0\x07\0\0\0\x03oil"),
            (47, b"\xb6\x4e\0\0\x12\x7a"),
        ],
    ),
    (
        4,
        &[
            (0, b"\x01\x04\x04"),
            (14, b"\x20O-2025-03-03_oil.of.1-litre-cans\x03oil"),
            (80, b"\x20\xfa\x0d"),
        ],
    ),
    (
        300,
        &[(0, b"\x01\x09\x2c\x01\0\0\x02\0\x65\0\x07\0\0\0\x01B")],
    ),
    (1_000_000, &[(0, b"\x01\x0d\x40\x42\x0f"), (14, b"\x01B")]),
    (5, &[(0, b"\x01\x05\x05"), (14, b"\x10\x01B")]),
    (6, &[(0, b"\x01\x06\x06"), (14, b"\x01\x78\xd4\x03")]),
    (
        7,
        &[(0, b"\x01\x06\x07"), (14, b"\x02\x80\xc3\xc9\x01\x03\x04")],
    ),
    (8, &[(0, b"\x01\x07\x08"), (14, b"\x03\x02")]),
    (
        9,
        &[(0, b"\x01\x08\x09\0\0\0\x02\0\x65\0\x07\0\0\0\x70\x11\x01")],
    ),
    (
        10,
        &[
            (0, b"\x01\x0a\x0a"),
            (14, b"\x01B"),
            (47, b"\x02\x08\x07\x06\x05\x04\x03\x02\x01"),
        ],
    ),
    (
        11,
        &[
            (0, b"\x01\x0b\x0b"),
            (14, b"\x06\0\0\0\x78\xd4\x03\0\x12\x7a"),
        ],
    ),
    (
        12,
        &[
            (0, b"\x01\x0c\x0c"),
            (14, b"\x01B"),
            (47, b"\x01\0\0\0\0\0\xff\xff"),
        ],
    ),
];

// Each entry is spelled by these bytes and no others, both ways.
#[test]
fn rows_of_entries(rt: HostRuntime) -> Result<(), Fail> {
    for (entry, (number, pieces)) in entries()?.iter().zip(&ROWS) {
        let row = row_of(pieces);
        let read = read_row(&row, *number);
        assert!(rt; read == Ok(*entry), "row {number}");
        if let Ok(read) = read {
            assert!(rt; write_row(&read, *number) == row, "row {number}");
        }
    }
    Ok(())
}

// A new day, the end of a run, and a weighing at the greatest gross.
const DAY: &[Piece] = &[(0, b"\x01\x01\x01\0\0\0\0\0\0\0\0\0\0\0\xb6\x4e")];

const END: &[Piece] = &[(0, b"\x01\x09\x01\0\0\0\0\0\0\0\0\0\0\0\x01B")];

const WEIGHING: &[Piece] = &[(0, b"\x01\x06\x01\0\0\0\0\0\0\0\0\0\0\0\x01\x80\xc3\xc9\x01")];

// All of them are read as row 1.
const FAULTS: [Broken; 20] = [
    (DAY, 0, 0, 0),
    (DAY, 1, 0, 1),
    (DAY, 1, 14, 1),
    (DAY, 2, 2, 2),
    (DAY, 5, 1, 5),
    (DAY, 16, 0x2d, 16),
    (DAY, 17, 1, 17),
    (DAY, 18, 1, 18),
    (DAY, 95, 1, 95),
    (END, 14, 0, 14),
    (END, 14, 33, 14),
    (END, 16, b'2', 16),
    (END, 46, 1, 46),
    (END, 47, 1, 47),
    (WEIGHING, 14, 0, 14),
    (WEIGHING, 14, 17, 14),
    (WEIGHING, 15, 0x81, 18),
    (WEIGHING, 19, 4, 19),
    (WEIGHING, 20, 5, 20),
    (WEIGHING, 95, 1, 95),
];

#[test]
fn broken_rows_have_their_first_fault(rt: HostRuntime) {
    for (pieces, place, byte, fault) in &FAULTS {
        let mut row = row_of(pieces);
        put(&mut row, *place, &[*byte]);
        let wanted = Err(RowFault { place: *fault });
        assert!(rt; read_row(&row, 1) == wanted, "{byte} at {place}");
    }
}

// What a user reads of a row that spells nothing: at which place its first wrong byte stands.
const TEXTS: [(usize, &str); 3] = [
    (0, "the byte at place 0 is wrong"),
    (14, "the byte at place 14 is wrong"),
    (95, "the byte at place 95 is wrong"),
];

#[test]
fn a_fault_names_its_place(rt: HostRuntime) -> Result<(), Fail> {
    for (place, wanted) in &TEXTS {
        let text = format!(in rt.alloc(); "{}", RowFault { place: *place })?;
        assert!(rt; text.as_str() == *wanted);
    }
    Ok(())
}

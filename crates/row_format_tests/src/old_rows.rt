use crate::words::{Broken, Piece, Row, from_desk, from_script, named, put, row_of, weighed};
use annex_tables::Mode;
use book_words::{Act, Entry, Prior, Unit};
use pack_judge::{Cause, Signal};
use row_format::{OLD_ROW_BYTES, RowFault, read_old_row};
use std::fmt;
use std::test::Fail;

fn entries() -> Result<[Entry; 7], fmt::Error> {
    let oil = named(b"oil")?;
    let batch = named(b"B")?;
    let allowance = Signal::Reject(Cause::Allowance);
    Ok([
        from_desk(Act::PutProduct {
            name: oil,
            nominal: 750_000,
            unit: Unit::Volume,
        }),
        from_desk(Act::PutTare {
            product: oil,
            day: 20_150,
            tare: 31_250,
        }),
        from_script(Act::OpenBatch {
            batch: named(b"O-2025-03-03_oil")?,
            product: oil,
            density: 916_000,
        }),
        weighed(2, 30_000_000, Prior::Unknown, allowance),
        from_desk(Act::Draw {
            batch,
            mode: Mode::Destroy,
            word: 0x0102_0304_0506_0708,
        }),
        from_desk(Act::Measure {
            pack: 6,
            gross: 251_000,
            empty: 31_250,
        }),
        from_script(Act::DrawSecond {
            batch,
            word: 0xFFFF_0000_0000_0001,
        }),
    ])
}

// Names have at most 16 bytes, so that what stands behind them is 16 or 32 places earlier.
const ROWS: [Row; 7] = [
    (
        2,
        &[
            (0, b"\x01\x02\x02\0\0\0\x02\0\x65\0\x07\0\0\0\x03oil"),
            (31, b"\xb0\x71\x0b"),
            (39, b"\x01"),
        ],
    ),
    (
        3,
        &[
            (0, b"\x01\x03\x03\0\0\0\x02\0\x65\0\x07\0\0\0\x03oil"),
            (31, b"\xb6\x4e\0\0\x12\x7a"),
        ],
    ),
    (
        4,
        &[
            (0, b"\x01\x04\x04"),
            (14, b"\x10O-2025-03-03_oil\x03oil"),
            (48, b"\x20\xfa\x0d"),
        ],
    ),
    (
        7,
        &[(0, b"\x01\x06\x07"), (14, b"\x02\x80\xc3\xc9\x01\x03\x04")],
    ),
    (
        10,
        &[
            (0, b"\x01\x0a\x0a\0\0\0\x02\0\x65\0\x07\0\0\0\x01B"),
            (31, b"\x02\x08\x07\x06\x05\x04\x03\x02\x01"),
        ],
    ),
    (
        300,
        &[
            (0, b"\x01\x0b\x2c\x01\0\0\x02\0\x65\0\x07\0\0\0"),
            (14, b"\x06\0\0\0\x78\xd4\x03\0\x12\x7a"),
        ],
    ),
    (
        1_000_000,
        &[
            (0, b"\x01\x0c\x40\x42\x0f"),
            (14, b"\x01B"),
            (31, b"\x01\0\0\0\0\0\xff\xff"),
        ],
    ),
];

#[test]
fn rows_of_version_1(rt: HostRuntime) -> Result<(), Fail> {
    for (entry, (number, pieces)) in entries()?.iter().zip(&ROWS) {
        let mut row = [0; OLD_ROW_BYTES];
        put(&mut row, 0, &row_of(pieces));
        assert!(rt; read_old_row(&row, *number) == Ok(*entry), "row {number}");
    }
    Ok(())
}

// A product by volume, and a batch with a density of 916 grams a litre.
const PRODUCT: &[Piece] = &[
    (0, b"\x01\x02\x02"),
    (14, b"\x03oil"),
    (31, b"\xb0\x71\x0b"),
    (39, b"\x01"),
];

const BATCH: &[Piece] = &[
    (0, b"\x01\x04\x02"),
    (14, b"\x01B"),
    (31, b"\x03oil"),
    (48, b"\x20\xfa\x0d"),
];

// All of them are read as row 2.
const FAULTS: [Broken; 9] = [
    (PRODUCT, 2, 3, 2),
    (PRODUCT, 14, 17, 14),
    (PRODUCT, 30, 1, 30),
    (PRODUCT, 38, 1, 38),
    (PRODUCT, 39, 2, 39),
    (PRODUCT, 63, 1, 63),
    (BATCH, 47, b'x', 47),
    (BATCH, 51, 1, 51),
    (BATCH, 52, 1, 52),
];

#[test]
fn broken_rows_of_version_1_have_their_first_fault(rt: HostRuntime) {
    for (pieces, place, byte, fault) in &FAULTS {
        let mut row = [0; OLD_ROW_BYTES];
        put(&mut row, 0, &row_of(pieces));
        put(&mut row, *place, &[*byte]);
        let wanted = Err(RowFault { place: *fault });
        assert!(rt; read_old_row(&row, 2) == wanted, "{byte} at {place}");
    }
}

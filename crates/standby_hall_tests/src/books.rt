use book_words::{Act, Entry, Prior};
use memory_hall::rice_acts;
use pack_judge::Signal;
use std::fmt;

/// How many rows the worked book has.
pub(crate) const ROWS: u32 = 5;

/// Its shipment after three rows, byte by byte: a head of 16 bytes, the batch A of the product
/// rice250, its start on lane 1.
pub(crate) fn after_three() -> [u8; 208] {
    let mut bytes = [0; 208];
    bytes[..8].copy_from_slice(b"AQHSHIP2");
    bytes[8] = 5;
    bytes[12] = 3;
    bytes[16..19].copy_from_slice(&[1, 4, 4]);
    bytes[30..32].copy_from_slice(&[1, b'A']);
    bytes[63] = 7;
    bytes[64..71].copy_from_slice(b"rice250");
    bytes[112..115].copy_from_slice(&[1, 5, 5]);
    bytes[126..129].copy_from_slice(&[1, 1, b'A']);
    bytes
}

fn by_hall(act: Act) -> Entry {
    Entry {
        by: 0,
        desk: 0,
        request: 0,
        act,
        signal: None,
    }
}

/// A weighing on lane 1 of a pack that passes.
pub(crate) fn weighed(gross: i64, prior: Prior) -> Entry {
    let lane = 1;
    Entry {
        signal: Some(Signal::Pass),
        ..by_hall(Act::Weigh { lane, gross, prior })
    }
}

/// The entries of the worked book, and a pack of 251 g behind them.
pub(crate) fn worked() -> Result<[Entry; 6], fmt::Error> {
    let [day, product, tare, open, start] = rice_acts().ok_or(fmt::Error)?;
    Ok([
        by_hall(day),
        by_hall(product),
        by_hall(tare),
        by_hall(open),
        by_hall(start),
        weighed(251_000, Prior::Nothing),
    ])
}

//! What was measured of drawn packs.

use crate::packs::{Bounds, is_below, net_of, pack_of};
use annex_tables::Mode;
use book_words::{Act, Entry};

/// What was measured of a pack, in mg.
#[derive(Clone, Copy)]
pub struct Measured {
    pub gross: i64,
    /// The mass of the empty pack.
    pub empty: i64,
}

/// What was measured of a pack, where it was.
pub fn measured_of(entries: &[Entry], number: u64) -> Option<Measured> {
    for entry in entries {
        if let Act::Measure { pack, gross, empty } = entry.act {
            if u64::from(pack) == number {
                return Some(Measured { gross, empty });
            }
        }
    }
    None
}

/// The first of some packs that wasn't measured.
pub fn first_unmeasured(entries: &[Entry], packs: &[u64]) -> Option<u32> {
    for pack in packs {
        if measured_of(entries, *pack).is_none() {
            return u32::try_from(*pack).ok();
        }
    }
    None
}

/// How many of some packs were measured.
pub fn measured_count(entries: &[Entry], packs: &[u64]) -> u32 {
    let mut count: u32 = 0;
    for pack in packs {
        if measured_of(entries, *pack).is_some() {
            count = count.saturating_add(1);
        }
    }
    count
}

/// The actual contents of a pack in mg, where it was measured: by its tare where packs are kept, by
/// the empty pack where they are destroyed.
pub fn contents_of(entries: &[Entry], mode: Mode, number: u64) -> Option<i64> {
    let measured = measured_of(entries, number)?;
    let pack = pack_of(entries, u32::try_from(number).ok()?)?;
    match mode {
        Mode::Keep => Some(net_of(entries, &pack, measured.gross)),
        Mode::Destroy => Some(measured.gross.wrapping_sub(measured.empty)),
    }
}

/// How many of some packs were measured with contents below one error under the nominal quantity.
pub fn defective_count(entries: &[Entry], bounds: &Bounds, mode: Mode, packs: &[u64]) -> u32 {
    let mut count: u32 = 0;
    for pack in packs {
        if let Some(contents) = contents_of(entries, mode, *pack) {
            if is_below(bounds, bounds.t1, contents) {
                count = count.saturating_add(1);
            }
        }
    }
    count
}

use book_mount::mount;
use book_store::OneCaller;
use book_words::{Act, Name, Prior, Unit};
use disk_core::QuietDisk;
use memory_hall::{MARCH_3, enter, enter_acts, rice_acts};
use std::alloc::Global;

// The room of a disk, in bytes.
const DISK_ROOM: usize = 1_000_000;

/// How many packs the long book has.
pub(crate) const MANY: u32 = 1_500;

/// A book over a disk in memory.
pub(crate) type Hall = OneCaller<QuietDisk>;

/// The books that are printed.
#[derive(Clone, Copy)]
pub(crate) enum Worked {
    /// A batch of rice without packs.
    Opened,
    /// A pack that is inadequate by a corrected tare and taken back, one that is held, and one.
    Corrected,
    /// Goods by volume with a pack, and a batch of rice that was opened behind it.
    Two,
    /// A batch of rice with many packs.
    Long,
}

// Puts the tare of the bags.
fn put_tare(hall: &mut Hall, tare: i64) -> Option<()> {
    let product = Name::new(b"rice250".as_slice())?;
    let put = Act::PutTare {
        product,
        day: MARCH_3,
        tare,
    };
    enter(hall, put)
}

// Opens a batch of juice in bottles of 30 g, weighs a bottle, and opens one of rice.
fn open_two(hall: &mut Hall) -> Option<()> {
    let juice = Name::new(b"juice".as_slice())?;
    let batch = Name::new(b"J".as_slice())?;
    let acts = [
        Act::PutProduct {
            name: juice,
            nominal: 1_000_000,
            unit: Unit::Volume,
        },
        Act::PutTare {
            product: juice,
            day: MARCH_3,
            tare: 30_000,
        },
        Act::OpenBatch {
            batch,
            product: juice,
            density: 1_040_500,
        },
        Act::StartLane { lane: 1, batch },
    ];
    enter_acts(hall, &acts)?;
    weigh(hall, 1_074_100, Prior::Nothing)?;
    let [_, product, tare, open, _] = rice_acts()?;
    enter_acts(hall, &[product, tare, open])
}

// Weighs a pack on lane 1.
fn weigh(hall: &mut Hall, gross: i64, prior: Prior) -> Option<()> {
    let weigh = Act::Weigh {
        lane: 1,
        gross,
        prior,
    };
    enter(hall, weigh)
}

// Weighs a pack that a corrected tare makes inadequate and takes it back; between the two another
// is held.
fn correct(hall: &mut Hall) -> Option<()> {
    weigh(hall, 243_000, Prior::Nothing)?;
    put_tare(hall, 12_000)?;
    weigh(hall, 260_000, Prior::Opened)?;
    enter(hall, Act::Void { pack: 6 })?;
    weigh(hall, 260_000, Prior::Nothing)
}

// Weighs many packs.
fn weigh_many(hall: &mut Hall) -> Option<()> {
    weigh(hall, 260_000, Prior::Nothing)?;
    for _pack in 1..MANY {
        weigh(hall, 260_000, Prior::Opened)?;
    }
    Some(())
}

// Enters what the book has.
fn fill(hall: &mut Hall, worked: Worked) -> Option<()> {
    let rice = rice_acts()?;
    let first = if matches!(worked, Worked::Two) { 1 } else { 5 };
    enter_acts(hall, rice.get(..first).unwrap_or(&[]))?;
    match worked {
        Worked::Opened => Some(()),
        Worked::Corrected => correct(hall),
        Worked::Two => open_two(hall),
        Worked::Long => weigh_many(hall),
    }
}

/// The book, entered anew.
pub(crate) fn enter_book(alloc: Global, worked: Worked) -> Option<Hall> {
    let disk = QuietDisk::new(Vec::with_capacity(alloc, DISK_ROOM).ok()?);
    let Ok(store) = mount(alloc, disk, 1_000_000) else {
        return None;
    };
    let mut hall = OneCaller::new(store, 0);
    fill(&mut hall, worked)?;
    Some(hall)
}

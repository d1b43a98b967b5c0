use crate::devices::disk_of;
use book_mount::mount;
use book_store::OneCaller;
use book_words::{Act, Ask, Caller, Name, Unit, Want};
use disk_core::MemoryDisk;
use std::alloc::Global;

/// The day 2025-03-03, counted from 1970-01-01.
pub const MARCH_3: i32 = 20_150;

/// A caller of a book over a disk in memory.
pub type MemoryCaller = OneCaller<MemoryDisk>;

/// The acts that open batch A of rice and start it on lane 1. A gross of 251 g or more is a good
/// pack of 250 g in a package of 10 g, and one of less than 242 g is inadequate.
pub fn rice_acts() -> Option<[Act; 5]> {
    let rice = Name::new(b"rice250".as_slice())?;
    let batch = Name::new(b"A".as_slice())?;
    Some([
        Act::NewDay { day: MARCH_3 },
        Act::PutProduct {
            name: rice,
            nominal: 250_000,
            unit: Unit::Mass,
        },
        Act::PutTare {
            product: rice,
            day: MARCH_3,
            tare: 10_000,
        },
        Act::OpenBatch {
            batch,
            product: rice,
            density: 0,
        },
        Act::StartLane { lane: 1, batch },
    ])
}

/// Asks for an act as a script does; nothing where it isn't accepted.
pub fn enter<C: Caller>(caller: &mut C, act: Act) -> Option<()> {
    let ask = Ask {
        desk: 0,
        request: 0,
        want: Want::Act(act),
    };
    caller.ask(&ask).ok()?;
    Some(())
}

/// Asks for acts, one after another, up to the first that isn't accepted.
pub fn enter_acts<C: Caller>(caller: &mut C, acts: &[Act]) -> Option<()> {
    for act in acts {
        enter(caller, *act)?;
    }
    Some(())
}

/// A book with so many of the rows of `rice_acts`, on a disk of which these calls fail: mounting
/// makes four, and each row four. The caller with this number speaks.
pub fn open_book(alloc: Global, fails: &[u32], rows: usize, by: u16) -> Option<MemoryCaller> {
    let acts = rice_acts()?;
    let Ok(store) = mount(alloc, disk_of(alloc, &[], fails), 1_000_000) else {
        return None;
    };
    let mut caller = OneCaller::new(store, 0);
    let _ = enter_acts(&mut caller, acts.get(..rows).unwrap_or(&[]));
    caller.turn(by);
    Some(caller)
}

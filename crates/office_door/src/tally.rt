ghost use Rattle.std.specs.Prelude.{◌≡◌};
ghost use Rattle.office_door.specs.Steps.{end_of};

use crate::ending::{DoorEnd, DoorStop};

/// What a door has served so far: how many requests it took, and how many connections a fault of
/// the link ended.
#[derive(Clone, Copy, PartialEq, Eq)]
pub(crate) struct Tally {
    pub served: u32,
    pub links: u32,
}

/// The end of a door with this tally.
pub(crate) fn end_of(tally: &Tally, stop: DoorStop) -> DoorEnd
    ensures { result ≡ end_of tally.now stop }
{
    DoorEnd {
        served: tally.served,
        links: tally.links,
        stop,
    }
}

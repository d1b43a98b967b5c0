ghost use Rattle.std.specs.Prelude.{◌≡◌};
ghost use Rattle.office_door.specs.Doors.{links_of};
ghost use Rattle.office_door.specs.Steps.{left_behind};

use disk_core::Partly;

/// Why a connection is left.
#[derive(Clone, Copy, PartialEq, Eq)]
pub enum Leaving {
    /// Its end was given, and no request begins before it.
    End,
    /// A response ended it.
    Last,
    /// Its link failed at a read.
    ReadFailed,
    /// Its link failed at a write.
    WriteFailed,
}

/// How many faults of the link it tells.
pub(crate) fn links_of(leaving: Leaving) -> u32
    ensures { result ≡ links_of leaving }
{
    match leaving {
        Leaving::End | Leaving::Last => 0,
        Leaving::ReadFailed | Leaving::WriteFailed => 1,
    }
}

/// Why a connection is left behind a response that was sent so, if it is; `last` says that the
/// response ended it.
pub(crate) fn left_behind(last: bool, sent: &Result<(), Partly>) -> Option<Leaving>
    ensures { result ≡ left_behind last sent.now }
{
    match sent {
        Ok(()) if last => Some(Leaving::Last),
        Ok(()) => None,
        Err(_) => Some(Leaving::WriteFailed),
    }
}

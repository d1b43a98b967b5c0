//! Laws of a caller that has its store for itself, each the clause of a call that does nothing.
ghost use Rattle.shared_book.specs.Alone.{KeepsLawful, LeavesSince};

use disk_core::Disk;

/// What such a caller's `later` says of a crash: at a moment since its first state, that state's own
/// time among them, it leaves rows of the caller's and perhaps one entry more. Where what hung at first
/// was lawful, each such entry is, and what hangs behind the asks.
pub fn caller_law<D: Disk>()
    ensures since { LeavesSince D.Disk }
    ensures lawful { KeepsLawful D.Disk }
{}

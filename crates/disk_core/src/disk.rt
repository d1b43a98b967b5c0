ghost use Rattle.std.specs.Prelude.{◌≡◌, ℕ, ◌+◌, ◌-◌, ◌<◌, ◌≤◌, min, List, length, take, drop, Option, IfOk, OnOk};
ghost use Rattle.device_facts.specs.Count.{CountsFault};
ghost use Rattle.device_facts.specs.Known.{TellsAsBefore};
ghost use Rattle.disk_core.specs.Disk.{WhereTold, Only, AddsNoImage, Elapses, Writes};

use crate::disk_types::DISK_END;
use crate::types::Failed;

/// A disk: bytes from place 0 to its length, which may grow by writes and never falls. Between two
/// syncs a crash may leave any bytes in each written range and past the end that was there; the
/// bytes outside stay. A write that answers Failed counts as a write of its range. After a sync
/// that answers Failed a crash leaves what it might have left before.
///
/// What a disk reads, its images and its moments are claimed where it tells what it reads. One that
/// tells goes on telling, and one that doesn't never begins to.
pub trait Disk {
    /// What it reads, where it tells.
    ghost reads: { Self → Option (List ℕ) };

    /// Its images: what a crash now may leave.
    ghost image: { Self → List ℕ → Type 0 };

    /// The time: a number that never falls.
    ghost time: { Self → ℕ };

    /// Its moments: what a crash at some moment since that time may have left, inside a call or
    /// between two.
    ghost since: { Self → ℕ → List ℕ → Type 0 };

    /// How often it failed, up to the greatest number of 64 bits.
    ghost faults: { Self → ℕ };

    /// For how many bytes it was asked, by the lengths of the buffers.
    ghost asked: { Self → ℕ };

    /// Answers its length in bytes.
    fn len(&mut self) -> Result<u64, Failed>
        ensures length { WhereTold (reads self.old) (λ bytes. IfOk result (λ count.
            count ≡ length bytes)) }
        ensures reads { reads self.new ≡ reads self.old }
        ensures images { AddsNoImage (image self.old) (image self.new) }
        ensures time { Elapses (time self.old) (time self.new)
            (since self.old) (since self.new) (image self.new) }
        ensures cause { CountsFault (faults self.old) (faults self.new) result }
        ensures asked { asked self.new ≡ asked self.old };

    /// Reads the bytes from a place on into the beginning of a buffer, as many as there are and as
    /// it has room for, and answers how many they are.
    fn read_at(&mut self, place: u64, into: &mut [u8]) -> Result<usize, Failed>
        ensures bound { IfOk result (λ count. count ≤ length into.new) }
        ensures count { WhereTold (reads self.old) (λ bytes. IfOk result (λ count.
            count ≡ min (length into.new) (length bytes - place))) }
        ensures bytes { WhereTold (reads self.old) (λ bytes. IfOk result (λ count.
            take count into.new ≡ take count (drop place bytes))) }
        ensures reads { reads self.new ≡ reads self.old }
        ensures images { AddsNoImage (image self.old) (image self.new) }
        ensures time { Elapses (time self.old) (time self.new)
            (since self.old) (since self.new) (image self.new) }
        ensures cause { CountsFault (faults self.old) (faults self.new) result }
        ensures asked_more { asked self.old ≤ asked self.new }
        ensures asked_most { asked self.new ≤ asked self.old + length into.new };

    /// Writes bytes over what is there from a place on, and past the end.
    fn write_at(&mut self, place: u64, bytes: &[u8]) -> Result<(), Failed>
        requires within { WhereTold (reads self.old) (λ there. place ≤ length there) }
        requires end { place + length bytes.now < DISK_END }
        ensures writes { WhereTold (reads self.old) (λ there.
            Writes place bytes.now result there (reads self.new)
            (image self.old) (image self.new)) }
        ensures tells { TellsAsBefore (reads self.old) (reads self.new) }
        ensures time { Elapses (time self.old) (time self.new)
            (since self.old) (since self.new) (image self.new) }
        ensures cause { CountsFault (faults self.old) (faults self.new) result }
        ensures asked { asked self.new ≡ asked self.old };

    /// Makes all that was written stable: after an Ok a crash leaves what the disk reads.
    fn sync(&mut self) -> Result<(), Failed>
        ensures stable { WhereTold (reads self.old) (λ bytes.
            OnOk result (Only bytes (image self.new))) }
        ensures reads { reads self.new ≡ reads self.old }
        ensures images { AddsNoImage (image self.old) (image self.new) }
        ensures time { Elapses (time self.old) (time self.new)
            (since self.old) (since self.new) (image self.new) }
        ensures cause { CountsFault (faults self.old) (faults self.new) result }
        ensures asked { asked self.new ≡ asked self.old };

    /// A disk as it reads is one of its images.
    ghost reads_image: { (disk : Self) → WhereTold (reads disk) (image disk) };

    /// This moment is one of those since an earlier time.
    ghost counts_now: { (disk : Self) (t : ℕ) (c : List ℕ)
        → t ≤ time disk → image disk c → since disk t c };

    /// Since this time there is no moment but this one.
    ghost only_now: { (disk : Self) (c : List ℕ) → since disk (time disk) c → image disk c };
}

use crate::store::Store;
use book_core::Step;
use book_words::{Answered, Ask, AskError, Want};
use disk_core::Disk;

impl<D: Disk> Store<D> {
    ghost use Rattle.std.specs.Prelude.{◌≡◌, ◌⊎◌, ◌+◌, ◌≤◌, Err, None, IsSome, IfErr, OnOk, length};
    ghost use Rattle.device_facts.specs.Known.{TellsAsBefore};
    ghost use Rattle.book_words.specs.declared.caller.AskError.TheVariants as error;
    ghost use Rattle.book_words.specs.Answers.{answer, added, IsLegal};
    ghost use Rattle.book_store.specs.Stores.{disk_of, book_of, entries_of, limit_of, spare_of, held_of, Hangs, ImagesHoldBook, IsSound};
    ghost use Rattle.book_store.specs.Offers.{Offers, LeavesDisk, GivesAnswer, list_behind, CountsDiskFault};

    /// Answers an ask of the caller `by` as the book does. An act that is new and accepted is
    /// written down and stable before it is in the book; from then on each crash leaves it. A
    /// question, a repeat and a refused act touch no disk.
    ///
    /// After `DiskFault` and after `NoMemory` the book is as it was, and after the latter the disk
    /// too. After `DiskFault` a crash may leave the entry that was offered or not; the next act
    /// that is written down settles that first.
    pub fn ask(&mut self, by: u16, ask: &Ask) -> Result<Answered, AskError>
        requires sound { IsSound D.Disk self.old }
        ensures answer { GivesAnswer (book_of self.old) by ask.now
            (added (limit_of self.old) (entries_of self.old) by ask.now) result
            (answer (limit_of self.old) (entries_of self.old) ask.now) }
        ensures entries { entries_of self.new ≡ list_behind result (entries_of self.old)
            (added (limit_of self.old) (entries_of self.old) by ask.now) }
        ensures legal { IsLegal (entries_of self.new) }

        // What a crash leaves, during the call and after it.
        ensures offers { Offers D.Disk (added (limit_of self.old) (entries_of self.old) by ask.now)
            self.old self.new }
        ensures images { ImagesHoldBook D.Disk self.new }
        ensures no_memory { result ≡ Err error.NoMemory → LeavesDisk D.Disk self.old self.new }
        ensures hangs { Hangs self.new → (result ≡ Err error.DiskFault) ⊎ Hangs self.old }
        ensures settled { IsSome (added (limit_of self.old) (entries_of self.old) by ask.now) →
            OnOk result (¬ Hangs self.new) }

        ensures limit { limit_of self.new ≡ limit_of self.old }
        ensures held { held_of self.new ≡ held_of self.old }
        ensures spare { spare_of self.old + length (entries_of self.old)
            ≤ spare_of self.new + length (entries_of self.new) }
        ensures cause { CountsDiskFault (D.faults (disk_of self.old)) (D.faults (disk_of self.new))
            result }
        ensures asked { D.asked (disk_of self.new) ≡ D.asked (disk_of self.old) }
        ensures tells { TellsAsBefore (D.reads (disk_of self.old)) (D.reads (disk_of self.new)) }
        ensures sound { IsSound D.Disk self.new }
    {
        match &ask.want {
            Want::Act(act) => match self.book.ready(by, ask, act)? {
                Step::New(ready) => match self.enter(ready) {
                    Ok(answered) => Ok(answered),
                    Err(_) => Err(AskError::DiskFault),
                },
                Step::Known(answered) => Ok(answered),
            },
            Want::Question(question) => {
                let answered = self.book.look(question)?;
                Ok(answered)
            }
        }
    }
}

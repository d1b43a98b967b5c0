use crate::store::Store;
use book_core::Ready;
use book_words::Answered;
use disk_core::{Disk, Failed};
use row_format::{lawful_entries_are_allowed, rows_spell_one_entry, write_row};

impl<D: Disk> Store<D> {
    ghost use Rattle.std.specs.Prelude.{◌≡◌, ◌+◌, ◌≤◌, [], ◌∷◌, ◌++◌, Ok, Some, IfOk, OnOk, MatchResult, length};
    ghost use Rattle.hall_limits.specs.declared.TheConstants.{MAX_ROWS};
    ghost use Rattle.device_facts.specs.Count.{CountsFault};
    ghost use Rattle.device_facts.specs.Known.{TellsAsBefore};
    ghost use Rattle.book_words.specs.Answers.{answer, IsLawful, IsLegal};
    ghost use Rattle.book_core.specs.Steps.{asked_act};
    ghost use Rattle.book_store.specs.Stores.{disk_of, book_of, entries_of, limit_of, spare_of, held_of, Hangs, HasBook, ImagesHoldBook, IsSound};
    ghost use Rattle.book_store.specs.Offers.{OffersEntry};

    // Writes down what was made ready last, and enters it once its row is stable. Failed comes only
    // where the disk failed; the book is as it was then.
    pub(crate) fn enter(&mut self, ready: Ready) -> Result<Answered, Failed>
        requires ready { (book_of self.old).pending ≡ Some ready }
        requires number { ready.number ≡ length (entries_of self.old) + 1 }
        requires lawful { IsLawful (entries_of self.old) ready.entry }
        requires sound { IsSound D.Disk self.old }
        ensures answer { IfOk result (λ answered.
            Ok answered ≡ answer MAX_ROWS (entries_of self.old)
            (asked_act ready.entry.desk ready.entry.request ready.entry.act)) }
        ensures entries { MatchResult result
            (λ _. entries_of self.new ≡ entries_of self.old ++ ready.entry ∷ [])
            (λ _. entries_of self.new ≡ entries_of self.old) }
        ensures legal { IsLegal (entries_of self.new) }
        ensures offers { HasBook D.Disk self.old →
            OffersEntry D.Disk ready.entry self.old self.new }
        ensures images { ImagesHoldBook D.Disk self.new }
        ensures settled { OnOk result (¬ Hangs self.new) }
        ensures limit { limit_of self.new ≡ limit_of self.old }
        ensures held { held_of self.new ≡ held_of self.old }
        ensures spare { spare_of self.old + length (entries_of self.old)
            ≤ spare_of self.new + length (entries_of self.new) }
        ensures cause { CountsFault (D.faults (disk_of self.old)) (D.faults (disk_of self.new))
            result }
        ensures asked { D.asked (disk_of self.new) ≡ D.asked (disk_of self.old) }
        ensures tells { TellsAsBefore (D.reads (disk_of self.old)) (D.reads (disk_of self.new)) }
        ensures sound { IsSound D.Disk self.new }
    {
        lawful_entries_are_allowed();
        rows_spell_one_entry();
        let row = write_row(ready.entry(), ready.number());
        self.journal.append(&row)?;
        Ok(self.book.enter(ready))
    }
}

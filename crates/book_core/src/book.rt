ghost use Rattle.std.specs.Prelude.{◌≡◌, ◌+◌, ◌≤◌, [], ◌∷◌, ◌++◌, length, ◌↔◌, ◌<◌, Ok, Err, None, Some, true, OnOk, OnErr, IfOk, IsTrue, IsOk, is_none};
ghost use Rattle.std.specs.Result.{result_ok};
ghost use Rattle.std.specs.Option.{option_map};
ghost use Rattle.hall_limits.specs.declared.TheConstants.{MAX_ROWS};
ghost use Rattle.book_words.specs.Population.{unsettled_reading};
ghost use Rattle.book_words.specs.Readings.{reading_of};
ghost use Rattle.book_words.specs.Views.{pack_view, summary};
ghost use Rattle.book_words.specs.Answers.{answer, added, IsLawful, IsLegal};
ghost use Rattle.book_words.specs.Balance.{MovesOnly};
ghost use Rattle.book_words.specs.Soundness.{IsSound};
ghost use Rattle.book_core.specs.Steps.{asked_act, asked_question, step_for, GivesUnlessNoMemory, made_ready, TellsLeast, pending_after, GivesAnswer, GivesLook, MayLackMemory, list_behind, decision, numbered_entry, is_weighing, HasNoRoom};
ghost use Rattle.book_rules.specs.Lanes.{IsSeen};
ghost use Rattle.book_rules.specs.Known.{entry_numbered};

use crate::pending::Pending;
use crate::ready::Ready;
use crate::rows::Rows;
use crate::types::{BookError, NoMemory, ReplayError, Step};
use book_rules::{
    Drawn, LaneNow, State, desk_number, recorded_signal, refuse, repeated_row, reply_again,
    reply_new,
};
use book_views::{look, summarize, view_pack};
use book_words::{Act, Answered, Ask, Entry, PackView, Question, Refused, SummaryView, Want};
use hall_limits::MAX_ROWS;
use pack_judge::Signal;
use std::alloc::Global;
use std::marker::Model;

/// The batch book: the list of accepted commands, and the most rows that it may have.
///
/// A contract sees beside the list what was made ready last, and how many more acts are sure to
/// find room.
#[derive(Drop)]
pub struct Book {
    state: State,
    alloc: Global,
    limit: u32,
    pending: Option<Pending>,
}

impl Model for Book {
    ghost use Rattle.book_core.specs.View.{BookView};

    ghost Value = { BookView };

    ghost use Rattle.book_core.specs.BookInvariant.{pending_entry, IsKept};

    ghost view = { λ b. record {
      entries = b.state.entries;
      limit = b.limit;
      pending = pending_entry b.pending;
      spare = b.state.spare;
    } };

    ghost invariant = { λ b. IsKept b.state b.limit b.pending };
}

// Whether two signals are the same.
fn is_same_signal(a: Option<Signal>, b: Option<Signal>) -> bool
    ensures { IsTrue result ↔ (a ≡ b) }
{
    a == b
}

impl Book {
    /// A book without entries that may have `limit` rows, 1 to 1 000 000. It takes no memory.
    pub fn new(alloc: Global, limit: u32) -> Book
        requires least { 1 ≤ limit }
        requires most { limit ≤ MAX_ROWS }
        ensures { result ≡ record { entries = []; limit = limit; pending = None; spare = 0 } }
    {
        Book {
            state: State::new(alloc),
            alloc,
            limit,
            pending: None,
        }
    }

    /// Answers an ask of the caller `by`: an act is made ready and entered, or is a repeat and gets
    /// the same answer again, or is refused; and a question is looked up.
    ///
    /// Of several refusals that hold, the one with the least number is answered, with the length of
    /// the list. Only where the ask would have added an entry, or asks for a sample or a page, may
    /// there be no memory instead, and for a weighing only where no row is spare; the list then
    /// stays as it is.
    pub fn ask(&mut self, by: u16, ask: &Ask) -> Result<Answered, BookError>
        ensures answer { GivesAnswer (MayLackMemory self.old by ask.now ask.now.want) result
            (answer self.old.limit self.old.entries ask.now) }
        ensures entries { self.new.entries
            ≡ list_behind result self.old.entries
            (added self.old.limit self.old.entries by ask.now) }
        ensures limit { self.new.limit ≡ self.old.limit }
        ensures pending { self.new.pending ≡ pending_after self.old.pending ask.now.want }
        ensures spare { self.old.spare + length self.old.entries
            ≤ self.new.spare + length self.new.entries }
        ensures legal_before { IsLegal self.old.entries }
        ensures legal { IsLegal self.new.entries }
    {
        match &ask.want {
            Want::Act(act) => match self.ready(by, ask, act)? {
                Step::New(ready) => Ok(self.enter(ready)),
                Step::Known(answered) => Ok(answered),
            },
            Want::Question(question) => self.look(question),
        }
    }

    /// Makes the act of an ask ready: it is refused, or it repeats the newest act of its desk, or
    /// room is taken for it and its entry is made. The list stays as it is.
    ///
    /// Of several refusals that hold, the one with the least number is answered, with the length of
    /// the list. Want of memory is answered only for a lawful act, and for a weighing only where no
    /// row is spare.
    pub fn ready(&mut self, by: u16, ask: &Ask, act: &Act) -> Result<Step, BookError>
        ensures exact { GivesUnlessNoMemory self.old act.now result
            (step_for self.old by ask.now act.now) }
        ensures least { TellsLeast self.old.limit self.old.entries ask.now act.now result }
        ensures pending { self.new.pending ≡ made_ready result }
        ensures entries { self.new.entries ≡ self.old.entries }
        ensures limit { self.new.limit ≡ self.old.limit }
        ensures spare { self.old.spare ≤ self.new.spare }
        ensures legal { IsLegal self.new.entries }
    {
        self.pending = None;
        let seen = self.state.seen(act);
        match self.decide(self.limit, &seen, ask, act) {
            Err(error) => Err(error),
            Ok(Some(answered)) => Ok(Step::Known(answered)),
            Ok(None) => self.prepare(by, &seen, ask, act),
        }
    }

    // Makes an act ready that isn't refused and repeats nothing.
    fn prepare(&mut self, by: u16, seen: &LaneNow, ask: &Ask, act: &Act) -> Result<Step, BookError>
        requires seen { IsSeen self.old.entries act.now seen.now }
        requires found { decision self.old.limit self.old.entries ask.now act.now ≡ Ok None }
        requires empty { self.old.pending ≡ None }
        ensures gives { GivesUnlessNoMemory self.old act.now result
            (Ok (Step.New (numbered_entry self.old.entries by ask.now act.now))) }
        ensures pending { self.new.pending ≡ made_ready result }
        ensures entries { self.new.entries ≡ self.old.entries }
        ensures limit { self.new.limit ≡ self.old.limit }
        ensures spare { self.old.spare ≤ self.new.spare }
    {
        let entry = Entry {
            by,
            desk: ask.desk,
            request: ask.request,
            act: *act,
            signal: recorded_signal(&self.state, seen, act),
        };
        match self.hold(&entry, seen) {
            Ok(ready) => Ok(Step::New(ready)),
            Err(_) => Err(BookError::NoMemory),
        }
    }

    // What an act is told that repeats another, where it does; and why a book of `limit` rows
    // refuses it.
    fn decide(
        &self,
        limit: u32,
        seen: &LaneNow,
        ask: &Ask,
        act: &Act,
    ) -> Result<Option<Answered>, BookError>
        requires { IsSeen self.now.entries act.now seen.now }
        ensures { result ≡ decision limit self.now.entries ask.now act.now }
    {
        let at = self.state.len();
        if let Some(refusal) = desk_number(ask, act) {
            return Err(BookError::Refused(Refused { at, refusal }));
        }
        if let Some(row) = repeated_row(&self.state, ask, act) {
            let reply = reply_again(&self.state, row, act);
            return Ok(Some(Answered { at, reply }));
        }
        match refuse(limit, &self.state, seen, ask, act) {
            Some(refusal) => Err(BookError::Refused(Refused { at, refusal })),
            None => Ok(None),
        }
    }

    // Takes room for a lawful entry, draws what its act draws, and keeps it ready to be entered.
    // The list stays as it is.
    fn hold(&mut self, entry: &Entry, seen: &LaneNow) -> Result<Ready, NoMemory>
        requires seen { IsSeen self.old.entries entry.now.act seen.now }
        requires lawful { IsLawful self.old.entries entry.now }
        requires empty { self.old.pending ≡ None }
        ensures ok { IfOk result (λ ready. ready
            ≡ record { number = length self.old.entries + 1; entry = entry.now }) }
        ensures sure { is_weighing entry.now.act ≡ true → 0 < self.old.spare → IsOk result }
        ensures pending { self.new.pending ≡ result_ok result }
        ensures entries { self.new.entries ≡ self.old.entries }
        ensures limit { self.new.limit ≡ self.old.limit }
        ensures spare { self.old.spare ≤ self.new.spare }
    {
        self.state.reserve(1)?;
        let drawn = self.state.draw(self.alloc, &entry.act)?;
        let number = self.state.len() + 1;
        let ready = Ready::new(number, *entry);
        self.pending = Some(Pending {
            ready,
            seen: *seen,
            drawn,
        });
        Ok(Ready::new(number, *entry))
    }

    // Takes room for a lawful entry, draws what its act draws, and enters it. It makes no copy that
    // waits to be entered, and no reply: a book that is opened has nobody to answer.
    fn add(&mut self, entry: &Entry, seen: &LaneNow) -> Result<(), NoMemory>
        requires seen { IsSeen self.old.entries entry.now.act seen.now }
        requires lawful { IsLawful self.old.entries entry.now }
        requires empty { self.old.pending ≡ None }
        ensures ok { OnOk result (self.new.entries ≡ self.old.entries ++ entry.now ∷ []) }
        ensures err { OnErr result (self.new.entries ≡ self.old.entries) }
        ensures sure { is_weighing entry.now.act ≡ true → 0 < self.old.spare → IsOk result }
        ensures pending { self.new.pending ≡ None }
        ensures limit { self.new.limit ≡ self.old.limit }
        ensures spare { self.old.spare + length self.old.entries
            ≤ self.new.spare + length self.new.entries }
        ensures legal { IsLegal self.new.entries }
    {
        self.state.reserve(1)?;
        let drawn = self.state.draw(self.alloc, &entry.act)?;
        self.state.enter(entry, seen, drawn);
        Ok(())
    }

    // Whether an entry is lawful behind the list.
    fn is_lawful(&self, entry: &Entry, seen: &LaneNow) -> bool
        requires { IsSeen self.now.entries entry.now.act seen.now }
        ensures { IsTrue result ↔ IsLawful self.now.entries entry.now }
    {
        let ask = Ask {
            desk: entry.desk,
            request: entry.request,
            want: Want::Act(entry.act),
        };
        match self.decide(MAX_ROWS, seen, &ask, &entry.act) {
            Ok(None) => {
                is_same_signal(entry.signal, recorded_signal(&self.state, seen, &entry.act))
            }
            _ => false,
        }
    }

    /// Makes an entry ready as it stands, with whoever brought it, its desk and its signal.
    /// `Unlawful` comes exactly where it isn't lawful after the list; the book's limit doesn't
    /// bind it. Lack of memory is answered only for a lawful entry, and for a weighing only where
    /// no row is spare. The list stays as it is.
    pub fn admit(&mut self, entry: &Entry) -> Result<Ready, ReplayError>
        ensures ok { IfOk result (λ ready. ready
            ≡ record { number = length self.old.entries + 1; entry = entry.now }) }
        ensures lawful { OnOk result (IsLawful self.old.entries entry.now) }
        ensures unlawful { result ≡ Err ReplayError.Unlawful
            ↔ ¬ IsLawful self.old.entries entry.now }
        ensures no_memory { result ≡ Err ReplayError.NoMemory →
            IsLawful self.old.entries entry.now × HasNoRoom self.old entry.now.act }
        ensures pending { self.new.pending ≡ result_ok result }
        ensures entries { self.new.entries ≡ self.old.entries }
        ensures limit { self.new.limit ≡ self.old.limit }
        ensures spare { self.old.spare ≤ self.new.spare }
        ensures legal { IsLegal self.new.entries }
    {
        self.pending = None;
        let seen = self.state.seen(&entry.act);
        if !self.is_lawful(entry, &seen) {
            return Err(ReplayError::Unlawful);
        }
        match self.hold(entry, &seen) {
            Ok(ready) => Ok(ready),
            Err(_) => Err(ReplayError::NoMemory),
        }
    }

    /// Enters an entry of a book that is opened again, as it stands. `Unlawful` comes exactly where
    /// it isn't lawful after the list; the book's limit doesn't bind it. Lack of memory is
    /// answered only for a lawful entry, and for a weighing only where no row is spare. After an
    /// error the list is as it was.
    pub fn replay(&mut self, entry: Entry) -> Result<(), ReplayError>
        ensures ok { OnOk result (self.new.entries ≡ self.old.entries ++ entry ∷ []) }
        ensures lawful { OnOk result (IsLawful self.old.entries entry) }
        ensures unlawful { result ≡ Err ReplayError.Unlawful ↔ ¬ IsLawful self.old.entries entry }
        ensures no_memory { result ≡ Err ReplayError.NoMemory →
            IsLawful self.old.entries entry × HasNoRoom self.old entry.act }
        ensures err { OnErr result (self.new.entries ≡ self.old.entries) }
        ensures limit { self.new.limit ≡ self.old.limit }
        ensures pending { self.new.pending ≡ None }
        ensures spare { self.old.spare + length self.old.entries
            ≤ self.new.spare + length self.new.entries }
        ensures legal { IsLegal self.new.entries }
    {
        self.pending = None;
        let seen = self.state.seen(&entry.act);
        if !self.is_lawful(&entry, &seen) {
            return Err(ReplayError::Unlawful);
        }
        match self.add(&entry, &seen) {
            Ok(()) => Ok(()),
            Err(_) => Err(ReplayError::NoMemory),
        }
    }

    /// Enters what was made ready last, and answers it, whatever the book's limit is. It can't
    /// fail, and takes no memory.
    pub fn enter(&mut self, ready: Ready) -> Answered
        requires { self.old.pending ≡ Some ready }
        ensures entries { self.new.entries ≡ self.old.entries ++ ready.entry ∷ [] }
        ensures limit { self.new.limit ≡ self.old.limit }
        ensures pending { self.new.pending ≡ None }
        ensures answer { Ok result ≡ answer MAX_ROWS self.old.entries
            (asked_act ready.entry.desk ready.entry.request ready.entry.act) }
        ensures spare { self.new.spare + 1 ≡ self.old.spare }
        ensures lawful { IsLawful self.old.entries ready.entry }
        ensures moves { MovesOnly self.old.entries ready.entry }
        ensures legal { IsLegal self.new.entries }
    {
        let Some(Pending { seen, drawn, .. }) = self.pending.take() else {
            unreachable!()
        };
        let entry = ready.entry();
        let reply = reply_new(&self.state, &entry.act, entry.signal);
        self.state.enter(entry, &seen, drawn);
        Answered {
            at: ready.number(),
            reply,
        }
    }

    /// Answers a question over the list as it stands. Only one for a sample or a page takes memory.
    pub fn look(&self, question: &Question) -> Result<Answered, BookError>
        ensures answer { GivesLook question.now result
            (answer self.now.limit self.now.entries (asked_question question.now)) }
        ensures legal { IsLegal self.now.entries }
    {
        let at = self.state.len();
        match look(self.alloc, &self.state, question) {
            Ok(Ok(reply)) => Ok(Answered { at, reply }),
            Ok(Err(refusal)) => Err(BookError::Refused(Refused { at, refusal })),
            Err(_) => Err(BookError::NoMemory),
        }
    }

    /// The balance of the whole hall. It takes no memory.
    pub fn summary(&self) -> SummaryView
        ensures { result ≡ summary self.now.entries }
    {
        summarize(&self.state)
    }

    /// Takes room for `more` further acts: so many weighings then find memory.
    pub fn reserve(&mut self, more: u32) -> Result<(), NoMemory>
        ensures ok { OnOk result (more ≤ self.new.spare) }
        ensures spare { self.old.spare ≤ self.new.spare }
        ensures entries { self.new.entries ≡ self.old.entries }
        ensures limit { self.new.limit ≡ self.old.limit }
        ensures pending { self.new.pending ≡ self.old.pending }
    {
        self.state.reserve(more)?;
        Ok(())
    }

    /// The number of the unsettled pack of a lane: it passed, and no weighing or stop of the lane
    /// came after it.
    ///
    /// Where a lane has one, its next weighing or stop must say what the gate did. Where it has
    /// none, they must not.
    pub fn unsettled(&self, lane: u8) -> Option<u32>
        ensures { result
            ≡ option_map (λ reading. reading.number) (unsettled_reading self.now.entries lane) }
    {
        self.state.unsettled(lane)
    }

    /// The number of rows.
    pub fn len(&self) -> u32
        ensures { result ≡ length self.now.entries }
    {
        self.state.len()
    }

    /// The state of the pack with a number; `None` exactly where there is no such pack.
    pub fn pack(&self, number: u32) -> Option<PackView>
        ensures view { result ≡ pack_view self.now.entries number }
        ensures there { is_none result ≡ is_none (reading_of self.now.entries number) }
    {
        view_pack(&self.state, number)
    }

    /// All entries, in the order of their rows, to be read.
    pub fn entries(&self) -> &[Entry]
        ensures value { result.now ≡ self.now.entries }
        ensures legal { IsLegal self.now.entries }
    {
        self.state.entries()
    }

    /// The list with what is kept beside it, to look things up in.
    pub fn state(&self) -> &State
        ensures { result.now.entries ≡ self.now.entries }
    {
        &self.state
    }

    /// The entry of a number; `None` exactly where the number isn't 1 to the number of rows.
    pub fn entry(&self, number: u32) -> Option<Entry>
        ensures { result ≡ entry_numbered self.now.entries number }
    {
        self.state.entry(number)
    }

    /// The rows: they are legal, their piles add up, each of them moves the packs only as it may,
    /// each reading has a tare and a nominal quantity, and each verdict stays.
    pub fn rows(self) -> Rows
        ensures rows { result ≡ self.entries }
        ensures sound { IsSound result }
    {
        Rows::new(self.state.into_entries())
    }
}

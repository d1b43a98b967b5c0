use crate::entries::{count_of, unsettled_of};
use crate::rules::{is_desk_wrong, refuse_last, repeated_row};
use crate::signals::signal_of_last;
use crate::taken::{NoMemory, Taken};
use crate::verdicts::verdict_of;
use crate::views::{Told, pack_view, tell};
use book_words::{Act, Answered, Ask, Entry, PackView, Refusal, Refused, Reply, Want};
use pack_judge::Signal;
use std::alloc::Global;

/// A list of accepted acts, which may have at most `limit` entries.
#[derive(Drop)]
pub struct PlainBook {
    entries: Vec<Entry>,
    limit: u32,
    alloc: Global,
}

// What the entry that stands last is told.
fn reply_to_last(alloc: Global, entries: &[Entry]) -> Result<Reply, NoMemory> {
    let row = count_of(entries.len());
    let Some(last) = entries.last() else {
        return Ok(Reply::Done { row });
    };
    if let Act::Close { batch } = last.act {
        let verdict = verdict_of(alloc, entries, batch)?;
        return Ok(Reply::Closed { row, verdict });
    }
    match last.signal {
        Some(signal) => Ok(Reply::Judged { row, signal }),
        None => Ok(Reply::Done { row }),
    }
}

impl PlainBook {
    /// A book without entries.
    pub fn new(alloc: Global, limit: u32) -> PlainBook {
        PlainBook {
            entries: Vec::new(alloc),
            limit,
            alloc,
        }
    }

    /// Answers an ask of the caller `by`. Only want of memory is an error of this call.
    pub fn take(&mut self, by: u16, ask: &Ask) -> Result<Taken, NoMemory> {
        let told = match ask.want {
            Want::Act(act) => self.take_act(by, ask, &act)?,
            Want::Question(question) => tell(self.alloc, &self.entries, &question)?,
        };
        let at = count_of(self.entries.len());
        Ok(match told {
            Ok(reply) => Ok(Answered { at, reply }),
            Err(refusal) => Err(Refused { at, refusal }),
        })
    }

    // Answers an act: its desk is wrong, it is a repeat, or it is new.
    fn take_act(&mut self, by: u16, ask: &Ask, act: &Act) -> Result<Told, NoMemory> {
        if is_desk_wrong(ask, act) {
            return Ok(Err(Refusal::DeskNumber));
        }
        if let Some(row) = repeated_row(&self.entries, ask, act) {
            let until = self.entries.get(..row as usize).unwrap_or(&self.entries);
            return Ok(Ok(reply_to_last(self.alloc, until)?));
        }
        let entry = Entry {
            by,
            desk: ask.desk,
            request: ask.request,
            act: *act,
            signal: None,
        };
        self.entries.push(entry)?;
        let judged = self.judge_last(ask, act);
        let _ = self.entries.pop();
        match judged? {
            Err(refusal) => Ok(Err(refusal)),
            Ok(signal) => {
                self.entries.push(Entry { signal, ..entry })?;
                Ok(Ok(reply_to_last(self.alloc, &self.entries)?))
            }
        }
    }

    // Why the act that stands last is refused, or the signal that it gets.
    fn judge_last(
        &self,
        ask: &Ask,
        act: &Act,
    ) -> Result<Result<Option<Signal>, Refusal>, NoMemory> {
        match refuse_last(self.alloc, &self.entries, self.limit, ask, act)? {
            Some(refusal) => Ok(Err(refusal)),
            None => Ok(Ok(signal_of_last(self.alloc, &self.entries)?)),
        }
    }

    /// Takes over an entry of another book as it stands, without judging it.
    pub fn follow(&mut self, entry: &Entry) -> Result<(), NoMemory> {
        self.entries.push(*entry)?;
        Ok(())
    }

    /// The entries.
    pub fn entries(&self) -> &[Entry] {
        &self.entries
    }

    /// The number of the unsettled pack of a lane.
    pub fn unsettled(&self, lane: u8) -> Option<u32> {
        unsettled_of(&self.entries, lane)
    }

    /// What stands of the pack of a number.
    pub fn pack(&self, number: u32) -> Result<Option<PackView>, NoMemory> {
        pack_view(self.alloc, &self.entries, number)
    }

    /// The entry of a number.
    pub fn entry(&self, number: u32) -> Option<Entry> {
        self.entries.get((number as usize).checked_sub(1)?).copied()
    }
}

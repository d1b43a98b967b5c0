ghost use Rattle.std.specs.Prelude.{◌≡◌, ◌↔◌, ◌+◌, ◌<◌, ◌≤◌, [], ◌∷◌, ◌++◌, length, OnOk, IsOk, IsTrue};
ghost use Rattle.hall_limits.specs.declared.TheConstants.{MAX_ROWS};
ghost use Rattle.book_words.specs.Answers.{IsLawful, IsLegal};
ghost use Rattle.book_state.specs.Prepared.{drawn_by};
ghost use Rattle.book_state.specs.Lanes.{IsSeen};
ghost use Rattle.book_state.specs.Known as told;

use crate::drawn::Drawn;
use crate::entering::{enter_packs, enter_samples};
use crate::types::{LaneNow, NoMemory};
use book_index::Index;
use book_packs::Packs;
use book_samples::Samples;
use book_words::Entry;
use std::alloc::Global;
use std::marker::Model;

/// Room is taken for at least so many acts at once, so that most acts find it there.
const ROOM_AT_ONCE: u32 = 64;

/// The list of accepted commands, and beside it what is kept by name, lane, day, desk, batch and
/// pack. Every contract speaks of the list alone, which is legal.
#[derive(Drop)]
pub struct State {
    pub(crate) entries: Vec<Entry>,
    pub(crate) index: Index,
    pub(crate) packs: Packs,
    pub(crate) samples: Samples,
    // How many acts more are sure to find room.
    pub(crate) spare: u32,
}

impl Model for State {
    ghost use Rattle.book_state.specs.View.{StateView};

    ghost Value = { StateView };

    ghost view = { λ s. record { entries = s.entries.items; spare = s.spare } };

    ghost use Rattle.book_state.specs.Invariant.{IsKept};

    ghost invariant = { IsKept };
}

impl State {
    /// The state without entries. It takes no memory.
    pub fn new(alloc: Global) -> State
        ensures entries { result.entries ≡ [] }
        ensures spare { result.spare ≡ 0 }
    {
        State {
            entries: Vec::new(alloc),
            index: Index::new(alloc),
            packs: Packs::new(alloc),
            samples: Samples::new(alloc),
            spare: 0,
        }
    }

    /// The number of entries.
    pub fn len(&self) -> u32
        ensures count { result ≡ length self.now.entries }
        ensures few { result ≤ MAX_ROWS }
        ensures legal { IsLegal self.now.entries }
    {
        self.entries.len() as u32
    }

    /// Whether there are no entries.
    pub fn is_empty(&self) -> bool
        ensures { IsTrue result ↔ (self.now.entries ≡ []) }
    {
        self.entries.is_empty()
    }

    /// The entries.
    pub fn entries(&self) -> &[Entry]
        ensures { result.now ≡ self.now.entries }
    {
        self.entries.as_slice()
    }

    /// The entry of a number, from 1 on; `None` where there is none.
    pub fn entry(&self, number: u32) -> Option<Entry>
        ensures value { result ≡ told.entry_numbered self.now.entries number }
        ensures legal { IsLegal self.now.entries }
    {
        let _ = &self.entries; // so that what is known of it is known at both ends
        if number == 0 {
            return None;
        }
        self.entries.get(number as usize - 1).copied()
    }

    /// Makes room for `more` further acts, or for some more. The entries stay as they are.
    pub fn reserve(&mut self, more: u32) -> Result<(), NoMemory>
        ensures ok { OnOk result (more ≤ self.new.spare) }
        ensures room { more ≤ self.old.spare → IsOk result }
        ensures spare { self.old.spare ≤ self.new.spare }
        ensures entries { self.new.entries ≡ self.old.entries }
    {
        if more <= self.spare {
            return Ok(());
        }
        let room = more.max(ROOM_AT_ONCE);
        self.entries.reserve(room as usize)?;
        self.index.reserve(room)?;
        self.packs.reserve(room)?;
        self.samples.reserve(room)?;
        self.spare = room;
        Ok(())
    }

    /// Enters a lawful entry that there is room for, with what was
    /// seen of its lane and what its act draws. It takes no memory.
    pub fn enter(&mut self, entry: &Entry, seen: &LaneNow, drawn: Drawn)
        requires room { 0 < self.old.spare }
        requires lawful { IsLawful self.old.entries entry.now }
        requires seen { IsSeen self.old.entries entry.now.act seen.now }
        requires drawn { drawn ≡ drawn_by self.old.entries entry.now.act }
        ensures entries { self.new.entries ≡ self.old.entries ++ entry.now ∷ [] }
        ensures spare { self.new.spare + 1 ≡ self.old.spare }
    {
        let row = self.entries.len() as u32 + 1;
        enter_packs(
            &mut self.packs,
            &self.index,
            &self.entries,
            entry,
            seen,
            &drawn,
        );
        enter_samples(&mut self.samples, &self.index, entry, drawn);
        self.index.enter(row, entry);
        self.entries.push_reserved(*entry);
        self.spare -= 1;
    }

    /// The entries, as the book gives them back.
    pub fn into_entries(self) -> Vec<Entry>
        ensures entries { result.items ≡ self.entries }
        ensures legal { IsLegal result.items }
    {
        self.entries
    }
}

ghost use Rattle.old_journal.specs.Reader.{HeaderStays, RowsStay};

use crate::slot::{fill, piece_in, rows_with, stage_behind};
use crate::types::{OldPiece, Stage};
use book_snapshot::OLD_ROW_BYTES;
use std::marker::Model;

/// A journal of version 1 that comes piece by piece: what its next slot is, how many rows it had,
/// and the bytes of the slot that has begun.
#[derive(Drop)]
pub struct OldJournal {
    stage: Stage,
    rows: u32,
    slot: [u8; OLD_ROW_BYTES],
    filled: usize,
}

impl Model for OldJournal {
    ghost use Rattle.std.specs.Prelude.{◌<◌, take};
    ghost use Rattle.book_snapshot.specs.declared.layout.TheConstants.{OLD_ROW_BYTES};
    ghost use Rattle.old_journal.specs.Reader.{OldView};

    ghost Value = { OldView };

    ghost view = { λ j. record {
      stage = j.stage;
      rows = j.rows;
      begun = take j.filled j.slot;
    } };

    ghost invariant = { λ j. j.filled < OLD_ROW_BYTES };
}

impl OldJournal {
    ghost use Rattle.std.specs.Prelude.{◌≡◌, ◌<◌, ◌≤◌, ◌↔◌, ◌⊎◌, ℕ, List, [], ◌++◌, length, take, IsTrue};
    ghost use Rattle.old_journal.specs.declared.types.Stage.TheVariants as stages;
    ghost use Rattle.old_journal.specs.OldJournal.{HasOldHeader};
    ghost use Rattle.old_journal.specs.Reader.{old_after, counted, Says, GoesOn, IsWhole};

    /// A journal of which nothing was read.
    #[tactic(auto, unfolding(crate::specs::Reader::old_after))]
    pub fn new() -> OldJournal
        ensures { result ≡ old_after [] }
    {
        OldJournal {
            stage: Stage::Header,
            rows: 0,
            slot: [0; OLD_ROW_BYTES],
            filled: 0,
        }
    }

    /// Takes bytes up to the end of the slot that has begun, or all; the answer is how many these
    /// are, and what they tell.
    pub fn take(&mut self, bytes: &[u8]) -> (usize, OldPiece)
        requires { self.old.rows < u32.MAX }
        ensures least { 0 < length bytes.now → 0 < result.0 }
        ensures most { result.0 ≤ length bytes.now }
        ensures rows { self.new.rows ≡ counted self.old.rows result.1 }
        ensures stands { (taken : List ℕ) → self.old ≡ old_after taken
            → self.new ≡ old_after (taken ++ take result.0 bytes.now) }
        ensures says { (taken : List ℕ) → self.old ≡ old_after taken
            → Says taken (taken ++ take result.0 bytes.now) result.1 }
    {
        match self.stage {
            Stage::Header | Stage::Rows => self.take_slot(bytes),
            Stage::Foreign => (bytes.len(), OldPiece::Foreign),
            Stage::Over => (bytes.len(), OldPiece::Over),
        }
    }

    // Takes bytes where slots still count.
    fn take_slot(&mut self, bytes: &[u8]) -> (usize, OldPiece)
        requires rows { self.old.rows < u32.MAX }
        requires counts { (self.old.stage ≡ stages.Header) ⊎ (self.old.stage ≡ stages.Rows) }
        ensures least { 0 < length bytes.now → 0 < result.0 }
        ensures most { result.0 ≤ length bytes.now }
        ensures step { let part = take result.0 bytes.now in
            GoesOn self.old self.new part result.1 ⊎ IsWhole self.old self.new part result.1 }
    {
        let count = fill(&mut self.slot, self.filled, bytes);
        if self.filled + count < OLD_ROW_BYTES {
            self.filled += count;
            return (count, OldPiece::Part);
        }
        let piece = piece_in(self.stage, self.rows, &self.slot);
        self.filled = 0;
        self.rows = rows_with(self.rows, &piece);
        self.stage = stage_behind(self.stage, &piece);
        (count, piece)
    }

    /// How many rows there were.
    pub fn rows(&self) -> u32
        ensures { result ≡ self.now.rows }
    {
        self.rows
    }

    /// Whether the bytes taken so far begin with the header.
    pub fn has_header(&self) -> bool
        ensures { (taken : List ℕ) → self.now ≡ old_after taken
            → (IsTrue result ↔ HasOldHeader taken) }
    {
        matches!(self.stage, Stage::Rows | Stage::Over)
    }
}

/// A law of old journals: the header and the rows stay the first, whatever follows them.
pub fn what_follows_leaves_rows()
    ensures header { HeaderStays }
    ensures rows { RowsStay }
{}

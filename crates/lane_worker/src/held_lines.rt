use crate::cell_lines::{MAX_CELL_LINE, read_last, read_line};
use crate::types::CellNext;
use disk_core::{Failed, Source};
use memchr::memchr;
use std::marker::Model;

// A line of the greatest length, and its LF.
pub(crate) const MAX_HELD: usize = MAX_CELL_LINE + 1;

/// The bytes that were read from a source and that no item was made of yet; how many lines became
/// items, up to the greatest number of 32 bits; and whether the rest of the last one, which was too
/// long, is still to be passed over.
#[derive(Drop)]
pub(crate) struct HeldLines {
    bytes: [u8; MAX_HELD],
    count: usize,
    lines: u32,
    passing: bool,
}

impl Model for HeldLines {
    ghost use Rattle.std.specs.Prelude.{◌≤◌, take};
    ghost use Rattle.lane_worker.specs.declared.held_lines.TheConstants.{MAX_HELD};
    ghost use Rattle.lane_worker.specs.CellLines.{Held};

    ghost Value = { Held };

    ghost view = { λ h. record {
      bytes = take h.count h.bytes;
      lines = h.lines;
      passing = h.passing;
    } };

    ghost invariant = { λ h. h.count ≤ MAX_HELD };
}

impl HeldLines {
    ghost use Rattle.std.specs.Prelude.{◌≡◌, ◌+◌, ◌<◌, ◌≤◌, true, false, List, [], ℕ, nat_lt, length, take, drop, Option, option_map, OnErr, IfOk};
    ghost use Rattle.std.specs.Io.KnownBytes.{IsAtEnd, prepend_known};
    ghost use Rattle.lane_worker.specs.Cells.{IsNext, items_behind};
    ghost use Rattle.lane_worker.specs.CellLines.{none_held, is_known, held_left};
    ghost use Rattle.lane_worker.specs.CellLines.{ended_says, last_says};
    ghost use Rattle.lane_worker.specs.declared.cell_lines.TheConstants.{MAX_CELL_LINE};
    ghost use Rattle.lane_worker.specs.declared.held_lines.TheConstants.{MAX_HELD};

    /// No bytes, of a source whose first line has the number 1.
    pub fn new() -> Self
        ensures { result ≡ none_held }
    {
        HeldLines {
            bytes: [0; MAX_HELD],
            count: 0,
            lines: 0,
            passing: false,
        }
    }

    /// Passes over what is held of a line that was too long, its LF with it.
    pub fn pass_over(&mut self)
        ensures left { (left : Option (List ℕ)) → held_left self.new left ≡ held_left self.old left }
        ensures passed { self.new.passing ≡ true → self.new.bytes ≡ [] }
    {
        if !self.passing {
            return;
        }
        match memchr(b'\n', &self.bytes[..self.count]) {
            Some(end) => {
                self.drop_line(end);
                self.passing = false;
            }
            None => self.count = 0,
        }
    }

    /// Whether the next item is known, whatever follows: a line is whole, or too long.
    pub fn has_item(&self) -> bool
        ensures known { result ≡ is_known self.now.bytes }
        ensures few { length self.now.bytes ≤ MAX_HELD }
    {
        self.count > MAX_CELL_LINE || self.bytes[..self.count].contains(&b'\n')
    }

    /// Reads what is there, and answers whether that is the end. A read that fails changes nothing.
    pub fn read_from<S: Source>(&mut self, source: &mut S) -> Result<bool, Failed>
        requires room { is_known self.old.bytes ≡ false }
        requires unended { S.ended source.old ≡ false }
        ensures bytes { prepend_known self.new.bytes (S.left source.new)
            ≡ prepend_known self.old.bytes (S.left source.old) }
        ensures lines { self.new.lines ≡ self.old.lines }
        ensures passing { self.new.passing ≡ self.old.passing }
        ensures end { IfOk result (λ end. S.ended source.new ≡ end) }
        ensures at_end { IfOk result (λ end. end ≡ true → IsAtEnd (S.left source.new)) }
        ensures grows { IfOk result (λ end. end ≡ false
            → length self.old.bytes < length self.new.bytes) }
        ensures longer { length self.old.bytes ≤ length self.new.bytes }
        ensures few { length self.new.bytes ≤ MAX_HELD }
        ensures unended { OnErr result (S.ended source.new ≡ false) }
        ensures kept { OnErr result (self.new ≡ self.old) }
    {
        let count = source.read(&mut self.bytes[self.count..])?;
        self.count += count;
        Ok(count == 0)
    }

    /// The next item: what the first line says, or the last one where no LF follows, and the end
    /// where no byte is left. A line that is too long is bad, and its rest is to be passed over.
    pub fn take_item(&mut self) -> CellNext
        requires passed { self.old.passing ≡ true → self.old.bytes ≡ [] }
        ensures item { (left : Option (List ℕ)) → (is_known self.old.bytes ≡ false → IsAtEnd left)
            → IsNext (held_left self.old left) result }
        ensures rest { (left : Option (List ℕ)) → (is_known self.old.bytes ≡ false → IsAtEnd left)
            → held_left self.new left ≡ option_map items_behind (held_left self.old left) }
    {
        if self.count == 0 {
            return CellNext::End;
        }
        self.lines = self.lines.saturating_add(1);
        match memchr(b'\n', &self.bytes[..self.count]) {
            Some(end) => self.take_line(end),
            None => self.take_last(),
        }
    }

    // What the line says that ends with the LF at this place.
    fn take_line(&mut self, end: usize) -> CellNext
        requires within { end < length self.old.bytes }
        ensures item { result ≡ ended_says (take end self.old.bytes) self.old.lines }
        ensures bytes { self.new.bytes ≡ drop (end + 1) self.old.bytes }
        ensures lines { self.new.lines ≡ self.old.lines }
        ensures passing { self.new.passing ≡ self.old.passing }
    {
        let item = read_line(&self.bytes[..end], self.lines);
        self.drop_line(end);
        item
    }

    // Drops the line that ends with the LF at this place.
    fn drop_line(&mut self, end: usize)
        requires within { end < length self.old.bytes }
        ensures bytes { self.new.bytes ≡ drop (end + 1) self.old.bytes }
        ensures lines { self.new.lines ≡ self.old.lines }
        ensures passing { self.new.passing ≡ self.old.passing }
    {
        self.bytes.copy_within(end + 1..self.count, 0);
        self.count -= end + 1;
    }

    // What the last line says, or one that is too long.
    fn take_last(&mut self) -> CellNext
        ensures item { result ≡ last_says self.old.bytes self.old.lines }
        ensures bytes { self.new.bytes ≡ [] }
        ensures lines { self.new.lines ≡ self.old.lines }
        ensures passing { self.new.passing ≡ nat_lt MAX_CELL_LINE (length self.old.bytes) }
    {
        let item = read_last(&self.bytes[..self.count], self.lines);
        self.passing = self.count > MAX_CELL_LINE;
        self.count = 0;
        item
    }
}

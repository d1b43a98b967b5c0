use crate::items::Item;
use crate::receiver::{Heard, Receiver};
use crate::wire_lines::read_text;
use lane_worker::CellNext;

/// What a cell knows of its scale.
#[derive(Drop)]
pub(crate) struct Hearing {
    /// The items taken.
    pub receiver: Receiver,
    /// The whole lines read, over all connections, up to the greatest `u32`.
    pub lines: u32,
    /// What each call gives from now on, where that is known: the end, or what is bad.
    pub over: Option<CellNext>,
    /// Whether a connection is present that isn't to be left yet.
    pub connected: bool,
    /// Whether an acknowledgement is still to be written to it.
    pub owes: bool,
    /// Whether a line may name a batch; else such a line is bad.
    pub batches: bool,
}

impl Hearing {
    ghost use Rattle.std.specs.Prelude.{◌≡◌, Some};
    ghost use Rattle.remote_cell.specs.WireLines.{line_said};
    ghost use Rattle.remote_cell.specs.Told.{silent};
    ghost use Rattle.remote_cell.specs.Steps.{spoilt, bad_behind, next_given, with_given, heard_line, item_given, heard_text, item_heard};

    /// Nothing was heard yet.
    pub fn new(batches: bool) -> Self
        ensures { result ≡ silent batches }
    {
        Hearing {
            receiver: Receiver::new(),
            lines: 0,
            over: None,
            connected: false,
            owes: false,
            batches,
        }
    }

    /// Hears a whole line, its LF left out. Tells what the cell gives, if this ends its call.
    pub fn hear(&mut self, text: &[u8]) -> Option<CellNext>
        ensures after { self.new ≡ heard_text self.old (line_said self.old.batches text.now) }
        ensures item { result ≡ item_heard self.old (line_said self.old.batches text.now) }
    {
        match read_text(text, self.batches) {
            Some((number, item)) => self.hear_line(number, item),
            None => Some(self.spoil()),
        }
    }

    /// The next line is bad: so it is at each call from now on.
    pub fn spoil(&mut self) -> CellNext
        ensures after { self.new ≡ spoilt self.old }
        ensures item { result ≡ bad_behind self.old }
    {
        let item = CellNext::Bad {
            line: self.lines.saturating_add(1),
        };
        self.over = Some(item);
        item
    }

    // Hears what a line says.
    fn hear_line(&mut self, number: u32, item: Item) -> Option<CellNext>
        ensures after { self.new ≡ heard_text self.old (Some (number, item)) }
        ensures item { result ≡ item_heard self.old (Some (number, item)) }
    {
        self.lines = self.lines.saturating_add(1);
        match self.receiver.line(number) {
            Heard::Take => {
                self.owes = true;
                Some(self.give(item))
            }
            Heard::Again => {
                self.owes = true;
                None
            }
            Heard::Ahead => None,
        }
    }

    // Gives an item; behind the end the same is given at each call.
    fn give(&mut self, item: Item) -> CellNext
        ensures after { self.new ≡ with_given self.old item }
        ensures item { result ≡ next_given self.old.lines item }
    {
        match item {
            Item::Gross(gross) => CellNext::Gross(gross),
            Item::Batch(batch) => CellNext::Batch {
                batch,
                line: self.lines,
            },
            Item::End => {
                self.over = Some(CellNext::End);
                CellNext::End
            }
        }
    }
}

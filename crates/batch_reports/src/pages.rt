ghost use Rattle.std.specs.Prelude.{◌≡◌, ◌+◌, ◌*◌, length};
ghost use Rattle.std.specs.List.{AllByRecursion};
ghost use Rattle.book_words.specs.Ranges.{IsLawfulSomewhere, IsPageInRange};
ghost use Rattle.book_texts.specs.Appending.{HasRoom, Appended};
ghost use Rattle.row_format.specs.Spelling.{four};
ghost use Rattle.act_lines.specs.ActLines.{act_text};
ghost use Rattle.batch_reports.specs.Texts.{lines_of, rows_of, row_of, shipment_text};

use act_lines::{ACT_ROOM, push_act};
use book_texts::append;
use book_words::{ActView, MAX_PAGE, RowsView};
use row_format::{ROW_BYTES, lawful_entries_are_allowed, write_row};

/// The most bytes of the lines of a page.
pub const MAX_LINES: usize = ACT_ROOM * MAX_PAGE as usize;

/// The bytes of the head of a shipment: its name and two numbers.
const SHIP_HEAD: usize = 16;

/// The most bytes of a page as a shipment.
pub const MAX_SHIPMENT: usize = SHIP_HEAD + ROW_BYTES * MAX_PAGE as usize;

/// Appends the lines of some rows.
pub fn push_lines(to: &mut Vec<u8>, acts: &[ActView])
    requires room { HasRoom to.old (ACT_ROOM * length acts.now) }
    requires lawful { AllByRecursion IsLawfulSomewhere acts.now }
    ensures { Appended to.old to.new (lines_of acts.now) (ACT_ROOM * length acts.now) }
{
    let mut rest = acts;
    while let Some((view, behind)) = rest.split_first() {
        push_line(to, view);
        rest = behind;
    }
}

// Appends the line of a row.
fn push_line(to: &mut Vec<u8>, view: &ActView)
    requires room { HasRoom to.old ACT_ROOM }
    requires lawful { IsLawfulSomewhere view.now }
    ensures { Appended to.old to.new (act_text view.now) ACT_ROOM }
{
    push_act(to, view);
}

/// Appends a page as a shipment: its head, and its rows.
pub fn push_shipment(to: &mut Vec<u8>, view: &RowsView)
    requires room { HasRoom to.old (SHIP_HEAD + ROW_BYTES * length view.now.acts) }
    requires range { IsPageInRange view.now }
    ensures { Appended to.old to.new (shipment_text view.now)
        (SHIP_HEAD + ROW_BYTES * length view.now.acts) }
{
    let acts = view.acts.as_slice();
    append(to, b"AQHSHIP2");
    push_four(to, view.before + acts.len() as u32);
    push_four(to, view.before);
    push_rows(to, acts);
}

// Appends a number of four bytes.
fn push_four(to: &mut Vec<u8>, number: u32)
    requires { HasRoom to.old 4 }
    ensures { Appended to.old to.new (four number) 4 }
{
    append(to, &number.to_le_bytes());
}

// Appends some rows as they stand in a book.
fn push_rows(to: &mut Vec<u8>, acts: &[ActView])
    requires room { HasRoom to.old (ROW_BYTES * length acts.now) }
    requires lawful { AllByRecursion IsLawfulSomewhere acts.now }
    ensures { Appended to.old to.new (rows_of acts.now) (ROW_BYTES * length acts.now) }
{
    let mut rest = acts;
    while let Some((view, behind)) = rest.split_first() {
        push_row(to, view);
        rest = behind;
    }
}

// Appends a row as it stands in a book.
fn push_row(to: &mut Vec<u8>, view: &ActView)
    requires room { HasRoom to.old ROW_BYTES }
    requires lawful { IsLawfulSomewhere view.now }
    ensures { Appended to.old to.new (row_of view.now) ROW_BYTES }
{
    lawful_entries_are_allowed();
    append(to, &write_row(&view.entry, view.row));
}

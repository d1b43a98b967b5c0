ghost use Rattle.std.specs.Prelude.{◌≡◌, ◌≤◌, ◌^◌, ◌++◌, codes, length, unsigned_abs, IfSome, Some};
ghost use Rattle.book_texts.specs.Appending.{HasRoom, Appended};
ghost use Rattle.hall_units.specs.Days.{IsDay};
ghost use Rattle.list_run.specs.Ranges.{IsInRange, IsProductInRange, IsTareInRange, IsTare};
ghost use Rattle.list_run.specs.Texts as told;

use crate::types::{BatchLine, DeskLine, LaneLine, Line, ProductLine, RowsLine, TareLine};
use book_texts::{
    MAX_WEIGHED, append, append_day, append_named, append_numbered, append_weighed, state_word,
};
use book_words::{BatchState, Unit};

/// The most bytes of a line; the longest, with two names of 32 bytes, has fewer.
pub const LINE_ROOM: usize = 256;

/// The most bytes of the state of a batch and of how many packs it has.
const STANDING_ROOM: usize = 64;

/// Appends a line.
pub fn push_line(to: &mut Vec<u8>, line: &Line)
    requires room { HasRoom to.old LINE_ROOM }
    requires range { IsInRange line.now }
    ensures { Appended to.old to.new (told.line_text line.now) LINE_ROOM }
{
    match line {
        Line::Day(day) => push_day(to, day),
        Line::Product(line) => push_product(to, line),
        Line::Tare(line) => push_tare(to, line),
        Line::Batch(line) => push_batch(to, line),
        Line::Lane(line) => push_lane(to, line),
        Line::Desk(line) => push_desk(to, line),
        Line::Rows(line) => push_rows(to, line),
    }
}

// Appends the line of the newest day.
fn push_day(to: &mut Vec<u8>, day: &Option<i32>)
    requires room { HasRoom to.old LINE_ROOM }
    requires range { IfSome day.now IsDay }
    ensures { Appended to.old to.new (told.day_text_line day.now) LINE_ROOM }
{
    append(to, b"day ");
    match day {
        Some(day) => append_day(to, *day),
        None => append(to, b"none"),
    }
    append(to, b"\n");
}

// What stands behind a quantity: grams or millilitres.
fn unit_word(unit: Unit) -> &'static [u8]
    ensures text { result.now ≡ told.unit_word unit }
    ensures short { length result.now ≤ 3 }
{
    match unit {
        Unit::Mass => b" g",
        Unit::Volume => b" ml",
    }
}

// Appends the tare of a product, or that it has none.
fn push_tare_now(to: &mut Vec<u8>, tare: &Option<i64>)
    requires room { HasRoom to.old MAX_WEIGHED }
    requires range { IfSome tare.now IsTare }
    ensures { Appended to.old to.new (codes " tare " ++ told.tare_word tare.now) MAX_WEIGHED }
{
    match tare {
        Some(tare) => append_weighed(to, b" tare ", tare),
        None => append(to, b" tare none"),
    }
}

// Appends the line of a product.
fn push_product(to: &mut Vec<u8>, line: &ProductLine)
    requires room { HasRoom to.old LINE_ROOM }
    requires range { IsProductInRange line.now }
    ensures { Appended to.old to.new (told.product_text line.now) LINE_ROOM }
{
    append_named(to, b"product ", &line.product);
    append_weighed(to, b" nominal ", &line.nominal);
    append(to, unit_word(line.unit));
    push_tare_now(to, &line.tare);
    append(to, b"\n");
}

// Appends the line of a tare to come.
fn push_tare(to: &mut Vec<u8>, line: &TareLine)
    requires room { HasRoom to.old LINE_ROOM }
    requires range { IsTareInRange line.now }
    ensures { Appended to.old to.new (told.tare_text line.now) LINE_ROOM }
{
    append_named(to, b"tare ", &line.product);
    append(to, b" from ");
    append_day(to, line.day);
    append_weighed(to, b" ", &line.tare);
    append(to, b"\n");
}

// Appends the state of a batch, and how many packs its population has.
fn push_standing(to: &mut Vec<u8>, state: BatchState, population: u32)
    requires room { HasRoom to.old STANDING_ROOM }
    ensures { Appended to.old to.new (told.standing_text state population) STANDING_ROOM }
{
    append(to, b" state ");
    append(to, state_word(state));
    append_numbered(to, b" population ", population);
    append(to, b"\n");
}

// Appends the line of a batch.
fn push_batch(to: &mut Vec<u8>, line: &BatchLine)
    requires room { HasRoom to.old LINE_ROOM }
    ensures { Appended to.old to.new (told.batch_text line.now) LINE_ROOM }
{
    append_named(to, b"batch ", &line.batch);
    append_named(to, b" product ", &line.product);
    push_standing(to, line.state, line.population);
}

// Appends the line of a lane.
fn push_lane(to: &mut Vec<u8>, line: &LaneLine)
    requires room { HasRoom to.old LINE_ROOM }
    ensures { Appended to.old to.new (told.lane_text line.now) LINE_ROOM }
{
    append_numbered(to, b"lane ", u32::from(line.lane));
    append_named(to, b" batch ", &line.batch);
    append(to, b"\n");
}

// Appends the line of a desk.
fn push_desk(to: &mut Vec<u8>, line: &DeskLine)
    requires room { HasRoom to.old LINE_ROOM }
    ensures { Appended to.old to.new (told.desk_text line.now) LINE_ROOM }
{
    append_numbered(to, b"desk ", u32::from(line.desk));
    append_numbered(to, b" request ", line.request);
    append(to, b"\n");
}

// Appends the line of the rows.
fn push_rows(to: &mut Vec<u8>, line: &RowsLine)
    requires room { HasRoom to.old LINE_ROOM }
    ensures { Appended to.old to.new (told.rows_text line.now) LINE_ROOM }
{
    append_numbered(to, b"rows ", line.rows);
    append_numbered(to, b" left ", line.left);
    append(to, b"\n");
}

ghost use Rattle.std.specs.Prelude.{◌≡◌, ◌≤◌, ◌++◌, ◌∷◌, OnOk, IsTrue, codes, length, pos, true};
ghost use Rattle.std.specs.Option.{option_map_or};
ghost use Rattle.std.specs.List.{join_with_byte};
ghost use Rattle.hall_units.specs.Grams.{gram_text};
ghost use Rattle.book_texts.specs.Appending.{HasRoom, Appended};
ghost use Rattle.paper_form.specs.declared.types.TheConstants.{MAX_PAPER};
ghost use Rattle.paper_form.specs.declared.types.Line.TheVariants as line;
ghost use Rattle.paper_form.specs.Papers.{line_text, unit_field, weighed_fields, is_tare_in_range, is_weighed_in_range};
ghost use Rattle.batch_paper.specs.Ranges.{is_line_right, is_nominal_right, is_pack_right, is_pick_weighed};

use book_texts::{
    MAX_WEIGHED, append, append_day, append_named, append_number, append_numbered, append_weighed,
    append_word, mode_word, push_verdict,
};
use book_words::{Unit, Verdict};
use hall_units::make_room;
use pack_judge::DatedTare;
use paper_form::{Draw, Goods, Line, MAX_PAPER, Pack, Pick, Weighed};
use std::alloc::AllocError;

/// The bytes that room is made for with each line; the longest, with two names of 32 bytes and two
/// masses, has fewer.
pub const LINE_ROOM: usize = 256;

/// The most bytes of what a pack of a sample weighed, with the blank before it.
const WEIGHED_ROOM: usize = 128;

/// Writes a line behind the text so far. A text that would be longer than may be read of a paper is
/// refused as for want of memory; no book comes near it.
pub fn write_line(to: &mut Vec<u8>, line: &Line) -> Result<(), AllocError>
    requires range { IsTrue (is_line_right line.now) }
    ensures text { OnOk result (to.new.items ≡ to.old.items ++ line_text line.now) }
    ensures short { OnOk result (length to.new.items ≤ MAX_PAPER) }
{
    if to.len() > MAX_PAPER - LINE_ROOM {
        return Err(AllocError);
    }
    make_room(to, LINE_ROOM)?;
    push_line(to, line);
    Ok(())
}

// Appends a line.
fn push_line(to: &mut Vec<u8>, line: &Line)
    requires room { HasRoom to.old LINE_ROOM }
    requires range { IsTrue (is_line_right line.now) }
    ensures { Appended to.old to.new (line_text line.now) LINE_ROOM }
{
    match line {
        Line::Title => append(to, b"paper 1\n"),
        Line::Goods(goods) => push_goods(to, goods),
        Line::Tare(dated) => push_tare(to, dated),
        Line::Pack(pack) => push_pack(to, pack),
        Line::Mode(draw) => push_mode(to, draw),
        Line::First(pick) => push_first(to, pick),
        Line::Word(word) => push_word(to, word),
        Line::Second(pick) => push_second(to, pick),
        Line::Verdict(verdict) => push_last(to, verdict),
    }
}

// The word for a unit.
fn unit_field(unit: Unit) -> &'static [u8]
    ensures text { result.now ≡ unit_field unit }
    ensures short { length result.now ≤ 2 }
{
    match unit {
        Unit::Mass => b"g",
        Unit::Volume => b"ml",
    }
}

// Appends a density in grams a litre.
fn push_density(to: &mut Vec<u8>, density: u32)
    requires { HasRoom to.old MAX_WEIGHED }
    ensures { Appended to.old to.new (codes " density " ++ gram_text (pos density)) MAX_WEIGHED }
{
    append_weighed(to, b" density ", &i64::from(density));
}

// Appends the line of the goods.
fn push_goods(to: &mut Vec<u8>, goods: &Goods)
    requires room { HasRoom to.old LINE_ROOM }
    requires range { IsTrue (is_nominal_right goods.now) }
    ensures { Appended to.old to.new (line_text (line.Goods goods.now)) LINE_ROOM }
{
    append_named(to, b"batch ", &goods.batch);
    append_named(to, b" product ", &goods.product);
    append_weighed(to, b" nominal ", &goods.nominal);
    append(to, b" unit ");
    append(to, unit_field(goods.unit));
    push_density(to, goods.density);
    append_numbered(to, b" row ", goods.row);
    append(to, b"\n");
}

// Appends the line of a tare.
fn push_tare(to: &mut Vec<u8>, dated: &DatedTare)
    requires room { HasRoom to.old LINE_ROOM }
    requires range { IsTrue (is_tare_in_range dated.now) }
    ensures { Appended to.old to.new (line_text (line.Tare dated.now)) LINE_ROOM }
{
    append(to, b"tare ");
    append_day(to, dated.day);
    append_weighed(to, b" ", &dated.tare);
    append(to, b"\n");
}

// Appends the line of a pack of the population.
fn push_pack(to: &mut Vec<u8>, pack: &Pack)
    requires room { HasRoom to.old LINE_ROOM }
    requires range { IsTrue (is_pack_right pack.now) }
    ensures { Appended to.old to.new (line_text (line.Pack pack.now)) LINE_ROOM }
{
    append_numbered(to, b"pack ", pack.number);
    append(to, b" ");
    append_day(to, pack.day);
    append_weighed(to, b" ", &pack.gross);
    append(to, b"\n");
}

// Appends the line of the mode.
fn push_mode(to: &mut Vec<u8>, draw: &Draw)
    requires room { HasRoom to.old LINE_ROOM }
    ensures { Appended to.old to.new (line_text (line.Mode draw.now)) LINE_ROOM }
{
    append(to, b"mode");
    append_word(to, mode_word(draw.mode));
    append(to, b" word ");
    append_number(to, draw.word);
    append(to, b"\n");
}

// Appends what a pack of a sample weighed, or that it wasn't measured, each field behind a blank.
fn push_weighed(to: &mut Vec<u8>, weighed: &Option<Weighed>)
    requires room { HasRoom to.old WEIGHED_ROOM }
    requires range { IsTrue (option_map_or is_weighed_in_range weighed.now true) }
    ensures { Appended to.old to.new (32 ∷ join_with_byte 32 (weighed_fields weighed.now))
        WEIGHED_ROOM }
{
    match weighed {
        Some(masses) => {
            append_weighed(to, b" gross ", &masses.gross);
            append_weighed(to, b" empty ", &masses.empty);
        }
        None => append(to, b" unmeasured"),
    }
}

// Appends the line of a pack of the first sample.
fn push_first(to: &mut Vec<u8>, pick: &Pick)
    requires room { HasRoom to.old LINE_ROOM }
    requires range { IsTrue (is_pick_weighed pick.now) }
    ensures { Appended to.old to.new (line_text (line.First pick.now)) LINE_ROOM }
{
    append_numbered(to, b"first ", pick.pack);
    push_weighed(to, &pick.weighed);
    append(to, b"\n");
}

// Appends the line of the word of a second sample.
fn push_word(to: &mut Vec<u8>, word: &u64)
    requires room { HasRoom to.old LINE_ROOM }
    ensures { Appended to.old to.new (line_text (line.Word word.now)) LINE_ROOM }
{
    append(to, b"word ");
    append_number(to, *word);
    append(to, b"\n");
}

// Appends the line of a pack of the second sample.
fn push_second(to: &mut Vec<u8>, pick: &Pick)
    requires room { HasRoom to.old LINE_ROOM }
    requires range { IsTrue (is_pick_weighed pick.now) }
    ensures { Appended to.old to.new (line_text (line.Second pick.now)) LINE_ROOM }
{
    append_numbered(to, b"second ", pick.pack);
    push_weighed(to, &pick.weighed);
    append(to, b"\n");
}

// Appends the line of the verdict.
fn push_last(to: &mut Vec<u8>, verdict: &Verdict)
    requires room { HasRoom to.old LINE_ROOM }
    ensures { Appended to.old to.new (line_text (line.Verdict verdict.now)) LINE_ROOM }
{
    append(to, b"verdict ");
    push_verdict(to, verdict);
    append(to, b"\n");
}

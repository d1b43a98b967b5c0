ghost use Rattle.std.specs.Prelude.{◌≡◌, true, IfSome};
ghost use Rattle.paper_form.specs.Ranges.{is_line_in_range};
ghost use Rattle.paper_form.specs.Lines.{fields_left, title_line, goods_line, tare_line, pack_line, mode_line, word_line, fields_line, line_of};

use crate::fields::{first_field, last_labelled, next_field, only_field};
use crate::goods::read_goods;
use crate::parts::read_verdict;
use crate::picks::{read_first, read_second};
use crate::types::{Draw, Line, Pack};
use crate::values::{read_mass, read_mode, read_row};
use hall_limits::{MAX_GROSS, MAX_TARE};
use hall_units::{read_day, read_number};
use pack_judge::DatedTare;

// `paper 1`, without its first word, as the others.
fn read_title(left: &[u8]) -> Option<Line>
    ensures value { result ≡ title_line (fields_left left.now) }
    ensures range { IfSome result (λ line. is_line_in_range line ≡ true) }
{
    let number = only_field(left)?;
    if number != b"1".as_slice() {
        return None;
    }
    Some(Line::Title)
}

// `tare DATE G`.
fn read_tare(left: &[u8]) -> Option<Line>
    ensures value { result ≡ tare_line (fields_left left.now) }
    ensures range { IfSome result (λ line. is_line_in_range line ≡ true) }
{
    let (date, left) = next_field(left)?;
    let grams = only_field(left)?;
    let day = read_day(date).ok()?;
    let tare = read_mass(&MAX_TARE, grams)?;
    Some(Line::Tare(DatedTare { day, tare }))
}

// `pack N DATE G`.
fn read_pack(left: &[u8]) -> Option<Line>
    ensures value { result ≡ pack_line (fields_left left.now) }
    ensures range { IfSome result (λ line. is_line_in_range line ≡ true) }
{
    let (number, left) = next_field(left)?;
    let (date, left) = next_field(left)?;
    let grams = only_field(left)?;
    let number = read_row(number)?;
    let day = read_day(date).ok()?;
    let gross = read_mass(&MAX_GROSS, grams)?;
    Some(Line::Pack(Pack { number, day, gross }))
}

// `mode MODE word W`.
fn read_draw(left: &[u8]) -> Option<Line>
    ensures value { result ≡ mode_line (fields_left left.now) }
    ensures range { IfSome result (λ line. is_line_in_range line ≡ true) }
{
    let (mode, left) = next_field(left)?;
    let number = last_labelled(b"word", left)?;
    let mode = read_mode(mode)?;
    let word = read_number(number)?;
    Some(Line::Mode(Draw { mode, word }))
}

// `word W`.
fn read_word(left: &[u8]) -> Option<Line>
    ensures value { result ≡ word_line (fields_left left.now) }
    ensures range { IfSome result (λ line. is_line_in_range line ≡ true) }
{
    let number = only_field(left)?;
    let word = read_number(number)?;
    Some(Line::Word(word))
}

// The line of a first word and what is left of the line behind it.
fn read_behind(word: &[u8], left: &[u8]) -> Option<Line>
    ensures value { result ≡ fields_line word.now (fields_left left.now) }
    ensures range { IfSome result (λ line. is_line_in_range line ≡ true) }
{
    if word == b"first".as_slice() {
        read_first(left)
    } else if word == b"pack".as_slice() {
        read_pack(left)
    } else if word == b"tare".as_slice() {
        read_tare(left)
    } else if word == b"second".as_slice() {
        read_second(left)
    } else if word == b"paper".as_slice() {
        read_title(left)
    } else if word == b"batch".as_slice() {
        read_goods(left)
    } else if word == b"mode".as_slice() {
        read_draw(left)
    } else if word == b"word".as_slice() {
        read_word(left)
    } else if word == b"verdict".as_slice() {
        read_verdict(left)
    } else {
        None
    }
}

/// What a line says, which comes without its LF.
pub fn read_line(text: &[u8]) -> Option<Line>
    ensures value { result ≡ line_of text.now }
    ensures range { IfSome result (λ line. is_line_in_range line ≡ true) }
{
    let (word, left) = first_field(text);
    read_behind(word, left)
}

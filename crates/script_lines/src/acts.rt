ghost use Rattle.std.specs.Prelude.{◌≡◌};
ghost use Rattle.script_lines.specs.Words.{words_of};
ghost use Rattle.script_lines.specs.Script.{day_line, product_line, tare_line, open_line};
ghost use Rattle.script_lines.specs.Script.{start_line, weigh_line, stop_line, void_line};
ghost use Rattle.script_lines.specs.Script.{end_line, draw_line, measure_line, second_line};
ghost use Rattle.script_lines.specs.Script.{close_line};

use crate::command::Verb;
use crate::fields::{read_draw_word, read_lane, read_mode, read_pack};
use crate::optional::{density_said, empty_said, prior_said, unit_said};
use crate::words::{first_word, only_word};
use book_words::Name;
use hall_units::{read_day, read_grams};

/// `day DATE`, without its first word, as the others.
pub fn day(rest: &[u8]) -> Option<Verb>
    ensures { result ≡ day_line (words_of rest.now) }
{
    let date = only_word(rest)?;
    let day = read_day(date).ok()?;
    Some(Verb::Day { day })
}

/// `product NAME GRAMS`, or `product NAME AMOUNT ml`.
pub fn product(rest: &[u8]) -> Option<Verb>
    ensures { result ≡ product_line (words_of rest.now) }
{
    let (name, rest) = first_word(rest)?;
    let (amount, rest) = first_word(rest)?;
    let name = Name::new(name)?;
    let nominal = read_grams(amount).ok()?;
    let unit = unit_said(rest)?;
    Some(Verb::Product {
        name,
        nominal,
        unit,
    })
}

/// `tare NAME DATE GRAMS`.
pub fn tare(rest: &[u8]) -> Option<Verb>
    ensures { result ≡ tare_line (words_of rest.now) }
{
    let (name, rest) = first_word(rest)?;
    let (date, rest) = first_word(rest)?;
    let grams = only_word(rest)?;
    let product = Name::new(name)?;
    let day = read_day(date).ok()?;
    let tare = read_grams(grams).ok()?;
    Some(Verb::Tare { product, day, tare })
}

/// `open BATCH NAME`, or `open BATCH NAME DENSITY`.
pub fn open_batch(rest: &[u8]) -> Option<Verb>
    ensures { result ≡ open_line (words_of rest.now) }
{
    let (batch, rest) = first_word(rest)?;
    let (name, rest) = first_word(rest)?;
    let batch = Name::new(batch)?;
    let product = Name::new(name)?;
    let density = density_said(rest)?;
    Some(Verb::Open {
        batch,
        product,
        density,
    })
}

/// `start LANE BATCH`.
pub fn start_lane(rest: &[u8]) -> Option<Verb>
    ensures { result ≡ start_line (words_of rest.now) }
{
    let (number, rest) = first_word(rest)?;
    let batch = only_word(rest)?;
    let lane = read_lane(number)?;
    let batch = Name::new(batch)?;
    Some(Verb::Start { lane, batch })
}

/// `weigh LANE GRAMS`, and perhaps a prior word.
pub fn weigh(rest: &[u8]) -> Option<Verb>
    ensures { result ≡ weigh_line (words_of rest.now) }
{
    let (number, rest) = first_word(rest)?;
    let (grams, rest) = first_word(rest)?;
    let lane = read_lane(number)?;
    let gross = read_grams(grams).ok()?;
    let prior = prior_said(rest)?;
    Some(Verb::Weigh { lane, gross, prior })
}

/// `stop LANE`, and perhaps a prior word.
pub fn stop_lane(rest: &[u8]) -> Option<Verb>
    ensures { result ≡ stop_line (words_of rest.now) }
{
    let (number, rest) = first_word(rest)?;
    let lane = read_lane(number)?;
    let prior = prior_said(rest)?;
    Some(Verb::Stop { lane, prior })
}

/// `void PACK`.
pub fn void_pack(rest: &[u8]) -> Option<Verb>
    ensures { result ≡ void_line (words_of rest.now) }
{
    let number = only_word(rest)?;
    let pack = read_pack(number)?;
    Some(Verb::Void { pack })
}

/// `end BATCH`.
pub fn end(rest: &[u8]) -> Option<Verb>
    ensures { result ≡ end_line (words_of rest.now) }
{
    let batch = only_word(rest)?;
    let batch = Name::new(batch)?;
    Some(Verb::End { batch })
}

/// `draw BATCH MODE WORD`.
pub fn draw(rest: &[u8]) -> Option<Verb>
    ensures { result ≡ draw_line (words_of rest.now) }
{
    let (batch, rest) = first_word(rest)?;
    let (mode, rest) = first_word(rest)?;
    let number = only_word(rest)?;
    let batch = Name::new(batch)?;
    let mode = read_mode(mode)?;
    let word = read_draw_word(number)?;
    Some(Verb::Draw { batch, mode, word })
}

/// `measure PACK GRAMS`, and perhaps the mass of the empty pack.
pub fn measure(rest: &[u8]) -> Option<Verb>
    ensures { result ≡ measure_line (words_of rest.now) }
{
    let (number, rest) = first_word(rest)?;
    let (grams, rest) = first_word(rest)?;
    let pack = read_pack(number)?;
    let gross = read_grams(grams).ok()?;
    let empty = empty_said(rest)?;
    Some(Verb::Measure { pack, gross, empty })
}

/// `second BATCH WORD`.
pub fn second(rest: &[u8]) -> Option<Verb>
    ensures { result ≡ second_line (words_of rest.now) }
{
    let (batch, rest) = first_word(rest)?;
    let number = only_word(rest)?;
    let batch = Name::new(batch)?;
    let word = read_draw_word(number)?;
    Some(Verb::Second { batch, word })
}

/// `close BATCH`.
pub fn close(rest: &[u8]) -> Option<Verb>
    ensures { result ≡ close_line (words_of rest.now) }
{
    let batch = only_word(rest)?;
    let batch = Name::new(batch)?;
    Some(Verb::Close { batch })
}

ghost use Rattle.std.specs.Prelude.{◌≡◌, ◌+◌, ◌≤◌, ◌^◌, ◌++◌, ◌<◌, ◌∷◌, IfSome, length, unsigned_abs, IsOk, IfOk, OnOk, OnErr, IfErr, vec_len, vec_capacity};
ghost use Rattle.std.specs.List.{prefix_len};
ghost use Rattle.std.specs.Result.{result_ok};
ghost use Rattle.std.specs.Char.{is_ascii_digit};
ghost use Rattle.hall_units.specs.Printing.{Prints};
ghost use Rattle.hall_units.specs.Grams.{milligrams_of, mass_of, numeral_of, places_of, gram_text, sign_text, three_digits, IsReadMass, IsSpelledTo};

use crate::decimal::{MAX_DECIMAL, push_number};
use crate::number::read_bounded;
use crate::push::{make_room, push_bytes};
use crate::types::{GramText, NoMemory};

// The greatest number of digits before the point that is read.
const GRAM_DIGITS: usize = 8;

// The greatest number of digits after the point: a milligram is the least mass.
const GRAM_PLACES: usize = 3;

// The number of whole grams that 8 digits reach.
const MAX_WHOLE_GRAMS: u64 = 99_999_999;

// The number of milligrams that 3 places reach.
const MAX_PLACES: u64 = 999;

/// No text of grams is longer.
pub const MAX_GRAM_TEXT: usize = MAX_DECIMAL + 5;

/// Reads a mass in grams: 1 to 8 digits, then nothing or a point and 1 to 3 digits. Answers it in
/// milligrams.
///
/// A text that isn't so spelled is refused, with the length of its longest prefix that begins some
/// spelling.
pub fn read_grams(text: &[u8]) -> Result<i64, GramText>
    ensures value { result_ok result ≡ milligrams_of text.now }
    ensures range { IfOk result IsReadMass }
    ensures place { IfErr result (λ error. IsSpelledTo text.now error.place) }
{
    let digits = count_digits(text);
    let (whole, behind) = text.split_at(digits);
    match read_mass(whole, behind) {
        Some(mg) => Ok(mg),
        None => Err(GramText {
            place: spelled_length(text, digits),
        }),
    }
}

// The mass of the whole grams and of what stands after them.
fn read_mass(whole: &[u8], behind: &[u8]) -> Option<i64>
    ensures value { result ≡ mass_of (numeral_of 8 whole.now) (places_of behind.now) }
    ensures range { IfSome result IsReadMass }
{
    let grams = read_whole(whole)?;
    let places = read_places(behind)?;
    Some((1_000 * grams + places) as i64)
}

// The number of digits with which the text begins.
fn count_digits(text: &[u8]) -> usize
    ensures value { result ≡ prefix_len is_ascii_digit text.now }
    ensures within { result ≤ length text.now }
{
    text.iter().take_while(|byte| byte.is_ascii_digit()).count()
}

// The whole grams.
fn read_whole(digits: &[u8]) -> Option<u64>
    ensures value { result ≡ numeral_of 8 digits.now }
    ensures bound { IfSome result (λ grams. grams < 10 ^ 8) }
{
    read_bounded(GRAM_DIGITS, MAX_WHOLE_GRAMS, digits)
}

// The milligrams after the whole grams.
fn read_places(behind: &[u8]) -> Option<u64>
    ensures value { result ≡ places_of behind.now }
    ensures bound { IfSome result (λ places. places < 1_000) }
{
    if behind.is_empty() {
        return Some(0);
    }
    if behind[0] != b'.' {
        return None;
    }
    let digits = &behind[1..];
    let value = read_bounded(GRAM_PLACES, MAX_PLACES, digits)?;
    Some(match digits.len() {
        1 => 100 * value,
        2 => 10 * value,
        _ => value,
    })
}

// The length of the longest prefix that begins some spelling, of a text that begins with so many
// digits.
fn spelled_length(text: &[u8], whole: usize) -> usize
    requires { whole ≡ prefix_len is_ascii_digit text.now }
    ensures { IsSpelledTo text.now result }
{
    if whole == 0 || whole > GRAM_DIGITS || whole == text.len() || text[whole] != b'.' {
        return whole.min(GRAM_DIGITS);
    }
    let places = count_digits(&text[whole + 1..]);
    whole + 1 + places.min(GRAM_PLACES)
}

/// Appends a mass as grams: a minus sign where it is negative, the whole grams, a point and three
/// digits.
///
/// With room for `MAX_GRAM_TEXT` bytes it takes no memory. A refusal changes nothing.
#[tactic(auto, unfolding(crate::specs::Grams::gram_text))]
pub fn print_grams(mg: i64, to: &mut Vec<u8>) -> Result<(), NoMemory>
    requires { unsigned_abs mg ≤ 10 ^ 15 }
    ensures prints { Prints to.old to.new result (gram_text mg) MAX_GRAM_TEXT }
    ensures read_back { IsReadMass mg → milligrams_of (gram_text mg) ≡ Some mg }
{
    make_room(to, MAX_GRAM_TEXT)?;
    push_sign(mg, to)?;
    let mass = mg.unsigned_abs();
    push_number(to, mass / 1_000)?;
    push_places(mass % 1_000, to)?;
    Ok(())
}

// Appends a minus sign where the mass is negative.
fn push_sign(mg: i64, to: &mut Vec<u8>) -> Result<(), NoMemory>
    ensures { Prints to.old to.new result (sign_text mg) 1 }
{
    if mg < 0 {
        push_bytes(to, b"-")?;
    }
    Ok(())
}

// Appends a point and the milligrams in three digits.
fn push_places(milligrams: u64, to: &mut Vec<u8>) -> Result<(), NoMemory>
    requires { milligrams < 1_000 }
    ensures { Prints to.old to.new result (46 ∷ three_digits milligrams) 4 }
{
    let places = [
        b'.',
        digit(milligrams / 100),
        digit(milligrams / 10 % 10),
        digit(milligrams % 10),
    ];
    push_bytes(to, &places)?;
    Ok(())
}

// A number below ten as its digit.
fn digit(value: u64) -> u8
    requires { value < 10 }
    ensures { result ≡ 48 + value }
{
    b'0' + value as u8
}

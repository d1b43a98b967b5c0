//! What is wrong with one word of a command.
use crate::forms::Part;
use crate::types::Reason;

/// The most bytes of a name.
const MAX_NAME: usize = 32;

/// The greatest number of a lane, of a pack, a row or a request, and of a draw that can be read.
const MAX_LANE: u64 = u8::MAX as u64;

const MAX_PACK: u64 = u32::MAX as u64;

/// The greatest number of a desk that can be read.
const MAX_DESK: u64 = u16::MAX as u64;

/// The most digits of a mass before its point, and behind it.
const MAX_DIGITS: usize = 8;

const MAX_DECIMALS: usize = 3;

// How many days the months of a year have that is no leap year.
const DAYS: [u64; 12] = [31, 28, 31, 30, 31, 30, 31, 31, 30, 31, 30, 31];

// No bytes.
const NOTHING: &[u8] = &[];

/// What is wrong with a word that should be this, where that can be said of it alone.
pub(crate) fn fault_in(part: Part, word: &[u8]) -> Option<Reason<'_>> {
    let why = match part {
        Part::Day => wrong_day(word),
        Part::Mass => wrong_mass(word),
        Part::Name if word.len() > MAX_NAME => Some("more than 32 bytes in the name"),
        Part::Lane if is_above(word, MAX_LANE) => Some("a lane is 1 to 16, not"),
        Part::Pack if is_above(word, MAX_PACK) => Some("a pack is 1 to 4294967295, not"),
        Part::Row if is_above(word, MAX_PACK) => Some("a row is 0 to 4294967295, not"),
        Part::Draw if is_above(word, u64::MAX) => {
            Some("a word of a draw is 0 to 18446744073709551615, not")
        }
        _ => None,
    }?;
    Some(Reason::Part(why, word))
}

/// What is wrong with the number of a desk.
pub(crate) fn fault_in_desk(word: &[u8]) -> Option<Reason<'_>> {
    if is_number(word) && !is_above(word, MAX_DESK) {
        return None;
    }
    Some(Reason::Part("a desk is 0 to 65535, not", word))
}

/// What is wrong with the number of a request.
pub(crate) fn fault_in_request(word: &[u8]) -> Option<Reason<'_>> {
    if is_number(word) && !is_above(word, MAX_PACK) {
        return None;
    }
    Some(Reason::Part("a request is 0 to 4294967295, not", word))
}

/// Whether a word is a number.
pub(crate) fn is_number(word: &[u8]) -> bool {
    !word.is_empty() && word.iter().all(|byte| byte.is_ascii_digit())
}

// The number that some digits spell, where 64 bits hold it.
fn number_of(digits: &[u8]) -> Option<u64> {
    str::from_utf8(digits).ok()?.parse().ok()
}

// Whether a word is a number that is too great.
fn is_above(word: &[u8], most: u64) -> bool {
    is_number(word)
        && match number_of(word) {
            Some(number) => number > most,
            None => true,
        }
}

// What is wrong with a text of grams or millilitres.
fn wrong_mass(word: &[u8]) -> Option<&'static str> {
    let place = word.iter().position(|byte| !byte.is_ascii_digit());
    let (whole, rest) = word.split_at_checked(place.unwrap_or(word.len()))?;
    match rest.first() {
        Some(b'+' | b'-') if whole.is_empty() => Some("a sign in"),
        _ if whole.len() > MAX_DIGITS => Some("more than eight digits in"),
        Some(b'.') if whole.is_empty() => Some("no digit before the point in"),
        Some(b'.') => wrong_decimals(rest.get(1..).unwrap_or(NOTHING)),
        Some(byte) if byte.is_ascii_alphabetic() && !whole.is_empty() => Some("a unit in"),
        _ => None,
    }
}

// What is wrong with what stands behind the point of a mass.
fn wrong_decimals(behind: &[u8]) -> Option<&'static str> {
    let digits = behind
        .iter()
        .take_while(|byte| byte.is_ascii_digit())
        .count();
    match behind.get(digits) {
        None if digits == 0 => Some("no digit behind the point in"),
        None if digits > MAX_DECIMALS => Some("more than three decimals in"),
        Some(byte) if byte.is_ascii_alphabetic() => Some("a unit in"),
        _ => None,
    }
}

// What is wrong with a text that has the form of a date.
fn wrong_day(word: &[u8]) -> Option<&'static str> {
    let year = number_of(date_part(word, 0, 4)?)?;
    let month = number_of(date_part(word, 5, 7)?)?;
    let day = number_of(date_part(word, 8, 10)?)?;
    let has_hyphens = word.get(4) == Some(&b'-') && word.get(7) == Some(&b'-');
    if word.len() != 10 || !has_hyphens {
        return None;
    }
    if year < 1970 {
        return Some("a day before 1970-01-01:");
    }
    let last = last_day(year, month);
    if day == 0 || last < day {
        return Some("no such day:");
    }
    None
}

// The digits of a date between two places.
fn date_part(word: &[u8], from: usize, to: usize) -> Option<&[u8]> {
    let digits = word.get(from..to)?;
    if is_number(digits) {
        Some(digits)
    } else {
        None
    }
}

// How many days a month has; none where there is no such month.
fn last_day(year: u64, month: u64) -> u64 {
    let is_leap = year % 4 == 0 && (year % 100 != 0 || year % 400 == 0);
    if month == 2 && is_leap {
        return 29;
    }
    let place = (month as usize).saturating_sub(1);
    match DAYS.get(place) {
        Some(days) if month > 0 => *days,
        _ => 0,
    }
}

ghost use Rattle.std.specs.Prelude.{◌≡◌};
ghost use Rattle.script_lines.specs.Words.{lane_in, working_lane_in, pack_in, draw_word_in, desk_in, request_in};
ghost use Rattle.script_lines.specs.Words.{density_in, mode_in, prior_in};

use annex_tables::Mode;
use book_words::Prior;
use hall_units::{read_bounded, read_grams, read_number};

/// The greatest number of digits of a number.
const NUMBER_DIGITS: usize = 20;

/// A word as the number of a lane.
pub fn read_lane(word: &[u8]) -> Option<u8>
    ensures { result ≡ lane_in word.now }
{
    let number = read_bounded(NUMBER_DIGITS, u64::from(u8::MAX), word)?;
    Some(number as u8)
}

/// A word as the number of one of so many lanes, the first of which is 1.
pub fn read_working_lane(lanes: u8, word: &[u8]) -> Option<u8>
    ensures { result ≡ working_lane_in lanes word.now }
{
    let lane = read_lane(word)?;
    if lane == 0 || lane > lanes {
        return None;
    }
    Some(lane)
}

/// A word as the number of a pack.
pub fn read_pack(word: &[u8]) -> Option<u32>
    ensures { result ≡ pack_in word.now }
{
    let number = read_bounded(NUMBER_DIGITS, u64::from(u32::MAX), word)?;
    Some(number as u32)
}

/// A word as the word of a draw.
pub fn read_draw_word(word: &[u8]) -> Option<u64>
    ensures { result ≡ draw_word_in word.now }
{
    read_number(word)
}

/// A word as the number of a desk.
pub fn read_desk(word: &[u8]) -> Option<u16>
    ensures { result ≡ desk_in word.now }
{
    let number = read_bounded(NUMBER_DIGITS, u64::from(u16::MAX), word)?;
    Some(number as u16)
}

/// A word as the number of a request.
pub fn read_request(word: &[u8]) -> Option<u32>
    ensures { result ≡ request_in word.now }
{
    let number = read_bounded(NUMBER_DIGITS, u64::from(u32::MAX), word)?;
    Some(number as u32)
}

/// A word as a density: grams a litre in the word, mg a litre in the answer.
pub fn read_density(word: &[u8]) -> Option<u32>
    ensures { result ≡ density_in word.now }
{
    let density = read_grams(word).ok()?;
    if density > i64::from(u32::MAX) {
        return None;
    }
    Some(density as u32)
}

/// A word as what becomes of the packs of a sample.
pub fn read_mode(word: &[u8]) -> Option<Mode>
    ensures { result ≡ mode_in word.now }
{
    if word == b"keep".as_slice() {
        Some(Mode::Keep)
    } else if word == b"destroy".as_slice() {
        Some(Mode::Destroy)
    } else {
        None
    }
}

/// A word as what a gate did.
pub fn read_prior(word: &[u8]) -> Option<Prior>
    ensures { result ≡ prior_in word.now }
{
    if word == b"none".as_slice() {
        Some(Prior::Nothing)
    } else if word == b"opened".as_slice() {
        Some(Prior::Opened)
    } else if word == b"stayed".as_slice() {
        Some(Prior::Stayed)
    } else if word == b"unknown".as_slice() {
        Some(Prior::Unknown)
    } else {
        None
    }
}

ghost use Rattle.std.specs.Prelude.{◌≡◌};
ghost use Rattle.script_lines.specs.Words.{words_of, unit_said, density_said, prior_said};
ghost use Rattle.script_lines.specs.Words.{empty_said};

use crate::fields::{read_density, read_prior};
use crate::words::optional_word;
use book_words::{Prior, Unit};
use hall_units::read_grams;

/// The density where none is given, in mg a litre.
const NO_DENSITY: u32 = 0;

/// How a nominal quantity is given: by volume where the last word is `ml`, by mass without a word.
pub fn unit_said(rest: &[u8]) -> Option<Unit>
    ensures { result ≡ unit_said (words_of rest.now) }
{
    match optional_word(rest)? {
        None => Some(Unit::Mass),
        Some(word) if word == b"ml".as_slice() => Some(Unit::Volume),
        Some(_) => None,
    }
}

/// A density in mg a litre, 0 without a word.
pub fn density_said(rest: &[u8]) -> Option<u32>
    ensures { result ≡ density_said (words_of rest.now) }
{
    match optional_word(rest)? {
        None => Some(NO_DENSITY),
        Some(word) => read_density(word),
    }
}

/// What a gate did, where a word says it.
pub fn prior_said(rest: &[u8]) -> Option<Option<Prior>>
    ensures { result ≡ prior_said (words_of rest.now) }
{
    let Some(word) = optional_word(rest)? else {
        return Some(None);
    };
    let prior = read_prior(word)?;
    Some(Some(prior))
}

/// The mass of an empty pack in mg, 0 without a word.
pub fn empty_said(rest: &[u8]) -> Option<i64>
    ensures { result ≡ empty_said (words_of rest.now) }
{
    match optional_word(rest)? {
        None => Some(0),
        Some(word) => read_grams(word).ok(),
    }
}

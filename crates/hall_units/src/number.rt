ghost use Rattle.std.specs.Prelude.{◌≡◌, ◌≤◌, ◌<◌, ◌^◌, length, IsTrue};
ghost use Rattle.std.specs.List.{list_all};
ghost use Rattle.std.specs.Char.{is_ascii_digit};
ghost use Rattle.std.specs.Str.Parse.{AllDigits, digits_value};
ghost use Rattle.hall_units.specs.Number.{is_numeral, bounded_number};

// The greatest number of digits of a number: those of the greatest `u64`.
const NUMBER_DIGITS: usize = 20;

/// The greatest number of digits that is read: their value fits 128 bits.
pub const MAX_DIGITS: usize = 38;

fn are_digits(text: &[u8]) -> bool
    ensures { result ≡ list_all is_ascii_digit text.now }
{
    text.iter().all(|byte| byte.is_ascii_digit())
}

fn value_of_digits(text: &[u8]) -> u128
    requires digits { AllDigits 10 text.now }
    requires short { length text.now ≤ MAX_DIGITS }
    ensures { result ≡ digits_value 10 text.now }
{
    let mut value: u128 = 0;
    for byte in text {
        value = value * 10 + u128::from(*byte - b'0');
    }
    value
}

/// The number that 1 to `most` decimal digits spell, leading zeros among them, where it is at most
/// `limit`. `None` exactly for every other text. `most` is at most `MAX_DIGITS`.
pub fn read_bounded(most: usize, limit: u64, text: &[u8]) -> Option<u64>
    requires { most ≤ MAX_DIGITS }
    ensures { result ≡ bounded_number most limit text.now }
{
    if text.is_empty() || text.len() > most || !are_digits(text) {
        return None;
    }
    let value = value_of_digits(text);
    if value > u128::from(limit) {
        return None;
    }
    Some(value as u64)
}

/// The number that 1 to 20 decimal digits spell, leading zeros among them. `None` exactly for every
/// other text and where the value doesn't fit 64 bits.
pub fn read_number(text: &[u8]) -> Option<u64>
    ensures { result ≡ bounded_number 20 u64.MAX text.now }
{
    read_bounded(NUMBER_DIGITS, u64::MAX, text)
}

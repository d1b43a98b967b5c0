ghost use Rattle.std.specs.Prelude.{◌≡◌, ◌+◌, ◌≤◌, ◌++◌, length, Some, None, if◌then◌else◌, pos, slice_range, IsOk, IfOk, OnOk, OnErr, vec_len, vec_capacity};
ghost use Rattle.std.specs.Result.{result_ok};
ghost use Rattle.hall_units.specs.Number.{bounded_number};
ghost use Rattle.jiff_core.specs.Calendar.{days_from_civil};
ghost use Rattle.jiff_core.specs.Date.{epoch_day};
ghost use Rattle.hall_units.specs.Printing.{Prints};
ghost use Rattle.hall_units.specs.Days.{day_of, day_number, day_text, is_date_form, is_day, IsDay, IsWrittenByJiff};

use crate::number::read_bounded;
use crate::push::push_bytes;
use crate::types::{DayText, NoMemory};
use jiff::civil::Date;
use jiff::fmt::temporal::DateTimePrinter;
use jiff_core::civil::Date as PlainDate;

// Days are counted from the beginning of this year, and none before it is read.
const FIRST_YEAR: u64 = 1_970;

/// The length of the text of a day.
pub const MAX_DAY_TEXT: usize = 10;

/// Reads a day: exactly ten bytes `YYYY-MM-DD` that name a date of the calendar from 1970-01-01 on.
/// Answers the days since 1970-01-01. It takes no memory.
pub fn read_day(text: &[u8]) -> Result<i32, DayText>
    ensures value { result_ok result ≡ day_of text.now }
    ensures range { IfOk result IsDay }
    ensures spelled { IfOk result (λ day. text.now ≡ day_text day) }
{
    if !has_date_form(text) {
        return Err(DayText);
    }
    read_date(text).ok_or(DayText)
}

// Whether the text has ten bytes, and hyphens after the year and the month.
fn has_date_form(text: &[u8]) -> bool
    ensures { result ≡ is_date_form text.now }
{
    text.len() == 10 && text[4] == b'-' && text[7] == b'-'
}

// The day number of the date whose year, month and day stand in ten bytes.
fn read_date(text: &[u8]) -> Option<i32>
    requires { length text.now ≡ 10 }
    ensures { result ≡ day_number
        (bounded_number 4 9999 (slice_range text.now 0 4))
        (bounded_number 2 99 (slice_range text.now 5 7))
        (bounded_number 2 99 (slice_range text.now 8 10)) }
{
    let year = read_bounded(4, 9_999, &text[0..4])?;
    let month = read_bounded(2, 99, &text[5..7])?;
    let day = read_bounded(2, 99, &text[8..10])?;
    number_of_date(year, month, day)
}

// The day number of a date, if the calendar has it and it isn't before 1970-01-01.
fn number_of_date(year: u64, month: u64, day: u64) -> Option<i32>
    requires year { year ≤ 9999 }
    requires month { month ≤ 99 }
    requires day { day ≤ 99 }
    ensures { result
        ≡ (if is_day year month day then Some (days_from_civil (pos year) month day) else None) }
{
    if year < FIRST_YEAR {
        return None;
    }
    match Date::new(year as i16, month as i8, day as i8) {
        Ok(date) => Some(date.to_plain().to_unix_epoch_day()),
        Err(_) => None,
    }
}

/// Appends a day as `YYYY-MM-DD`. Days are counted from 1970-01-01 and go to 9999-12-31.
///
/// With room for `MAX_DAY_TEXT` bytes it takes no memory. A refusal changes nothing.
pub fn print_day(day: i32, to: &mut Vec<u8>) -> Result<(), NoMemory>
    requires { IsDay day }
    ensures prints { Prints to.old to.new result (day_text day) MAX_DAY_TEXT }
    ensures read_back { day_of (day_text day) ≡ Some day }
    ensures calendar { IsWrittenByJiff day }
{
    let text = DateTimePrinter::new().date_text(date_of(day));
    push_bytes(to, text.as_bytes())
}

// The date of a day.
fn date_of(day: i32) -> PlainDate
    requires { IsDay day }
    ensures { epoch_day result ≡ day }
{
    PlainDate::from_unix_epoch_day(i64::from(day)).unwrap()
}

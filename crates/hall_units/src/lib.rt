//! The texts and fields of the hall's units: masses in grams, days, numbers, and numbers in bytes.
#![tactic(auto)]

mod days;
mod decimal;
mod fields;
mod grams;
mod number;
mod push;
mod types;

pub use days::{MAX_DAY_TEXT, print_day, read_day};
pub use decimal::{MAX_COUNT, MAX_DECIMAL, MAX_NUMBER, push_count, push_decimal, push_number};
pub use fields::{get_u16, get_u32, get_u64, put_u16, put_u32, put_u64};
pub use grams::{MAX_GRAM_TEXT, print_grams, read_grams};
pub use number::{MAX_DIGITS, read_bounded, read_number};
pub use push::{make_room, push_bytes};
pub use types::{DayText, GramText, NoMemory};

ghost use Rattle.std.specs.Prelude.{◌≤◌, ◌++◌, ◌^◌, codes, decimal, length, unsigned_abs};
ghost use Rattle.hall_units.specs.Days.{IsDay, day_text};
ghost use Rattle.hall_units.specs.Grams.{gram_text};
ghost use Rattle.book_words.specs.Names.{bytes_of};
ghost use Rattle.book_texts.specs.Appending.{HasRoom, Appended};

use book_words::Name;
use hall_limits::NAME_BYTES;
use hall_units::{
    MAX_COUNT, MAX_DAY_TEXT, MAX_GRAM_TEXT, MAX_NUMBER, print_day, print_grams, push_bytes,
    push_count, push_number,
};

/// The most bytes of a label.
pub const MAX_LABEL: usize = 16;

/// The most bytes of a label and a count.
pub const MAX_NUMBERED: usize = MAX_LABEL + MAX_COUNT;

/// The most bytes of a label and a mass.
pub const MAX_WEIGHED: usize = MAX_LABEL + MAX_GRAM_TEXT;

/// The most bytes of a label and a name.
pub const MAX_NAMED: usize = MAX_LABEL + NAME_BYTES;

/// The most bytes of a blank and a word.
pub const MAX_WORD: usize = 1 + NAME_BYTES;

/// Appends bytes.
pub fn append(to: &mut Vec<u8>, bytes: &[u8])
    requires { HasRoom to.old (length bytes.now) }
    ensures { Appended to.old to.new bytes.now (length bytes.now) }
{
    push_bytes(to, bytes).unwrap();
}

/// Appends a count in decimal digits.
pub fn append_count(to: &mut Vec<u8>, count: u32)
    requires { HasRoom to.old MAX_COUNT }
    ensures { Appended to.old to.new (decimal count) MAX_COUNT }
{
    push_count(to, count).unwrap();
}

/// Appends a number in decimal digits.
pub fn append_number(to: &mut Vec<u8>, number: u64)
    requires { HasRoom to.old MAX_NUMBER }
    ensures { Appended to.old to.new (decimal number) MAX_NUMBER }
{
    push_number(to, number).unwrap();
}

/// Appends a mass in grams.
pub fn append_grams(to: &mut Vec<u8>, mg: i64)
    requires room { HasRoom to.old MAX_GRAM_TEXT }
    requires range { unsigned_abs mg ≤ 10 ^ 15 }
    ensures { Appended to.old to.new (gram_text mg) MAX_GRAM_TEXT }
{
    print_grams(mg, to).unwrap();
}

/// Appends a day as a date.
pub fn append_day(to: &mut Vec<u8>, day: i32)
    requires room { HasRoom to.old MAX_DAY_TEXT }
    requires range { IsDay day }
    ensures { Appended to.old to.new (day_text day) MAX_DAY_TEXT }
{
    print_day(day, to).unwrap();
}

/// Appends a label and a count.
pub fn append_numbered(to: &mut Vec<u8>, label: &[u8], count: u32)
    requires room { HasRoom to.old MAX_NUMBERED }
    requires short { length label.now ≤ MAX_LABEL }
    ensures { Appended to.old to.new (label.now ++ decimal count) MAX_NUMBERED }
{
    append(to, label);
    append_count(to, count);
}

/// Appends a label and a mass in grams.
pub fn append_weighed(to: &mut Vec<u8>, label: &[u8], mg: &i64)
    requires room { HasRoom to.old MAX_WEIGHED }
    requires short { length label.now ≤ MAX_LABEL }
    requires range { unsigned_abs mg.now ≤ 10 ^ 15 }
    ensures { Appended to.old to.new (label.now ++ gram_text mg.now) MAX_WEIGHED }
{
    append(to, label);
    append_grams(to, *mg);
}

/// Appends a label and a name.
pub fn append_named(to: &mut Vec<u8>, label: &[u8], name: &Name)
    requires room { HasRoom to.old MAX_NAMED }
    requires short { length label.now ≤ MAX_LABEL }
    ensures { Appended to.old to.new (label.now ++ bytes_of name.now) MAX_NAMED }
{
    append(to, label);
    append(to, name.as_bytes());
}

/// Appends a blank and a word of at most 32 bytes.
pub fn append_word(to: &mut Vec<u8>, word: &[u8])
    requires room { HasRoom to.old MAX_WORD }
    requires short { length word.now ≤ NAME_BYTES }
    ensures { Appended to.old to.new (codes " " ++ word.now) MAX_WORD }
{
    append(to, b" ");
    append(to, word);
}

use hall_units::{
    DayText, GramText, get_u16, get_u32, get_u64, print_day, print_grams, push_count, push_decimal,
    push_number, put_u16, put_u32, put_u64, read_bounded, read_day, read_grams, read_number,
};
use std::alloc::{AllocError, Global};
use std::test::Fail;

const GRAMS: [(&str, Result<i64, GramText>); 11] = [
    ("0.5", Ok(500)),
    ("251", Ok(251_000)),
    ("00000251.05", Ok(251_050)),
    ("99999999.999", Ok(99_999_999_999)),
    ("251.0005", Err(GramText { place: 7 })),
    ("251.", Err(GramText { place: 4 })),
    ("", Err(GramText { place: 0 })),
    (".5", Err(GramText { place: 0 })),
    ("-1", Err(GramText { place: 0 })),
    ("123456789", Err(GramText { place: 8 })),
    ("251 ", Err(GramText { place: 3 })),
];

const DAYS: [(&str, Result<i32, DayText>); 9] = [
    ("1970-01-01", Ok(0)),
    ("2025-03-03", Ok(20_150)),
    ("2024-02-29", Ok(19_782)),
    ("9999-12-31", Ok(2_932_896)),
    ("2025-02-29", Err(DayText)),
    ("1969-12-31", Err(DayText)),
    ("2025-3-03", Err(DayText)),
    ("2025/03/03", Err(DayText)),
    ("2025-03-03 ", Err(DayText)),
];

const NUMBERS: [(&str, Option<u64>); 6] = [
    ("007", Some(7)),
    ("18446744073709551615", Some(u64::MAX)),
    ("18446744073709551616", None),
    ("000000000000000000001", None),
    ("", None),
    ("+1", None),
];

// Of at most 5 digits, and up to 99 990.
const BOUNDED: [(&str, Option<u64>); 10] = [
    ("", None),
    ("0", Some(0)),
    ("00012", Some(12)),
    ("99990", Some(99_990)),
    ("99991", None),
    ("000012", None),
    ("+12", None),
    ("1 2", None),
    ("12:", None),
    ("1/2", None),
];

// The first text of each table that is read as something else.
fn wrong_grams() -> Option<&'static str> {
    for (text, mg) in GRAMS {
        if read_grams(text.as_bytes()) != mg {
            return Some(text);
        }
    }
    None
}

fn wrong_day() -> Option<&'static str> {
    for (text, day) in DAYS {
        if read_day(text.as_bytes()) != day {
            return Some(text);
        }
    }
    None
}

fn wrong_number() -> Option<&'static str> {
    for (text, number) in NUMBERS {
        if read_number(text.as_bytes()) != number {
            return Some(text);
        }
    }
    None
}

fn wrong_bounded() -> Option<&'static str> {
    for (text, number) in BOUNDED {
        if read_bounded(5, 99_990, text.as_bytes()) != number {
            return Some(text);
        }
    }
    None
}

#[test]
fn texts_are_read(rt: HostRuntime) {
    assert_eq!(rt; wrong_grams(), None);
    assert_eq!(rt; wrong_day(), None);
    assert_eq!(rt; wrong_number(), None);
    assert_eq!(rt; wrong_bounded(), None);
}

const COUNT_TEXTS: [(u32, &str); 3] = [(0, "0"), (10_000, "10000"), (u32::MAX, "4294967295")];

const NUMBER_TEXTS: [(u64, &str); 3] = [
    (0, "0"),
    (4_294_967_296, "4294967296"),
    (u64::MAX, "18446744073709551615"),
];

const DECIMAL_TEXTS: [(u128, &str); 3] = [
    (0, "of 0"),
    (10_000, "of 10000"),
    (u128::MAX, "of 340282366920938463463374607431768211455"),
];

const DAY_TEXTS: [(i32, &str); 3] = [
    (0, "1970-01-01"),
    (19_782, "2024-02-29"),
    (2_932_896, "9999-12-31"),
];

// The first text of each table that is printed otherwise, where it begins without room.
fn wrong_day_text(alloc: Global) -> Result<Option<&'static str>, AllocError> {
    for (day, wanted) in DAY_TEXTS {
        let mut text = Vec::new(alloc);
        print_day(day, &mut text)?;
        if text.as_slice() != wanted.as_bytes() {
            return Ok(Some(wanted));
        }
    }
    Ok(None)
}

fn wrong_count_text(alloc: Global) -> Result<Option<&'static str>, AllocError> {
    for (count, wanted) in COUNT_TEXTS {
        let mut text = Vec::new(alloc);
        push_count(&mut text, count)?;
        if text.as_slice() != wanted.as_bytes() {
            return Ok(Some(wanted));
        }
    }
    Ok(None)
}

fn wrong_number_text(alloc: Global) -> Result<Option<&'static str>, AllocError> {
    for (number, wanted) in NUMBER_TEXTS {
        let mut text = Vec::new(alloc);
        push_number(&mut text, number)?;
        if text.as_slice() != wanted.as_bytes() {
            return Ok(Some(wanted));
        }
    }
    Ok(None)
}

fn wrong_decimal_text(alloc: Global) -> Result<Option<&'static str>, AllocError> {
    for (number, wanted) in DECIMAL_TEXTS {
        let mut text = Vec::new(alloc);
        text.extend_from_slice(b"of ")?;
        push_decimal(&mut text, number)?;
        if text.as_slice() != wanted.as_bytes() {
            return Ok(Some(wanted));
        }
    }
    Ok(None)
}

// Appends three masses and a day, with blanks between them.
fn print_all(text: &mut Vec<u8>) -> Result<(), AllocError> {
    for grams in [-1_500, 251_000, 1_000_000_000_000_000] {
        print_grams(grams, text)?;
        text.push(b' ')?;
    }
    print_day(20_150, text)
}

#[test]
fn texts_are_printed(rt: HostRuntime) -> Result<(), Fail> {
    let alloc = rt.alloc();
    assert_eq!(rt; wrong_day_text(alloc)?, None);
    assert_eq!(rt; wrong_count_text(alloc)?, None);
    assert_eq!(rt; wrong_number_text(alloc)?, None);
    assert_eq!(rt; wrong_decimal_text(alloc)?, None);
    let mut all = Vec::new(alloc);
    print_all(&mut all)?;
    assert!(rt; all.as_slice() == b"-1.500 251.000 1000000000000.000 2025-03-03".as_slice());
    Ok(())
}

#[test]
fn fields_have_their_little_end_first(rt: HostRuntime) {
    let mut bytes = [0; 15];
    put_u16(&mut bytes, 0, 0x0201);
    put_u32(&mut bytes, 2, 0x0605_0403);
    put_u64(&mut bytes, 6, 0x0E0D_0C0B_0A09_0807);
    assert!(rt; bytes == [1, 2, 3, 4, 5, 6, 7, 8, 9, 10, 11, 12, 13, 14, 0]);
    assert!(rt; get_u16(&bytes, 1) == 0x0302);
    assert!(rt; get_u32(&bytes, 1) == 0x0504_0302);
    assert!(rt; get_u64(&bytes, 1) == 0x0908_0706_0504_0302);
}

use batch_reports::{answer_text, refusal_text};
use book_core::{Book, BookError};
use book_words::{Act, Ask, Name, Unit, Want};
use std::alloc::{AllocError, Global};
use std::fmt;
use std::test::Fail;

// Appends the text of what an act of the hall is answered.
fn print_answer(book: &mut Book, act: Act, text: &mut Vec<u8>) -> Result<(), AllocError> {
    let ask = Ask {
        desk: 0,
        request: 0,
        want: Want::Act(act),
    };
    match book.ask(0, &ask) {
        Ok(answered) => answer_text(&answered, text),
        Err(BookError::Refused(refused)) => refusal_text(&refused, text),
        Err(BookError::NoMemory) => Err(AllocError),
    }
}

// Appends what some acts of the hall are answered.
fn print_answers(book: &mut Book, acts: &[Act], text: &mut Vec<u8>) -> Result<(), AllocError> {
    for act in acts {
        print_answer(book, *act, text)?;
    }
    Ok(())
}

// Appends what acts on days of which 9999-12-31 alone, 2 932 896, is one are answered: a day out of
// its range, alone and with whatever else can be wrong at the same time. No other function owns a
// book.
fn print_days(alloc: Global, product: Name, text: &mut Vec<u8>) -> Result<(), AllocError> {
    let unit = Unit::Mass;
    let acts = [
        Act::PutTare {
            product,
            day: -1,
            tare: 0,
        },
        Act::NewDay { day: -1 },
        Act::NewDay { day: 2_932_896 },
        Act::NewDay { day: -1 },
        Act::NewDay { day: 2_932_897 },
        Act::NewDay { day: i32::MAX },
        Act::PutTare {
            product,
            day: -1,
            tare: 0,
        },
        Act::PutProduct {
            name: product,
            nominal: 250_000,
            unit,
        },
        Act::PutTare {
            product,
            day: -1,
            tare: -1,
        },
        Act::PutTare {
            product,
            day: 2_932_897,
            tare: 5_000_001,
        },
    ];
    let mut book = Book::new(alloc, 10);
    let printed = print_answers(&mut book, &acts, text);
    let _ = book.rows();
    printed
}

const TEXT: &[u8] = b"\
refused 6 DayUnset at 0
refused 12 DayRange at 0
1 ok
refused 7 DayBack 9999-12-31 at 1
refused 12 DayRange at 1
refused 12 DayRange at 1
refused 9 ProductUnknown at 1
2 ok
refused 12 DayRange at 2
refused 12 DayRange at 2
";

// No line of a script spells a day that is out of its range. The text begins without room.
#[test]
fn a_day_out_of_its_range(rt: HostRuntime) -> Result<(), Fail> {
    let alloc = rt.alloc();
    let rice = Name::new(b"rice250".as_slice()).ok_or(fmt::Error)?;
    let mut text = Vec::new(alloc);
    print_days(alloc, rice, &mut text)?;
    assert_eq!(rt; text.as_slice(), TEXT);
    Ok(())
}

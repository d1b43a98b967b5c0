//! The book beside a plain reading of its rules, on drawn asks.

use crate::drawn_acts::{Draws, Names};
use crate::met::Met;
use crate::pair::{Pair, Stop};
use book_words::{Name, Question};
use hall_limits::MAX_ROWS;
use std::alloc::Global;
use std::test::Fail;

// By how many words asks are drawn.
const WORDS: u64 = 48;

// What is drawn by a word.
#[derive(Clone, Copy)]
struct Course {
    // How many asks.
    asks: u32,
    // The most rows of the book.
    limit: u32,
    // How many weighings the first batch gets.
    many: u32,
}

// A book that is full soon.
const SHORT: Course = Course {
    asks: 120,
    limit: 60,
    many: 150,
};

// A batch of more than 500 packs.
const LONG: Course = Course {
    asks: 1_200,
    limit: 1_000_000,
    many: 700,
};

// A batch of more than 100 packs, and then smaller ones.
const USUAL: Course = Course {
    asks: 500,
    limit: 1_000_000,
    many: 150,
};

// Gives drawn asks to both books.
fn ask_drawn(
    alloc: Global,
    pair: &mut Pair,
    draws: &mut Draws,
    met: &mut Met,
    asks: u32,
) -> Result<(), Stop> {
    for _turn in 0..asks {
        let ask = draws.ask(alloc, pair.plain())?;
        pair.ask(met, &ask)?;
        let number = draws.row(pair.plain().entries());
        pair.compare(&ask, number)?;
    }
    Ok(())
}

// Asks both books for the sheet and the sample of each batch, and for the balance.
fn ask_last(pair: &mut Pair, met: &mut Met, batches: &[Name]) -> Result<(), Stop> {
    for batch in batches {
        let batch = *batch;
        pair.question(met, Question::Sheet { batch })?;
        pair.question(met, Question::Sample { batch })?;
    }
    pair.question(met, Question::Summary)
}

// Gives both books what is drawn by a word.
fn fill_both(
    alloc: Global,
    pair: &mut Pair,
    met: &mut Met,
    draws: &mut Draws,
    asks: u32,
) -> Result<(), Stop> {
    ask_drawn(alloc, pair, draws, met, asks)?;
    ask_last(pair, met, &draws.names.batches)
}

// Compares two books on the asks that are drawn by a word.
fn compare_asks(alloc: Global, word: u64, names: &Names, met: &mut Met) -> Result<(), Stop> {
    let course = match word {
        0 => &LONG,
        1..=5 => &SHORT,
        _ => &USUAL,
    };
    if course.limit < 1 || course.limit > MAX_ROWS {
        return Err(Stop::Limit);
    }
    let mut pair = Pair::new(alloc, course.limit);
    let mut draws = Draws::begin(word, course.many, names);
    let compared = fill_both(alloc, &mut pair, met, &mut draws, course.asks);
    pair.close(compared)
}

#[test]
fn a_plain_reading_of_the_rules_gives_the_same_answers(rt: HostRuntime) -> Result<(), Fail> {
    let names = Names::new()?;
    let mut met = Met::nothing();
    for word in 0..WORDS {
        let compared = compare_asks(rt.alloc(), word, &names, &mut met);
        assert!(rt; compared.is_ok(), "by {word}: {compared:?}");
    }
    assert_eq!(rt; met.missing(), None);
    Ok(())
}

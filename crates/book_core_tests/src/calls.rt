use crate::begun::{MARCH_3, asked, entry_of, named, pass, setup, take_all, take_from, weigh};
use annex_tables::Mode;
use book_core::{Book, BookError, Step};
use book_words::{
    Act, ActView, Answered, BatchState, Entry, LaneView, Name, PackView, Prior, Question, Reply,
    RowsView, Sheet, SummaryView, TestView, Unit,
};
use pack_judge::{Class, Pile, Signal, Tally};
use std::alloc::Global;
use std::test::Fail;

const NOTHING: Tally = Tally { count: 0, gross: 0 };

const BOTH: Tally = Tally {
    count: 2,
    gross: 522_000,
};

// Whether an act was made ready as this row, with this entry.
fn is_new(step: &Step, row: u32, entry: &Entry) -> bool {
    match step {
        Step::New(ready) => ready.number() == row && *ready.entry() == *entry,
        Step::Known(_) => false,
    }
}

// Whether a weighing on the lane 1 is made ready as this row.
fn is_ready(book: &mut Book, act: &Act, row: u32) -> Result<bool, BookError> {
    let step = book.ready(1, &asked(0, 0, act), act)?;
    Ok(is_new(&step, row, &entry_of(*act, Signal::Pass)))
}

// What an act of the lane 1 is told that is made ready and entered.
fn enter_ready(book: &mut Book, act: &Act) -> Result<Answered, BookError> {
    match book.ready(1, &asked(0, 0, act), act)? {
        Step::New(ready) => Ok(book.enter(ready)),
        Step::Known(answered) => Ok(answered),
    }
}

// Takes room for two weighings, makes the first ready and enters both; says whether each call
// answers what it has to.
fn are_weighed(book: &mut Book, first: &Act, second: &Act) -> bool {
    book.reserve(2).is_ok()
        && is_ready(book, first, 6) == Ok(true)
        && enter_ready(book, first) == Ok(pass(6))
        && enter_ready(book, second) == Ok(pass(7))
}

// Whether both are seen in the book.
fn are_seen(book: &Book, second: Act) -> bool {
    let Some(pack) = book.pack(7) else {
        return false;
    };
    pack.pile == Pile::Passed
        && book.len() == 7
        && book.unsettled(1) == Some(7)
        && book.entry(7) == Some(entry_of(second, Signal::Pass))
        && book.entry(8).is_none()
        && book.summary().readings == BOTH
}

// Stops the lane, ends the batch and draws its two packs by the word 0.
fn draw_pair(book: &mut Book, batch: Name) {
    let prior = Prior::Opened;
    let mode = Mode::Keep;
    let acts = [
        Act::StopLane { lane: 1, prior },
        Act::EndRun { batch },
        Act::Draw {
            batch,
            mode,
            word: 0,
        },
    ];
    take_all(book, &acts);
}

// The second pack of two, of 262 g, on the lane 1.
fn second_pack(batch: Name, product: Name) -> PackView {
    PackView {
        pack: 7,
        batch,
        product,
        lane: 1,
        day: MARCH_3,
        gross: 262_000,
        net: 252_000,
        class: Class::Standard,
        signal: Signal::Pass,
        pile: Pile::Sampled,
    }
}

// Two packs are both drawn, and their nets are 250 g and 252 g.
fn sheet_of_both(batch: Name, product: Name) -> Sheet {
    Sheet {
        batch,
        product,
        nominal: 250_000,
        unit: Unit::Mass,
        tne: 9_000,
        density: 0,
        state: BatchState::Drawn,
        readings: BOTH,
        passed: NOTHING,
        rejected: NOTHING,
        sampled: BOTH,
        voided: NOTHING,
        population: 2,
        net: 502_000,
        nonstandard: 0,
        inadequate: 0,
        held: false,
        test: Some(TestView {
            mode: Mode::Keep,
            first: 2,
            measured1: 0,
            d1: 0,
            second: 0,
            measured2: 0,
            d2: 0,
        }),
        verdict: None,
    }
}

fn summary_of_both() -> SummaryView {
    SummaryView {
        rows: 10,
        readings: BOTH,
        passed: NOTHING,
        rejected: NOTHING,
        sampled: BOTH,
        voided: NOTHING,
        running: 0,
        ended: 0,
        drawn: 1,
        closed: 0,
    }
}

// Whether the sample of a batch is these packs, with no second one.
fn is_sample(book: &Book, batch: Name, packs: &[u64]) -> bool {
    match book.look(&Question::Sample { batch }) {
        Ok(
            Answered {
                reply: Reply::SampleIs(view),
                ..
            },
        ) => view.first.as_slice() == packs && view.second.is_empty(),
        _ => false,
    }
}

// Whether a page is these rows, behind so many.
fn is_page(view: &RowsView, before: u32, rows: &[ActView]) -> bool {
    view.before == before && view.acts.as_slice() == rows
}

// Whether the rows behind so many are these, and the same to be shipped.
fn are_rows(book: &Book, after: u32, before: u32, rows: &[ActView]) -> bool {
    let told = match book.look(&Question::Rows { after }) {
        Ok(
            Answered {
                at: 10,
                reply: Reply::RowsAre(view),
            },
        ) => is_page(&view, before, rows),
        _ => false,
    };
    let shipped = match book.look(&Question::Shipment { after }) {
        Ok(
            Answered {
                at: 10,
                reply: Reply::ShipmentIs(view),
            },
        ) => is_page(&view, before, rows),
        _ => false,
    };
    told && shipped
}

// A row of the hall itself as it is told.
fn row_of(row: u32, act: Act) -> ActView {
    ActView {
        row,
        entry: Entry {
            by: 0,
            desk: 0,
            request: 0,
            act,
            signal: None,
        },
        verdict: None,
    }
}

// Whether the rows behind the first eight are told as they were accepted, and none behind all.
fn are_last_rows(book: &Book, batch: Name) -> bool {
    let mode = Mode::Keep;
    let rows = [
        row_of(9, Act::EndRun { batch }),
        row_of(
            10,
            Act::Draw {
                batch,
                mode,
                word: 0,
            },
        ),
    ];
    are_rows(book, 8, 8, &rows) && are_rows(book, 10, 10, &[]) && are_rows(book, 11, 10, &[])
}

// Whether the packs of a batch above a number are these.
fn are_packs(book: &Book, batch: Name, after: u32, packs: &[PackView]) -> bool {
    match book.look(&Question::Packs { batch, after }) {
        Ok(
            Answered {
                at: 10,
                reply: Reply::PacksAre(view),
            },
        ) => view.packs.as_slice() == packs,
        _ => false,
    }
}

// Whether a question on the drawn batch is told this reply.
fn is_told(book: &Book, question: &Question, reply: &Reply) -> bool {
    match book.look(question) {
        Ok(answered) => answered.at == 10 && answered.reply == *reply,
        Err(_) => false,
    }
}

// Whether each question on the drawn batch is told what it has to be.
fn are_told(book: &Book, batch: Name, product: Name) -> bool {
    let idle = LaneView {
        lane: 1,
        batch: None,
        unsettled: None,
    };
    let sheet = Reply::SheetIs(sheet_of_both(batch, product));
    let second = second_pack(batch, product);
    is_told(book, &Question::Sheet { batch }, &sheet)
        && is_told(book, &Question::Pack { pack: 7 }, &Reply::PackIs(second))
        && are_packs(book, batch, 6, &[second])
        && are_packs(book, batch, 7, &[])
        && is_told(book, &Question::Lane { lane: 1 }, &Reply::LaneIs(idle))
        && is_told(
            book,
            &Question::Summary,
            &Reply::SummaryIs(summary_of_both()),
        )
}

// Asks a book all that it can be asked, and says whether each call answers what it has to. The word
// 0 becomes 1442695040888963407, whose upper 31 bits are the odd number 167951807: of two packs the
// second is drawn first.
fn is_right(book: &mut Book, batch: Name, product: Name) -> bool {
    let first = weigh(260_000, Prior::Nothing);
    let second = weigh(262_000, Prior::Opened);
    take_all(book, &setup(product, batch));
    if !are_weighed(book, &first, &second) || !are_seen(book, second) {
        return false;
    }
    draw_pair(book, batch);
    is_sample(book, batch, &[7, 6]) && are_told(book, batch, product) && are_last_rows(book, batch)
}

// Whether an act of the desk 101, at its request 1, is known to stand in the row 11.
fn is_known(book: &mut Book, act: &Act, at: u32) -> bool {
    match book.ready(2, &asked(101, 1, act), act) {
        Ok(Step::Known(answered)) => {
            answered.at == at && answered.reply == Reply::Done { row: 11 }
        }
        _ => false,
    }
}

// Whether the desk's act in the row 11 is told again what it was told, behind another act too. A
// repeat adds no row.
fn is_told_again(book: &mut Book) -> bool {
    let day = Act::NewDay { day: MARCH_3 };
    take_from(book, 101, 1, &day);
    let once = is_known(book, &day, 11);
    take_from(book, 0, 0, &day);
    once && is_known(book, &day, 12)
}

// Asks a new book so, and tells how many rows it gives back. No other function owns a book.
fn rows_given_back(alloc: Global, batch: Name, product: Name) -> (bool, usize) {
    let mut book = Book::new(alloc, 100);
    let right = is_right(&mut book, batch, product) && is_told_again(&mut book);
    (right, book.rows().as_slice().len())
}

#[test]
fn each_call_of_a_book(rt: HostRuntime) -> Result<(), Fail> {
    let rice = named(b"rice250".as_slice())?;
    let batch = named(b"A".as_slice())?;
    assert!(rt; rows_given_back(rt.alloc(), batch, rice) == (true, 12));
    Ok(())
}

use annex_tables::Mode;
use batch_paper::{PaperError, paper_of_book, write_paper};
use book_core::{Book, BookError};
use book_words::{Act, Ask, BatchState, Name, Prior, Unit, Verdict, Want};
use paper_check::check_paper;
use std::alloc::{AllocError, Global};
use std::fmt;

// Asks an act of the hall; whether it is accepted.
fn ask(book: &mut Book, act: Act) -> Result<bool, AllocError> {
    let ask = Ask {
        desk: 0,
        request: 0,
        want: Want::Act(act),
    };
    match book.ask(0, &ask) {
        Ok(_) => Ok(true),
        Err(BookError::Refused(_)) => Ok(false),
        Err(BookError::NoMemory) => Err(AllocError),
    }
}

// A book of which these acts were asked.
fn book_of(alloc: Global, acts: &[Act]) -> Result<Book, AllocError> {
    let mut book = Book::new(alloc, 100);
    for act in acts {
        let _ = ask(&mut book, *act)?;
    }
    Ok(book)
}

// What the paper of a batch says, or why there is none.
fn says(alloc: Global, acts: &[Act], batch: &Name, text: &[u8]) -> Result<bool, PaperError> {
    let book = book_of(alloc, acts)?;
    let paper = paper_of_book(alloc, &book, batch)?;
    Ok(paper.as_bytes() == text)
}

// What the paper of a batch says by the rows alone, or why there is none.
fn rows_say(alloc: Global, acts: &[Act], batch: &Name, text: &[u8]) -> Result<bool, PaperError> {
    let rows = book_of(alloc, acts)?.rows();
    let paper = write_paper(alloc, &rows, batch)?;
    Ok(paper.as_bytes() == text)
}

// What the check of the paper of a batch answers, where it has one.
fn checked(alloc: Global, acts: &[Act], batch: &Name) -> Option<Verdict> {
    let book = book_of(alloc, acts).ok()?;
    let paper = paper_of_book(alloc, &book, batch).ok()?;
    check_paper(alloc, paper.as_bytes()).ok()
}

// A day, a product of 250 g with a tare of 10 g, and a batch of it with two lanes.
fn begun(product: Name, batch: Name) -> [Act; 6] {
    [
        Act::NewDay { day: 20_150 },
        Act::PutProduct {
            name: product,
            nominal: 250_000,
            unit: Unit::Mass,
        },
        Act::PutTare {
            product,
            day: 20_150,
            tare: 10_000,
        },
        Act::OpenBatch {
            batch,
            product,
            density: 0,
        },
        Act::StartLane { lane: 1, batch },
        Act::StartLane { lane: 2, batch },
    ]
}

// A third lane, two packs of 261.014 g and 260.587 g, and no lane any more.
fn weighed(batch: Name) -> [Act; 6] {
    [
        Act::StartLane { lane: 3, batch },
        Act::Weigh {
            lane: 1,
            gross: 261_014,
            prior: Prior::Nothing,
        },
        Act::Weigh {
            lane: 2,
            gross: 260_587,
            prior: Prior::Nothing,
        },
        Act::StopLane {
            lane: 1,
            prior: Prior::Opened,
        },
        Act::StopLane {
            lane: 2,
            prior: Prior::Opened,
        },
        Act::StopLane {
            lane: 3,
            prior: Prior::Nothing,
        },
    ]
}

// Its packs drawn by the word 0, measured as they were weighed, and its closing.
fn tested(batch: Name) -> [Act; 5] {
    [
        Act::EndRun { batch },
        Act::Draw {
            batch,
            mode: Mode::Keep,
            word: 0,
        },
        Act::Measure {
            pack: 9,
            gross: 260_587,
            empty: 0,
        },
        Act::Measure {
            pack: 8,
            gross: 261_014,
            empty: 0,
        },
        Act::Close { batch },
    ]
}

// The paper of the batch of the trial of 0 and 2.
const TRIAL: &[u8] = b"\
paper 1
batch T1 product trial nominal 250.000 unit g density 1000.000 row 17
tare 2025-03-03 10.000
pack 8 2025-03-03 261.014
pack 9 2025-03-03 260.587
mode keep word 0
first 9 gross 260.587 empty 0.000
first 8 gross 261.014 empty 0.000
verdict released
";

// The paper of a batch that was closed without a pack.
const EMPTY: &[u8] = b"\
paper 1
batch T1 product trial nominal 250.000 unit g density 1000.000 row 10
verdict empty
";

#[test]
fn paper_of_a_trial(rt: HostRuntime) -> fmt::Result {
    let product = Name::new(b"trial".as_slice()).ok_or(fmt::Error)?;
    let batch = Name::new(b"T1".as_slice()).ok_or(fmt::Error)?;
    let mut acts = Vec::from_slice(rt.alloc(), &begun(product, batch)).map_err(|_| fmt::Error)?;
    acts.extend_from_slice(&weighed(batch))
        .map_err(|_| fmt::Error)?;
    acts.extend_from_slice(&tested(batch))
        .map_err(|_| fmt::Error)?;
    assert!(rt; says(rt.alloc(), &acts, &batch, TRIAL) == Ok(true));
    assert!(rt; rows_say(rt.alloc(), &acts, &batch, TRIAL) == Ok(true));
    assert!(rt; checked(rt.alloc(), &acts, &batch) == Some(Verdict::Released));
    assert!(rt;
        says(rt.alloc(), &acts[..16], &batch, TRIAL)
            == Err(PaperError::NotClosed {
                state: BatchState::Drawn
            })
    );
    assert!(rt; says(rt.alloc(), &acts, &product, TRIAL) == Err(PaperError::Unknown));
    Ok(())
}

#[test]
fn paper_of_no_pack(rt: HostRuntime) -> fmt::Result {
    let product = Name::new(b"trial".as_slice()).ok_or(fmt::Error)?;
    let batch = Name::new(b"T1".as_slice()).ok_or(fmt::Error)?;
    let mut acts = Vec::from_slice(rt.alloc(), &begun(product, batch)).map_err(|_| fmt::Error)?;
    let closing = [
        Act::StopLane {
            lane: 1,
            prior: Prior::Nothing,
        },
        Act::StopLane {
            lane: 2,
            prior: Prior::Nothing,
        },
        Act::EndRun { batch },
        Act::Close { batch },
    ];
    acts.extend_from_slice(&closing).map_err(|_| fmt::Error)?;
    assert!(rt; says(rt.alloc(), &acts, &batch, EMPTY) == Ok(true));
    assert!(rt; rows_say(rt.alloc(), &acts, &batch, EMPTY) == Ok(true));
    assert!(rt; checked(rt.alloc(), &acts, &batch) == Some(Verdict::Empty));
    Ok(())
}

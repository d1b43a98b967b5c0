use book_words::{BatchState, Name, Refusal};
use pack_judge::Pile;
use std::test::Fail;

const LONGEST: [u8; 32] = *b"rice250-rice250-rice250-0123456.";

const TOO_LONG: [u8; 33] = *b"rice250-rice250-rice250-0123456.7";

#[test]
fn names_of_1_to_32_bytes(rt: HostRuntime) -> Result<(), Fail> {
    let longest = Name::new(&LONGEST).ok_or(std::fmt::Error)?;
    assert!(rt; longest.as_bytes() == LONGEST.as_slice());
    assert!(rt; Name::new(&TOO_LONG).is_none());
    assert!(rt; Name::new(&[]).is_none());
    let a = Name::new(&[65]).ok_or(std::fmt::Error)?;
    let a_and_zero = Name::new(&[65, 0]).ok_or(std::fmt::Error)?;
    assert!(rt; a.is(&a));
    assert!(rt; !a.is(&a_and_zero));
    assert!(rt; a.as_bytes() == [65].as_slice());
    Ok(())
}

// A refusal with its number and its name.
type Row = (u8, Refusal, &'static str);

// Refusals that say no name of a product or a batch.
const NAMELESS: [Row; 32] = [
    (1, Refusal::DeskNumber, "DeskNumber"),
    (2, Refusal::RequestOld { last: 1 }, "RequestOld"),
    (3, Refusal::RequestReused { row: 1 }, "RequestReused"),
    (4, Refusal::RequestGap { last: 1 }, "RequestGap"),
    (5, Refusal::BookFull { limit: 1 }, "BookFull"),
    (6, Refusal::DayUnset, "DayUnset"),
    (7, Refusal::DayBack { last: 1 }, "DayBack"),
    (8, Refusal::ProductKnown, "ProductKnown"),
    (9, Refusal::ProductUnknown, "ProductUnknown"),
    (10, Refusal::NameShape, "NameShape"),
    (11, Refusal::NominalRange, "NominalRange"),
    (12, Refusal::DayRange, "DayRange"),
    (13, Refusal::BatchKnown, "BatchKnown"),
    (14, Refusal::BatchUnknown, "BatchUnknown"),
    (
        15,
        Refusal::BatchState {
            state: BatchState::Ended,
        },
        "BatchState",
    ),
    (16, Refusal::LaneNumber, "LaneNumber"),
    (18, Refusal::LaneIdle, "LaneIdle"),
    (20, Refusal::GrossRange, "GrossRange"),
    (21, Refusal::PriorWrong { wanted: true }, "PriorWrong"),
    (22, Refusal::LanesRunning { lane: 1 }, "LanesRunning"),
    (23, Refusal::TareRange, "TareRange"),
    (24, Refusal::PackUnknown, "PackUnknown"),
    (25, Refusal::PackPile { pile: Pile::Voided }, "PackPile"),
    (26, Refusal::Unsettled { lane: 1 }, "Unsettled"),
    (27, Refusal::BatchEmpty, "BatchEmpty"),
    (28, Refusal::ModeSmall { n: 1 }, "ModeSmall"),
    (29, Refusal::NotDrawn, "NotDrawn"),
    (30, Refusal::MeasuredAlready { value: 1 }, "MeasuredAlready"),
    (31, Refusal::SecondNotNeeded { d1: 1 }, "SecondNotNeeded"),
    (32, Refusal::Unmeasured { pack: 1 }, "Unmeasured"),
    (33, Refusal::SecondNeeded { d1: 1 }, "SecondNeeded"),
    (35, Refusal::DensityRange, "DensityRange"),
];

// The first of some refusals that has another number or name.
fn wrong_refusal(rows: &[Row]) -> Option<&'static str> {
    for (number, refusal, text) in rows {
        if refusal.number() != *number || refusal.name() != *text {
            return Some(text);
        }
    }
    None
}

#[test]
fn refusals_have_numbers_and_names(rt: HostRuntime) -> Result<(), Fail> {
    let name = Name::new(&[65]).ok_or(std::fmt::Error)?;
    let naming = [
        (17, Refusal::LaneBusy { batch: name }, "LaneBusy"),
        (19, Refusal::NoTare { product: name }, "NoTare"),
        (34, Refusal::TareFrozen { batch: name }, "TareFrozen"),
    ];
    assert_eq!(rt; wrong_refusal(&NAMELESS), None);
    assert_eq!(rt; wrong_refusal(&naming), None);
    Ok(())
}

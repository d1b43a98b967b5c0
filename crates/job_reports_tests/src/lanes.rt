use book_words::{Refusal, Refused};
use job_reports::lane_text;
use lane_worker::{LaneEnd, LaneStop};
use std::alloc::{AllocError, Global};
use std::test::Fail;

// A lane, how often its gate opened, how its work came to its end, and its line.
type Row = (u8, u32, LaneStop, &'static [u8]);

const ROWS: [Row; 12] = [
    (1, 2, LaneStop::Done, b"lane 1 opened 2 done\n"),
    (1, 0, LaneStop::Gate, b"lane 1 opened 0 gate\n"),
    (2, 10, LaneStop::Cell, b"lane 2 opened 10 cell\n"),
    (3, 1, LaneStop::Bad { line: 7 }, b"lane 3 opened 1 bad 7\n"),
    (
        16,
        u32::MAX,
        LaneStop::Bad { line: u32::MAX },
        b"lane 16 opened 4294967295 bad 4294967295\n",
    ),
    (
        17,
        0,
        LaneStop::Refused(Refused {
            at: 5,
            refusal: Refusal::LaneNumber,
        }),
        b"lane 17 opened 0 refused 16 at 5\n",
    ),
    (
        255,
        u32::MAX,
        LaneStop::Refused(Refused {
            at: u32::MAX,
            refusal: Refusal::BookFull { limit: u32::MAX },
        }),
        b"lane 255 opened 4294967295 refused 5 at 4294967295\n",
    ),
    (1, 3, LaneStop::DiskFault, b"lane 1 opened 3 disk\n"),
    (0, 0, LaneStop::NoMemory, b"lane 0 opened 0 memory\n"),
    (1, 4, LaneStop::Turns, b"lane 1 opened 4 turns\n"),
    (
        4,
        9,
        LaneStop::Idle { weights: 1 },
        b"lane 4 opened 9 idle 1\n",
    ),
    (
        4,
        9,
        LaneStop::Idle { weights: u32::MAX },
        b"lane 4 opened 9 idle 4294967295\n",
    ),
];

// The place of the first row whose line is another. Each begins without room.
fn first_wrong(alloc: Global) -> Result<Option<usize>, AllocError> {
    for (place, (lane, opened, stop, line)) in ROWS.iter().enumerate() {
        let end = LaneEnd {
            opened: *opened,
            stop: *stop,
        };
        let mut text = Vec::new(alloc);
        lane_text(*lane, &end, &mut text)?;
        if text.as_slice() != *line {
            return Ok(Some(place));
        }
    }
    Ok(None)
}

#[test]
fn each_end_of_a_lane(rt: HostRuntime) -> Result<(), Fail> {
    assert_eq!(rt; first_wrong(rt.alloc())?, None);
    Ok(())
}

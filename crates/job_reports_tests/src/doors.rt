use job_reports::door_text;
use office_door::{DoorEnd, DoorStop};
use std::alloc::{AllocError, Global};
use std::test::Fail;

// A door, how many requests it took, how many of its connections a fault of the link ended, why it
// served no more, and its line.
type Row = (u8, u32, u32, DoorStop, &'static [u8]);

const ROWS: [Row; 5] = [
    (1, 12, 0, DoorStop::Done, b"door 1 served 12 links 0 done\n"),
    (2, 0, 0, DoorStop::Door, b"door 2 served 0 links 0 door\n"),
    (16, 3, 2, DoorStop::Door, b"door 16 served 3 links 2 door\n"),
    (
        1,
        0,
        0,
        DoorStop::NoMemory,
        b"door 1 served 0 links 0 memory\n",
    ),
    (
        255,
        u32::MAX,
        u32::MAX,
        DoorStop::Turns,
        b"door 255 served 4294967295 links 4294967295 turns\n",
    ),
];

// The place of the first row whose line is another. Each begins without room.
fn first_wrong(alloc: Global) -> Result<Option<usize>, AllocError> {
    for (place, (door, served, links, stop, line)) in ROWS.iter().enumerate() {
        let end = DoorEnd {
            served: *served,
            links: *links,
            stop: *stop,
        };
        let mut text = Vec::new(alloc);
        door_text(*door, &end, &mut text)?;
        if text.as_slice() != *line {
            return Ok(Some(place));
        }
    }
    Ok(None)
}

#[test]
fn each_end_of_a_door(rt: HostRuntime) -> Result<(), Fail> {
    assert_eq!(rt; first_wrong(rt.alloc())?, None);
    Ok(())
}

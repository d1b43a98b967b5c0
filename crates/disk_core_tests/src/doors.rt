use disk_core::{Door, Failed, ListDoor, NoMemory, Sink, Source};
use std::alloc::Global;
use std::test::Fail;

// A call of a door.
#[derive(Clone, Copy)]
enum Call {
    Next,
    Read,
    Write(&'static [u8]),
}

// A door to the connections `abc` and `d`: its calls, and what each answers. For `Next` that is how
// many connections it found.
const CALLS: [(Call, usize); 12] = [
    (Call::Read, 0),
    (Call::Next, 1),
    (Call::Read, 2),
    (Call::Write(b"xy"), 2),
    (Call::Read, 1),
    (Call::Read, 0),
    (Call::Write(b"z"), 1),
    (Call::Next, 1),
    (Call::Write(b"u"), 1),
    (Call::Next, 0),
    (Call::Read, 0),
    (Call::Write(b""), 0),
];

// What is taken from each connection by these calls, and written to it.
const SAID: [(Option<&[u8]>, Option<&[u8]>); 3] = [
    (Some(b"abc"), Some(b"xyz")),
    (Some(b""), Some(b"u")),
    (None, None),
];

fn door(alloc: Global, fails: Vec<u32>) -> Result<ListDoor, NoMemory> {
    let connections = vec![in alloc; b"abc".to_vec(alloc)?, b"d".to_vec(alloc)?]?;
    Ok(ListDoor::new(alloc, connections, fails))
}

// Reads on, but not past the end.
fn read(door: &mut ListDoor) -> Result<usize, Failed> {
    if door.has_ended() {
        return Err(Failed);
    }
    door.read(&mut [0; 2])
}

fn make(door: &mut ListDoor, call: Call) -> Result<usize, Failed> {
    match call {
        Call::Next => match door.next() {
            Ok(found) => Ok(usize::from(found)),
            Err(Failed) => Err(Failed),
        },
        Call::Read => read(door),
        Call::Write(bytes) => door.write(bytes),
    }
}

// Makes the calls, and once more one that failed. Tells the number of that call, or 0, and nothing
// where an answer is wrong.
fn failed_call(door: &mut ListDoor) -> Option<usize> {
    let mut failed = 0;
    for (place, (call, answer)) in CALLS.iter().enumerate() {
        let mut got = make(door, *call);
        if got == Err(Failed) {
            failed = place + 1;
            got = make(door, *call);
        }
        if got != Ok(*answer) {
            return None;
        }
    }
    Some(failed)
}

// The place of the first connection of which the door tells anything else.
fn wrong_connection(door: &ListDoor) -> Option<usize> {
    for (place, (taken, written)) in SAID.iter().enumerate() {
        if door.taken(place) != *taken || door.written(place) != *written {
            return Some(place);
        }
    }
    None
}

// A door whose call of this number fails; it is made again and changes nothing else.
fn fails_at(alloc: Global, number: u32) -> Result<bool, NoMemory> {
    let mut door = door(alloc, vec![in alloc; number]?)?;
    Ok(failed_call(&mut door) == Some(number as usize) && wrong_connection(&door).is_none())
}

#[test]
fn doors_fail_where_it_is_listed_and_nowhere_else(rt: HostRuntime) -> Result<(), Fail> {
    let alloc = rt.alloc();
    for number in 1..=12 {
        assert!(rt; fails_at(alloc, number)?, "at call {number}");
    }
    let mut door = door(alloc, Vec::new(alloc))?;
    assert!(rt; failed_call(&mut door) == Some(0));
    assert!(rt; wrong_connection(&door).is_none());
    assert!(rt; door.write(b"v") == Err(Failed));
    Ok(())
}

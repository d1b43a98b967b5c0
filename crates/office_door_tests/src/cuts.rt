use crate::halls::open_hall;
use device_facts::counted_once_more;
use disk_core::{Door, Failed, Sink, Source};
use office_door::serve_door;
use std::alloc::Global;
use std::test::Fail;

// Two requests, one behind the other.
const BOTH: &[u8] = b"POST /acts HTTP/1.1\r\nContent-Length: 68\r\n\r\n\
{\"act\":\"product\",\"desk\":101,\"request\":1,\"name\":\"a\",\"nominal\":250000}\
GET /lanes/1 HTTP/1.1\r\nConnection: Close\r\n\r\n";

const NOTHING: &[u8] = b"";

const ANSWERS: &[u8] = b"HTTP/1.1 200 OK\r\nContent-Type: application/json\r\n\
Content-Length: 9\r\nBook-Row: 2\r\n\r\n{\"row\":2}\
HTTP/1.1 200 OK\r\nContent-Type: text/plain\r\nContent-Length: 12\r\nBook-Row: 2\r\n\
Connection: close\r\n\r\nlane 1 idle\n";

// A door to one connection, whose bytes come in two reads: those before a place, and those behind
// it.
#[derive(Drop)]
struct CutDoor {
    front: &'static [u8],
    back: &'static [u8],
    waits: bool,
    ended: bool,
    written: Vec<u8>,
    faults: u64,
}

impl Source for CutDoor {
    ghost use Rattle.std.specs.Prelude.{None};
    ghost use Rattle.device_facts.specs.Frame.{NothingElse, nothing_else};

    ghost left = { λ _. None };

    ghost ended = { λ d. d.ended };

    ghost faults = { λ d. d.faults };

    ghost keeps_rest = { NothingElse };

    ghost frame = { nothing_else };

    fn read(&mut self, into: &mut [u8]) -> Result<usize, Failed> {
        if self.front.is_empty() {
            self.front = self.back;
            self.back = NOTHING;
        }
        let count = self.front.len().min(into.len());
        let (first, rest) = self.front.split_at(count);
        into[..count].copy_from_slice(first);
        self.front = rest;
        self.ended = count == 0 && !into.is_empty();
        Ok(count)
    }
}

impl Sink for CutDoor {
    ghost use Rattle.std.specs.Prelude.{◌≡◌, None, refl};
    ghost use Rattle.std.proofs.Common.{◌∙◌};

    ghost held = { λ _. None };

    ghost faults = { λ d. d.faults };

    ghost keeps_rest = { λ old new. new.ended ≡ old.ended };

    ghost frame = { record { none = λ d. refl; both = λ a b c first second. second ∙ first } };

    fn write(&mut self, bytes: &[u8]) -> Result<usize, Failed> {
        if self.written.extend_from_slice(bytes).is_err() {
            self.faults = counted_once_more(self.faults);
            return Err(Failed);
        }
        Ok(bytes.len())
    }
}

impl Door for CutDoor {
    ghost use Rattle.std.specs.Prelude.{None, refl};

    ghost connections = { λ _. None };

    ghost missed = { λ _. 0 };

    ghost source_left = { λ d. refl };

    ghost sink_held = { λ d. refl };

    ghost one_count = { λ d. refl };

    ghost read_adds = { λ old new bytes same parts. refl };

    ghost write_adds = { λ old new bytes same grown. refl };

    ghost write_leaves_end = { λ old new same. same };

    ghost read_misses_none = { λ old new same. refl };

    ghost write_misses_none = { λ old new same. refl };

    fn next(&mut self) -> Result<bool, Failed> {
        let found = self.waits;
        self.waits = false;
        self.ended = false;
        Ok(found)
    }
}

// Whether the requests are answered the same where they are cut at a place.
fn cut_right(alloc: Global, place: usize) -> Option<bool> {
    let mut door = CutDoor {
        front: BOTH.get(..place)?,
        back: BOTH.get(place..)?,
        waits: true,
        ended: false,
        written: Vec::new(alloc),
        faults: 0,
    };
    let mut hall = open_hall(alloc, &[])?;
    let end = serve_door(alloc, &mut hall, &mut door);
    let _ = hall.back().close();
    Some(end.served == 2 && door.written.as_slice() == ANSWERS)
}

// The first place of a cut where they aren't.
fn first_wrong(alloc: Global) -> Option<usize> {
    for place in 0..BOTH.len() + 1 {
        if cut_right(alloc, place) != Some(true) {
            return Some(place);
        }
    }
    None
}

#[test]
fn each_cut(rt: HostRuntime) -> Result<(), Fail> {
    assert_eq!(rt; first_wrong(rt.alloc()), None);
    Ok(())
}

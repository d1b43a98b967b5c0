use crate::steps::Step::{
    self, Connect, Ended, Finish, Hear, Lose, Next, Pass, Read, Send, Took, Write,
};
use crate::steps::first_wrong;
use std::test::Fail;
use tcp_door::{Manners, Opening};

// Manners whose times a test can wait for, and that a busy machine doesn't miss.
const QUICK: Manners = Manners {
    opening: Opening::Line,
    yields: 100,
    silence: Some(1_800),
    request: 900,
    response: 900,
    ends: 100,
    lingers: 0,
};

// As those, to a client that opens with a head.
const HEAD: Manners = Manners {
    opening: Opening::Head,
    ..QUICK
};

// As those, to a client that may be silent, as a scale is.
const PATIENT: Manners = Manners {
    silence: None,
    ..QUICK
};

// What comes of a door with these manners to so many connections.
struct Case {
    manners: Manners,
    connections: u32,
    steps: &'static [Step],
}

const CASES: &[Case] = &[
    // connections are served one after another
    Case {
        manners: Manners::OFFICE,
        connections: 2,
        steps: &[
            Read(b"...."),
            Connect,
            Connect,
            Send(0, b"ab"),
            Finish(0),
            Next(true),
            Read(b"ab.."),
            Write(b"wxyz"),
            Read(b"...."),
            Ended(true),
            Hear(0, b"wxyz"),
            Send(1, b"cd"),
            Finish(1),
            Next(true),
            Read(b"cd.."),
            Write(b"stuv"),
            Read(b"...."),
            Ended(true),
            Hear(1, b"stuv"),
            Next(false),
            Read(b"...."),
        ],
    },
    // a silent client is lost within a request, and has ended behind a response
    Case {
        manners: QUICK,
        connections: 1,
        steps: &[
            Connect,
            Send(0, b"a\n"),
            Next(true),
            Read(b"a\n.."),
            Write(b"xyz"),
            Hear(0, b"xyz."),
            Send(0, b"b"),
            Read(b"b..."),
            Lose,
            Write(b"xyz"),
            Ended(false),
            Read(b"...."),
            Took(1_500, 15_000),
            Ended(true),
            Hear(0, b"xyz."),
        ],
    },
    // a request that drips has its time
    Case {
        manners: QUICK,
        connections: 1,
        steps: &[
            Connect,
            Send(0, b"a\n"),
            Next(true),
            Read(b"a\n.."),
            Write(b"xyz"),
            Send(0, b"b"),
            Read(b"b..."),
            Pass(600),
            Send(0, b"c"),
            Read(b"c..."),
            Pass(600),
            Send(0, b"d"),
            Lose,
        ],
    },
    // a client has its turn once it has asked
    Case {
        manners: QUICK,
        connections: 3,
        steps: &[
            Connect,
            Send(0, b"a"),
            Connect,
            Send(1, b"b\n"),
            Next(true),
            Read(b"b\n.."),
            Connect,
            Send(2, b"cd"),
            Finish(2),
            Next(true),
            Read(b"cd.."),
            Read(b"...."),
            Next(true),
            Took(0, 5_000),
            Lose,
            Next(false),
        ],
    },
    // a silent client is left for one that asks, and not for one that is silent
    Case {
        manners: QUICK,
        connections: 2,
        steps: &[
            Connect,
            Connect,
            Send(1, b"ab\n"),
            Next(true),
            Read(b"ab\n."),
            Write(b"xyz"),
            Hear(1, b"xyz."),
            Connect,
            Send(2, b"cd\n"),
            Read(b"...."),
            Took(80, 1_500),
            Ended(true),
            Next(true),
            Read(b"cd\n."),
        ],
    },
    // a scale may be silent until another speaks
    Case {
        manners: PATIENT,
        connections: 2,
        steps: &[
            Connect,
            Send(0, b"1\n"),
            Next(true),
            Read(b"1\n.."),
            Write(b"xyz"),
            Pass(2_700),
            Send(0, b"2 3\n"),
            Read(b"2 3\n"),
            Write(b"ack\n"),
            Connect,
            Send(1, b"3\n"),
            Read(b"...."),
            Next(true),
            Read(b"3\n.."),
        ],
    },
    // a client that is left gets its last response
    Case {
        manners: Manners::OFFICE,
        connections: 1,
        steps: &[
            Connect,
            Send(0, b"read, and passed over\n\n"),
            Next(true),
            Read(b"read"),
            Write(b"xyz"),
            Next(false),
            Hear(0, b"xyz."),
            Hear(0, b"...."),
        ],
    },
    // one that closes without a byte is none
    Case {
        manners: Manners::OFFICE,
        connections: 1,
        steps: &[
            Connect,
            Finish(0),
            Connect,
            Finish(1),
            Connect,
            Send(2, b"ab"),
            Finish(2),
            Next(true),
            Read(b"ab.."),
            Next(false),
        ],
    },
];

// The first case that comes out otherwise, and its step.
fn wrong_case(rt: HostRuntime) -> Result<Option<(usize, usize)>, Fail> {
    for (place, case) in CASES.iter().enumerate() {
        if let Some(step) = first_wrong(rt, case.manners, case.connections, case.steps)? {
            return Ok(Some((place, step)));
        }
    }
    Ok(None)
}

#[test]
fn cases(rt: HostRuntime) -> Result<(), Fail> {
    assert!(rt; wrong_case(rt)?.is_none());
    Ok(())
}

// What a client has to send, or not, before it has a turn: one that has none yet is lost.
const OPENINGS: [(Manners, &[u8], bool); 8] = [
    (QUICK, b"1\n", true),
    (QUICK, &[b'1'; 65], true),
    (QUICK, &[b'1'; 64], false),
    (HEAD, b"GET / HTTP/1.1\r\n\r\n", true),
    (HEAD, b"GET / HTTP/1.1\n\n", true),
    (HEAD, &[b'a'; 8192], true),
    (HEAD, &[b'a'; 8191], false),
    (HEAD, b"GET / HTTP/1.1\r\nHost: a\r\n", false),
];

// The first opening that is taken otherwise.
fn wrong_opening(rt: HostRuntime) -> Result<Option<usize>, Fail> {
    for (place, (manners, sent, has_turn)) in OPENINGS.iter().enumerate() {
        let lost = first_wrong(rt, *manners, 1, &[Connect, Send(0, sent), Next(true), Lose])?;
        if lost.is_none() == *has_turn {
            return Ok(Some(place));
        }
    }
    Ok(None)
}

#[test]
fn openings(rt: HostRuntime) -> Result<(), Fail> {
    assert_eq!(rt; wrong_opening(rt)?, None);
    Ok(())
}

// One whose bytes aren't taken.
const PIECE: Step = Write(&[b'x'; 65_536]);

// Writes on, until a piece isn't taken.
#[test]
fn a_response_that_is_not_taken_has_its_time(rt: HostRuntime) -> Result<(), Fail> {
    let mut steps = [PIECE; 1_000];
    steps[0] = Connect;
    steps[1] = Send(0, b"a\n");
    steps[2] = Next(true);
    assert!(rt; first_wrong(rt, QUICK, 1, &steps)?.is_some_and(|place| place > 2));
    Ok(())
}

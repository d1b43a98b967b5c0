use crate::saying::{DAY, name, says};
use annex_tables::Mode;
use book_words::{Name, Prior, Unit};
use script_lines::{Command, Line, Verb};
use std::test::Fail;

// A line, and the desk, the request and the verb of the command that it is.
type Row = (&'static [u8], u16, u32, Verb);

const DAY_SET: Verb = Verb::Day { day: DAY };

const NAMELESS: [Row; 29] = [
    (b"day 2025-03-03", 0, 0, DAY_SET),
    (b" \tday\t \t2025-03-03\t ", 0, 0, DAY_SET),
    (
        b"weigh 1 251.000",
        0,
        0,
        Verb::Weigh {
            lane: 1,
            gross: 251_000,
            prior: None,
        },
    ),
    (
        b"weigh 007 00000251.05\t",
        0,
        0,
        Verb::Weigh {
            lane: 7,
            gross: 251_050,
            prior: None,
        },
    ),
    (
        b"weigh 1 251 none",
        0,
        0,
        Verb::Weigh {
            lane: 1,
            gross: 251_000,
            prior: Some(Prior::Nothing),
        },
    ),
    (
        b"weigh 1 251 opened",
        0,
        0,
        Verb::Weigh {
            lane: 1,
            gross: 251_000,
            prior: Some(Prior::Opened),
        },
    ),
    (
        b"weigh 1 251 stayed",
        0,
        0,
        Verb::Weigh {
            lane: 1,
            gross: 251_000,
            prior: Some(Prior::Stayed),
        },
    ),
    (
        b"weigh 1 251 unknown",
        0,
        0,
        Verb::Weigh {
            lane: 1,
            gross: 251_000,
            prior: Some(Prior::Unknown),
        },
    ),
    (
        b"stop 0",
        0,
        0,
        Verb::Stop {
            lane: 0,
            prior: None,
        },
    ),
    (
        b"stop 1 none",
        0,
        0,
        Verb::Stop {
            lane: 1,
            prior: Some(Prior::Nothing),
        },
    ),
    (
        b"stop 1 opened",
        0,
        0,
        Verb::Stop {
            lane: 1,
            prior: Some(Prior::Opened),
        },
    ),
    (
        b"stop 1 stayed",
        0,
        0,
        Verb::Stop {
            lane: 1,
            prior: Some(Prior::Stayed),
        },
    ),
    (
        b"stop 1 unknown",
        0,
        0,
        Verb::Stop {
            lane: 1,
            prior: Some(Prior::Unknown),
        },
    ),
    (b"void 4294967295", 0, 0, Verb::Void { pack: u32::MAX }),
    (
        b"measure 4294967295 251.5",
        0,
        0,
        Verb::Measure {
            pack: u32::MAX,
            gross: 251_500,
            empty: 0,
        },
    ),
    (
        b"measure 6 251.5 9.75",
        0,
        0,
        Verb::Measure {
            pack: 6,
            gross: 251_500,
            empty: 9_750,
        },
    ),
    (
        b"measure 6 251.5 0",
        0,
        0,
        Verb::Measure {
            pack: 6,
            gross: 251_500,
            empty: 0,
        },
    ),
    (b"pack 4294967295", 0, 0, Verb::Pack { pack: u32::MAX }),
    (b"lane 255", 0, 0, Verb::Lane { lane: 255 }),
    (b"summary", 0, 0, Verb::Summary),
    (
        b"acts 4294967295",
        0,
        0,
        Verb::Acts {
            after: 4_294_967_295,
        },
    ),
    (b"\t\tsummary  ", 0, 0, Verb::Summary),
    (b"@101 2 day 2025-03-03", 101, 2, DAY_SET),
    (b"@2 101 day 2025-03-03", 2, 101, DAY_SET),
    (b" \t@101\t 2\tday  2025-03-03 ", 101, 2, DAY_SET),
    (b"@0 0 day 2025-03-03", 0, 0, DAY_SET),
    (
        b"@101 1 weigh 1 251 opened",
        101,
        1,
        Verb::Weigh {
            lane: 1,
            gross: 251_000,
            prior: Some(Prior::Opened),
        },
    ),
    (
        b"@101 1 stop 1",
        101,
        1,
        Verb::Stop {
            lane: 1,
            prior: None,
        },
    ),
    (
        b"@101 1 measure 6 1 2",
        101,
        1,
        Verb::Measure {
            pack: 6,
            gross: 1_000,
            empty: 2_000,
        },
    ),
];

// A command of the script's own.
fn plain(line: &'static [u8], verb: Verb) -> Row {
    (line, 0, 0, verb)
}

// The opening of a product.
fn product(name: Name, nominal: i64, unit: Unit) -> Verb {
    Verb::Product {
        name,
        nominal,
        unit,
    }
}

// Commands with the name of a product.
fn with_product(rice: Name) -> [Row; 5] {
    let tare = Verb::Tare {
        product: rice,
        day: DAY,
        tare: 1_500,
    };
    [
        plain(b"product rice250 250", product(rice, 250_000, Unit::Mass)),
        plain(b"product rice250 0.25", product(rice, 250, Unit::Mass)),
        plain(
            b"product rice250 250 ml",
            product(rice, 250_000, Unit::Volume),
        ),
        plain(
            b"product rice250 1.5\tml ",
            product(rice, 1_500, Unit::Volume),
        ),
        plain(b"tare rice250 2025-03-03 1.5", tare),
    ]
}

// The draw of a first sample.
fn draw(batch: Name, mode: Mode, word: u64) -> Verb {
    Verb::Draw { batch, mode, word }
}

// Commands with the name of a batch, the last of them a desk's.
fn with_batch(batch: Name) -> [Row; 10] {
    let second = Verb::Second {
        batch,
        word: u64::MAX,
    };
    [
        plain(
            b"start 00000000000000000255 b1",
            Verb::Start { lane: 255, batch },
        ),
        plain(b"end b1", Verb::End { batch }),
        plain(b"draw b1 keep 7", draw(batch, Mode::Keep, 7)),
        plain(
            b"draw b1 destroy 18446744073709551615",
            draw(batch, Mode::Destroy, u64::MAX),
        ),
        plain(b"second b1 18446744073709551615", second),
        plain(b"close b1", Verb::Close { batch }),
        plain(b"sheet b1", Verb::Sheet { batch }),
        plain(b"sample b1", Verb::Sample { batch }),
        plain(
            b"packs b1 4294967295",
            Verb::Packs {
                batch,
                after: u32::MAX,
            },
        ),
        (
            b"@00000000000000065535 4294967295 end b1",
            u16::MAX,
            u32::MAX,
            Verb::End { batch },
        ),
    ]
}

// Openings of the batch J of the product juice, with their densities.
const OPENINGS: [(&[u8], u32); 6] = [
    (b"open J juice", 0),
    (b"open J juice 0", 0),
    (b"open J juice 1000", 1_000_000),
    (b"open J juice 1040.5", 1_040_500),
    (b"open J juice 0.001 ", 1),
    (b"open J juice 4294967.295", u32::MAX),
];

// Whether a line is this command, whether it ends in LF or not.
fn is_command(line: &[u8], desk: u16, request: u32, verb: Verb) -> bool {
    let line_says = Line::Asks(Command {
        desk,
        request,
        verb,
    });
    says(line) == (line_says, line_says)
}

// The first line of some that is another command.
fn wrong_command(rows: &[Row]) -> Option<&'static [u8]> {
    for (line, desk, request, verb) in rows {
        if !is_command(line, *desk, *request, *verb) {
            return Some(line);
        }
    }
    None
}

fn wrong_opening(batch: Name, product: Name) -> Option<&'static [u8]> {
    for (line, density) in OPENINGS {
        if !is_command(
            line,
            0,
            0,
            Verb::Open {
                batch,
                product,
                density,
            },
        ) {
            return Some(line);
        }
    }
    None
}

#[test]
fn commands_are_read(rt: HostRuntime) -> Result<(), Fail> {
    assert_eq!(rt; wrong_command(&NAMELESS), None);
    assert_eq!(rt; wrong_command(&with_product(name(b"rice250")?)), None);
    assert_eq!(rt; wrong_command(&with_batch(name(b"b1")?)), None);
    assert_eq!(rt; wrong_opening(name(b"J")?, name(b"juice")?), None);
    Ok(())
}

use book_words::Name;
use command_line::Command::{
    Acts, Audit, Check, Export, Follow, Import, List, Migrate, Paper, Prove, Report, Run, Serve,
    Ship, Trial,
};
use command_line::{Command, Text, Wants, WantsError, wants};
use hall_limits::MAX_ROWS;
use std::alloc::{AllocError, Global};
use std::test::Fail;

type Words = &'static [&'static str];

// What is asked for.
#[derive(Clone, Copy)]
struct Asked {
    command: Command,
    book: Option<&'static str>,
    batch: Option<&'static str>,
    limit: u32,
    lanes: u8,
    doors: u8,
    cells: Option<&'static str>,
    port: u16,
    connections: u32,
    number: u64,
    count: u32,
    remote: Option<u16>,
    after: u32,
    rows: u32,
    shipments: u32,
}

const RUN: Asked = Asked {
    command: Run,
    book: None,
    batch: None,
    limit: MAX_ROWS,
    lanes: 0,
    doors: 0,
    cells: None,
    port: 8_080,
    connections: 1,
    number: 0,
    count: 0,
    remote: None,
    after: 0,
    rows: MAX_ROWS,
    shipments: 1,
};

const SERVE: Asked = Asked {
    command: Serve,
    ..RUN
};

const CHECK: Asked = Asked {
    command: Check,
    ..RUN
};

const MIGRATE: Asked = Asked {
    command: Migrate,
    ..RUN
};

const REPORT: Asked = Asked {
    command: Report,
    ..RUN
};

const EXPORT: Asked = Asked {
    command: Export,
    ..RUN
};

const IMPORT: Asked = Asked {
    command: Import,
    ..RUN
};

const TRIAL: Asked = Asked {
    command: Trial,
    count: 1,
    ..RUN
};

const SHIP: Asked = Asked {
    command: Ship,
    ..RUN
};

const FOLLOW: Asked = Asked {
    command: Follow,
    ..RUN
};

const PAPER: Asked = Asked {
    command: Paper,
    book: BOOK,
    batch: Some("A"),
    ..RUN
};

const PROVE: Asked = Asked {
    command: Prove,
    ..RUN
};

const LIST: Asked = Asked {
    command: List,
    ..RUN
};

const AUDIT: Asked = Asked {
    command: Audit,
    ..RUN
};

const ACTS: Asked = Asked {
    command: Acts,
    ..RUN
};

const BOOK: Option<&str> = Some("b.hall");

// Words and what they ask for, written by hand from the grammar, as what follows.
static ASKED: [(Words, Asked); 74] = [
    (&["run"], RUN),
    (&["check"], CHECK),
    (&["migrate"], MIGRATE),
    (&["run", "--book", "b.hall"], Asked { book: BOOK, ..RUN }),
    (&["run", "--book=b.hall"], Asked { book: BOOK, ..RUN }),
    (
        &["check", "--book", "b.hall"],
        Asked {
            book: BOOK,
            ..CHECK
        },
    ),
    (
        &["migrate", "--book=b.hall"],
        Asked {
            book: BOOK,
            ..MIGRATE
        },
    ),
    (&["run", "--limit", "1"], Asked { limit: 1, ..RUN }),
    (&["run", "--limit=0000007"], Asked { limit: 7, ..RUN }),
    (
        &["run", "--limit", "1000000"],
        Asked {
            limit: 1_000_000,
            ..RUN
        },
    ),
    (
        &["run", "--limit=5", "--book", "b.hall"],
        Asked {
            book: BOOK,
            limit: 5,
            ..RUN
        },
    ),
    (
        &["run", "--book=b.hall", "--limit", "5"],
        Asked {
            book: BOOK,
            limit: 5,
            ..RUN
        },
    ),
    (
        &["run", "--book=-b=c"],
        Asked {
            book: Some("-b=c"),
            ..RUN
        },
    ),
    (
        &["run", "--book", "run"],
        Asked {
            book: Some("run"),
            ..RUN
        },
    ),
    (&["run", "--lanes", "0"], RUN),
    (&["run", "--lanes=16"], Asked { lanes: 16, ..RUN }),
    (&["run", "--lanes", "02"], Asked { lanes: 2, ..RUN }),
    (
        &["run", "--cells=/run/hall"],
        Asked {
            cells: Some("/run/hall"),
            ..RUN
        },
    ),
    (
        &["run", "--cells", "."],
        Asked {
            cells: Some("."),
            ..RUN
        },
    ),
    (
        &[
            "run",
            "--cells",
            "c",
            "--lanes=3",
            "--book",
            "b.hall",
            "--limit=9",
        ],
        Asked {
            book: BOOK,
            limit: 9,
            lanes: 3,
            cells: Some("c"),
            ..RUN
        },
    ),
    (
        &["run", "--remote", "1"],
        Asked {
            remote: Some(1),
            ..RUN
        },
    ),
    (
        &["run", "--remote=09000", "--lanes=2"],
        Asked {
            lanes: 2,
            remote: Some(9_000),
            ..RUN
        },
    ),
    (&["serve"], SERVE),
    (
        &["serve", "--remote=65520"],
        Asked {
            remote: Some(65_520),
            ..SERVE
        },
    ),
    (
        &["serve", "--port=9000", "--remote", "8080", "--cells=c"],
        Asked {
            cells: Some("c"),
            port: 9_000,
            remote: Some(8_080),
            ..SERVE
        },
    ),
    (
        &[
            "serve",
            "--book=b.hall",
            "--limit",
            "9",
            "--lanes",
            "16",
            "--cells=c",
        ],
        Asked {
            book: BOOK,
            limit: 9,
            lanes: 16,
            cells: Some("c"),
            ..SERVE
        },
    ),
    (&["serve", "--doors", "0"], SERVE),
    (&["serve", "--doors=1"], Asked { doors: 1, ..SERVE }),
    (&["serve", "--doors", "16"], Asked { doors: 16, ..SERVE }),
    (&["serve", "--port", "1"], Asked { port: 1, ..SERVE }),
    (&["serve", "--port=8080"], SERVE),
    (
        &["serve", "--port=65520"],
        Asked {
            port: 65_520,
            ..SERVE
        },
    ),
    (&["serve", "--connections", "1"], SERVE),
    (
        &["serve", "--connections=999999"],
        Asked {
            connections: 999_999,
            ..SERVE
        },
    ),
    (
        &[
            "serve",
            "--connections=20",
            "--port",
            "9000",
            "--doors=2",
            "--lanes=3",
        ],
        Asked {
            lanes: 3,
            doors: 2,
            port: 9_000,
            connections: 20,
            ..SERVE
        },
    ),
    (&["ship"], SHIP),
    (&["ship", "--after=0"], SHIP),
    (&["ship", "--after", "1"], Asked { after: 1, ..SHIP }),
    (
        &["ship", "--after=1000000", "--book=b.hall"],
        Asked {
            book: BOOK,
            after: 1_000_000,
            ..SHIP
        },
    ),
    (&["follow"], FOLLOW),
    (
        &["follow", "--book", "b.hall"],
        Asked {
            book: BOOK,
            ..FOLLOW
        },
    ),
    (&["follow", "--shipments=1"], FOLLOW),
    (
        &["follow", "--shipments", "2"],
        Asked {
            shipments: 2,
            ..FOLLOW
        },
    ),
    (
        &["follow", "--shipments=1000000", "--book=b.hall"],
        Asked {
            book: BOOK,
            shipments: 1_000_000,
            ..FOLLOW
        },
    ),
    (&["paper", "--book", "b.hall", "--batch", "A"], PAPER),
    (&["paper", "--batch=A", "--book=b.hall"], PAPER),
    (
        &[
            "paper",
            "--batch=a234567890b234567890c234567890d2",
            "--book=b",
        ],
        Asked {
            book: Some("b"),
            batch: Some("a234567890b234567890c234567890d2"),
            ..PAPER
        },
    ),
    (&["prove"], PROVE),
    (&["list"], LIST),
    (&["list", "--limit=1"], Asked { limit: 1, ..LIST }),
    (
        &["list", "--limit", "1000000", "--book=b.hall"],
        Asked { book: BOOK, ..LIST },
    ),
    (&["audit"], AUDIT),
    (&["audit", "--rows=1"], Asked { rows: 1, ..AUDIT }),
    (
        &["audit", "--rows", "0", "--book", "b.hall"],
        Asked {
            book: BOOK,
            rows: 0,
            ..AUDIT
        },
    ),
    (
        &["audit", "--book=b.hall", "--rows=0181"],
        Asked {
            book: BOOK,
            rows: 181,
            ..AUDIT
        },
    ),
    (
        &["audit", "--book=b.hall", "--rows=1000000"],
        Asked {
            book: BOOK,
            ..AUDIT
        },
    ),
    (&["acts"], ACTS),
    (&["acts", "--after=0"], ACTS),
    (&["acts", "--after", "1"], Asked { after: 1, ..ACTS }),
    (
        &["acts", "--after=1000000", "--book=b.hall"],
        Asked {
            book: BOOK,
            after: 1_000_000,
            ..ACTS
        },
    ),
    (&["report"], REPORT),
    (&["export"], EXPORT),
    (&["import"], IMPORT),
    (
        &["report", "--batch", "A"],
        Asked {
            batch: Some("A"),
            ..REPORT
        },
    ),
    (
        &["report", "--batch=rice-2025_03.03A"],
        Asked {
            batch: Some("rice-2025_03.03A"),
            ..REPORT
        },
    ),
    (
        &["report", "--batch=rice-2025_03.03AB"],
        Asked {
            batch: Some("rice-2025_03.03AB"),
            ..REPORT
        },
    ),
    (
        &["report", "--batch", "a234567890b234567890c234567890d2"],
        Asked {
            batch: Some("a234567890b234567890c234567890d2"),
            ..REPORT
        },
    ),
    (
        &["report", "--batch=-A", "--book", "b.hall"],
        Asked {
            book: BOOK,
            batch: Some("-A"),
            ..REPORT
        },
    ),
    (
        &["export", "--book=b.hall"],
        Asked {
            book: BOOK,
            ..EXPORT
        },
    ),
    (
        &["import", "--limit", "9", "--book=b.hall"],
        Asked {
            book: BOOK,
            limit: 9,
            ..IMPORT
        },
    ),
    (&["trial", "0", "1"], TRIAL),
    (
        &["trial", "1", "100000"],
        Asked {
            number: 1,
            count: 100_000,
            ..TRIAL
        },
    ),
    (
        &["trial", "18446744073709551615", "2"],
        Asked {
            number: u64::MAX,
            count: 2,
            ..TRIAL
        },
    ),
    (
        &["trial", "007", "002"],
        Asked {
            number: 7,
            count: 2,
            ..TRIAL
        },
    ),
];

static REFUSED: [Words; 95] = [
    &[],
    &["runs"],
    &["run", "run"],
    &["run", "--book"],
    &["run", "--book="],
    &["run", "--book", ""],
    &["run", "--book", "-b"],
    &["run", "--book=b", "--book", "b"],
    &["run", "--limit", "0"],
    &["run", "--limit=1000001"],
    &["run", "--limit=+5"],
    &["run", "--limit=000000000000000000005"],
    &["check", "--limit", "5"],
    &["run", "--lanes", "17"],
    &["run", "--lanes=-1"],
    &["run", "--lanes=2", "--lanes=2"],
    &["run", "--lanes=two"],
    &["run", "--cells="],
    &["run", "--cells", "-"],
    &["run", "--cells=a", "--lanes=1", "--cells=b"],
    &["check", "--lanes", "1"],
    &["migrate", "--cells=c"],
    &["run", "--remote", "0"],
    &["run", "--remote=65521"],
    &["run", "--remote="],
    &["run", "--remote"],
    &["run", "--remote=+1"],
    &["run", "--remote=1", "--remote=1"],
    &["serve", "--remote=0"],
    &["serve", "--remote", "70000"],
    &["import", "--remote=1"],
    &["check", "--remote", "1"],
    &["run", "--after=1"],
    &["run", "--help"],
    &["run", "--boo", "b"],
    &["run", "--=b"],
    &["run", "--", "b"],
    &["run", "-"],
    &["run", "-book=b"],
    &["run", "---book=b"],
    &["trial"],
    &["trial", "1"],
    &["trial", "1", "2", "3"],
    &["trial", "-1", "2"],
    &["trial", "1", "-2"],
    &["trial", "-", "1"],
    &["trial", "1", "-"],
    &["trial", "--", "1", "2"],
    &["trial", "1", "--", "2"],
    &["trial", "1", "2", "--"],
    &["trial", "", "1"],
    &["trial", "1", ""],
    &["trial", "1", "0"],
    &["trial", "1", "100001"],
    &["trial", "18446744073709551616", "1"],
    &["trial", "000000000000000000001", "1"],
    &["trial", "+1", "1"],
    &["trial", "1", "x"],
    &["trial", "--number=1", "--count=1"],
    &["trial", "1", "1", "--book=b"],
    &["report", "--batch="],
    &["report", "--batch", ""],
    &["report", "--batch=a234567890b234567890c234567890d23"],
    &["report", "--batch=A", "--batch", "A"],
    &["report", "--limit=5"],
    &["report", "A"],
    &["export", "--batch=A"],
    &["export", "--limit", "5"],
    &["import", "--batch=A"],
    &["import", "--lanes=1"],
    &["import", "--limit=0"],
    &["run", "--batch=A"],
    &["run", "1", "2"],
    &["check", "--batch=A"],
    &["migrate", "--limit=5"],
    &["serve", "--doors", "17"],
    &["serve", "--doors=-1"],
    &["serve", "--doors=1", "--doors", "2"],
    &["serve", "--port=0"],
    &["serve", "--port", "65521"],
    &["serve", "--port=80", "--port=80"],
    &["serve", "--connections", "0"],
    &["serve", "--connections=1000000"],
    &["serve", "--connections=1", "--connections=1"],
    &["serve", "--lanes=17"],
    &["serve", "--limit=0"],
    &["serve", "--batch=A"],
    &["serve", "1", "2"],
    &["run", "--doors=1"],
    &["run", "--port=80"],
    &["run", "--connections=1"],
    &["import", "--doors=1"],
    &["report", "--port=80"],
    &["trial", "1", "1", "--connections=1"],
    &["serves"],
];

// The same, of the commands that copy a book, write and prove a paper, list what is in force,
// audit, or write a book as text.
static REFUSED_COPIES: [Words; 52] = [
    &["ship", "--after", "1000001"],
    &["ship", "--after=-1"],
    &["ship", "--after="],
    &["ship", "--after=1", "--after=1"],
    &["ship", "--limit=5"],
    &["ship", "5"],
    &["follow", "--after=1"],
    &["follow", "--limit=5"],
    &["follow", "--batch=A"],
    &["follow", "--shipments=0"],
    &["follow", "--shipments", "1000001"],
    &["follow", "--shipments="],
    &["follow", "--shipments=2", "--shipments=2"],
    &["ship", "--shipments=2"],
    &["paper"],
    &["paper", "--book=b"],
    &["paper", "--batch=A"],
    &["paper", "--book=b", "--book=b"],
    &["paper", "--batch=A", "--batch=A"],
    &["paper", "--book=b", "--batch=A", "--book=b"],
    &["paper", "--book=b", "--batch=A", "--limit=5"],
    &["paper", "--book=b", "--batch="],
    &[
        "paper",
        "--book=b",
        "--batch=a234567890b234567890c234567890d23",
    ],
    &["paper", "b", "A"],
    &["prove", "--book=b"],
    &["prove", "--batch=A"],
    &["prove", "p"],
    &["proves"],
    &["list", "--limit=0"],
    &["list", "--limit=1000001"],
    &["list", "--limit=1", "--limit=1"],
    &["list", "--batch=A"],
    &["list", "b"],
    &["lists"],
    &["list", "--rows=1"],
    &["audit", "--book=b", "--rows=1000001"],
    &["audit", "--book=b", "--rows=-1"],
    &["audit", "--book=b", "--rows="],
    &["audit", "--book=b", "--rows=1", "--rows=1"],
    &["audit", "--book=b", "--book=b"],
    &["audit", "--book=b", "--limit=5"],
    &["audit", "--book=b", "1"],
    &["audit", "b"],
    &["audits", "--book=b"],
    &["run", "--rows=1"],
    &["acts", "--after", "1000001"],
    &["acts", "--after=-1"],
    &["acts", "--after="],
    &["acts", "--after=1", "--after=1"],
    &["acts", "--limit=5"],
    &["acts", "b"],
    &["act"],
];

fn words_of(alloc: Global, words: &[&str]) -> Result<Vec<String>, AllocError> {
    let mut all = Vec::new(alloc);
    for word in words {
        all.push(String::from_str(alloc, word)?)?;
    }
    Ok(all)
}

// Whether a text is this one, or neither is there.
fn is_same(text: &Option<Text>, wanted: Option<&str>) -> bool {
    match (text, wanted) {
        (Some(text), Some(wanted)) => text.as_str() == wanted,
        (None, None) => true,
        _ => false,
    }
}

// Whether a batch is this one, or neither is there.
fn is_batch(batch: Option<Name>, wanted: Option<&str>) -> bool {
    match (batch, wanted) {
        (Some(name), Some(wanted)) => name.as_bytes() == wanted.as_bytes(),
        (None, None) => true,
        _ => false,
    }
}

// Whether what was found is what is asked for.
fn is_found(found: &Wants, asked: &Asked) -> bool {
    found.command == asked.command
        && is_same(&found.book, asked.book)
        && is_batch(found.batch, asked.batch)
        && found.limit == asked.limit
        && found.lanes == asked.lanes
        && found.doors == asked.doors
        && is_same(&found.cells, asked.cells)
        && found.port == asked.port
        && found.connections == asked.connections
        && found.number == asked.number
        && found.count == asked.count
        && found.remote == asked.remote
        && found.after == asked.after
        && found.rows == asked.rows
        && found.shipments == asked.shipments
}

// Whether words ask for this.
fn is_asked(alloc: Global, words: &[&str], asked: &Asked) -> Result<bool, AllocError> {
    let words = words_of(alloc, words)?;
    let Ok(found) = wants(alloc, &words) else {
        return Ok(false);
    };
    Ok(is_found(&found, asked))
}

// The first words of the grammar that ask for something else.
fn wrongly_asked(alloc: Global) -> Result<Option<Words>, AllocError> {
    for (words, asked) in &ASKED {
        if !is_asked(alloc, words, asked)? {
            return Ok(Some(words));
        }
    }
    Ok(None)
}

// Whether words are outside the grammar.
fn is_refused(alloc: Global, words: &[&str]) -> Result<bool, AllocError> {
    let words = words_of(alloc, words)?;
    match wants(alloc, &words) {
        Err(why) => Ok(why == WantsError::Usage),
        Ok(_) => Ok(false),
    }
}

// The first words outside the grammar that ask for something.
fn wrongly_taken(alloc: Global) -> Result<Option<Words>, AllocError> {
    for words in &REFUSED {
        if !is_refused(alloc, words)? {
            return Ok(Some(words));
        }
    }
    Ok(None)
}

// The first of the others.
fn wrongly_copied(alloc: Global) -> Result<Option<Words>, AllocError> {
    for words in &REFUSED_COPIES {
        if !is_refused(alloc, words)? {
            return Ok(Some(words));
        }
    }
    Ok(None)
}

#[test]
fn words_ask_for_what_the_grammar_says(rt: HostRuntime) -> Result<(), Fail> {
    assert_eq!(rt; wrongly_asked(rt.alloc())?, None);
    assert_eq!(rt; wrongly_taken(rt.alloc())?, None);
    assert_eq!(rt; wrongly_copied(rt.alloc())?, None);
    let text = format!(in rt.alloc(); "{}, {}", WantsError::Usage, WantsError::NoMemory)?;
    assert!(rt; text.as_str() == "these words are no command of hall, no memory for the words");
    Ok(())
}

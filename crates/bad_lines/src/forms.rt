/// What a word of a command is.
#[derive(Clone, Copy, PartialEq, Eq)]
pub(crate) enum Part {
    Day,
    Mass,
    Name,
    Lane,
    Pack,
    Row,
    /// The word of a draw.
    Draw,
    /// One of some words.
    Choice,
}

/// How a command of a script is spelled.
#[derive(Clone, Copy)]
pub(crate) struct Form {
    pub spelled: &'static str,
    /// What stands behind its first word.
    pub parts: &'static [Part],
    /// Whether it is an act, which a desk may send.
    pub is_act: bool,
}

// The acts: their first words, how they are spelled, and what stands behind the first word.
const ACTS: [(&[u8], &str, &[Part]); 13] = [
    (b"day", "day DATE (2025-03-03)", &[Part::Day]),
    (
        b"product",
        "product NAME GRAMS, or product NAME MILLILITRES ml",
        &[Part::Name, Part::Mass, Part::Choice],
    ),
    (
        b"tare",
        "tare PRODUCT DATE GRAMS",
        &[Part::Name, Part::Day, Part::Mass],
    ),
    (
        b"open",
        "open BATCH PRODUCT [GRAMS A LITRE]",
        &[Part::Name, Part::Name, Part::Mass],
    ),
    (b"start", "start LANE BATCH", &[Part::Lane, Part::Name]),
    (
        b"weigh",
        "weigh LANE GRAMS [none, opened, stayed or unknown]",
        &[Part::Lane, Part::Mass, Part::Choice],
    ),
    (
        b"stop",
        "stop LANE [none, opened, stayed or unknown]",
        &[Part::Lane, Part::Choice],
    ),
    (b"void", "void PACK", &[Part::Pack]),
    (b"end", "end BATCH", &[Part::Name]),
    (
        b"draw",
        "draw BATCH keep WORD, or draw BATCH destroy WORD: a number",
        &[Part::Name, Part::Choice, Part::Draw],
    ),
    (
        b"measure",
        "measure PACK GRAMS [GRAMS OF THE EMPTY PACK]",
        &[Part::Pack, Part::Mass, Part::Mass],
    ),
    (
        b"second",
        "second BATCH WORD: a number",
        &[Part::Name, Part::Draw],
    ),
    (b"close", "close BATCH", &[Part::Name]),
];

// The other commands.
const OTHERS: [(&[u8], &str, &[Part]); 8] = [
    (
        b"work",
        "work LANE BATCH, of a lane that the hall has (--lanes)",
        &[Part::Lane, Part::Name],
    ),
    (b"sheet", "sheet BATCH", &[Part::Name]),
    (b"pack", "pack PACK", &[Part::Pack]),
    (b"lane", "lane LANE", &[Part::Lane]),
    (b"sample", "sample BATCH", &[Part::Name]),
    (b"summary", "summary", &[]),
    (b"acts", "acts ROW, or acts 0 for the first", &[Part::Row]),
    (
        b"packs",
        "packs BATCH PACK, or packs BATCH 0 for the first",
        &[Part::Name, Part::Row],
    ),
];

// The command of a word, by a table.
fn form_in(
    table: &[(&[u8], &'static str, &'static [Part])],
    is_act: bool,
    word: &[u8],
) -> Option<Form> {
    let (_, spelled, parts) = table.iter().find(|(first, _, _)| *first == word)?;
    Some(Form {
        spelled: *spelled,
        parts: *parts,
        is_act,
    })
}

/// The command of a word, if there is one.
pub(crate) fn form_of(word: &[u8]) -> Option<Form> {
    form_in(&ACTS, true, word).or_else(|| form_in(&OTHERS, false, word))
}

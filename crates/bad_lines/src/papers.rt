//! Why a line of a paper is bad, as far as the line alone tells.
use crate::types::Reason;

// The first words of a paper's lines, and what each has to be.
const LINES: [(&[u8], &str); 9] = [
    (b"paper ", "not the one line `paper 1`, which is the first"),
    (
        b"batch ",
        "not as batch B product P nominal G unit U density G row N, or not the second line",
    ),
    (
        b"tare ",
        "not as tare DATE G, for a later day than the one before",
    ),
    (
        b"pack ",
        "not as pack N DATE G, with a number above the one before and a day that has a tare",
    ),
    (
        b"mode ",
        "not as mode MODE word W, once behind the packs, or its sample can't be drawn of them",
    ),
    (
        b"first ",
        "not as first N gross G empty G, or not the pack that is drawn here",
    ),
    (b"word ", "not as word W, or no second sample is drawn here"),
    (
        b"second ",
        "not as second N gross G empty G, or not the pack that is drawn here",
    ),
    (
        b"verdict ",
        "not the verdict that follows from the lines before it",
    ),
];

/// Why a line of a paper is bad.
pub(crate) fn reason_of_paper(line: &[u8]) -> Reason<'_> {
    let known = LINES.iter().find(|(first, _)| line.starts_with(first));
    match known {
        Some((_, why)) => Reason::Paper(why),
        None if line.is_empty() => Reason::Paper("the paper ends here, or has an empty line"),
        None => Reason::Paper("no line of a paper begins so"),
    }
}

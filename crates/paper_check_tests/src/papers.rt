use book_words::Verdict;
use paper_check::check_paper;
use paper_form::PaperFault;
use std::alloc::{AllocError, Global};

/// The paper of a batch of two packs.
pub static TRIAL: [&str; 9] = [
    "paper 1",
    "batch T1 product trial nominal 250.000 unit g density 1000.000 row 17",
    "tare 2025-03-03 10.000",
    "pack 8 2025-03-03 261.014",
    "pack 9 2025-03-03 260.587",
    "mode keep word 0",
    "first 9 gross 260.587 empty 0.000",
    "first 8 gross 261.014 empty 0.000",
    "verdict released",
];

// A text of lines, each ended by LF.
fn text_of(alloc: Global, lines: &[&'static str]) -> Result<Vec<u8>, AllocError> {
    let mut text = Vec::new(alloc);
    for line in lines {
        text.extend_from_slice(line.as_bytes())?;
        text.extend_from_slice(b"\n")?;
    }
    Ok(text)
}

/// What the check of these lines answers.
pub fn check_lines(alloc: Global, lines: &[&'static str]) -> Result<Verdict, PaperFault> {
    let text = text_of(alloc, lines)?;
    if text.len() > 1_000 {
        return Err(PaperFault::NoMemory);
    }
    check_paper(alloc, &text)
}

/// What the check of the trial answers with another line at a place, from 0.
pub fn check_with(alloc: Global, place: usize, line: &'static str) -> Result<Verdict, PaperFault> {
    let mut lines = TRIAL;
    if place < lines.len() {
        lines[place] = line;
    }
    check_lines(alloc, &lines)
}

use crate::forms::{Form, Part, form_of};
use crate::papers::reason_of_paper;
use crate::parts::{fault_in, fault_in_desk, fault_in_request, is_number};
use crate::types::{Reason, SHOWN};
use command_line::Input;

// What a text may begin with that isn't part of it.
const MARK: &[u8] = b"\xef\xbb\xbf";

// No bytes.
const NOTHING: &[u8] = b"";

/// Why a line of such an input is bad, by its number from 1 and its bytes without the LF.
pub fn reason(kind: Input, number: u64, line: &[u8]) -> Reason<'_> {
    if kind == Input::Paper {
        return reason_of_paper(line);
    }
    if number == 1 && kind == Input::Table {
        return Reason::NoHeader;
    }
    if number == 1 && line.starts_with(MARK) {
        return Reason::ByteOrderMark;
    }
    if line.len() > SHOWN {
        return Reason::Long;
    }
    if line.iter().any(|byte| is_no_text(*byte)) {
        return Reason::NoText;
    }
    match kind {
        Input::Table => reason_of_record(line),
        _ => reason_of_command(line),
    }
}

// Whether a byte is a control character. A tab is none, nor is the CR at the end of a line.
fn is_no_text(byte: u8) -> bool {
    byte.is_ascii_control() && byte != b'\t' && byte != b'\r'
}

// The word of a line behind so many others.
fn word(line: &[u8], place: usize) -> Option<&[u8]> {
    line.split(|byte| is_blank(*byte))
        .filter(|word| !word.is_empty())
        .nth(place)
}

// Whether words are parted by a byte, or it ends them.
fn is_blank(byte: u8) -> bool {
    byte == b' ' || byte == b'\t' || byte == b'\r'
}

// Why a line isn't a command.
fn reason_of_command(line: &[u8]) -> Reason<'_> {
    match word(line, 0) {
        Some([b'@', desk @ ..]) => reason_of_desk(line, desk),
        Some(command) => reason_of(line, command, 0),
        None => Reason::Form("@DESK REQUEST and an act"),
    }
}

// Why a line of this desk isn't a command.
fn reason_of_desk<'a>(line: &'a [u8], desk: &'a [u8]) -> Reason<'a> {
    let (Some(request), Some(_)) = (word(line, 1), word(line, 2)) else {
        return lacks_request(line);
    };
    if let Some(fault) = fault_in_desk(desk) {
        return fault;
    }
    if !is_number(request) && form_of(request).is_some() {
        return Reason::NoRequest(request);
    }
    match (fault_in_request(request), word(line, 2)) {
        (Some(fault), _) => fault,
        (None, Some(command)) => reason_of(line, command, 2),
        (None, None) => Reason::Form("@DESK REQUEST and an act"),
    }
}

// Why a line of a desk of one or two words isn't a command.
fn lacks_request(line: &[u8]) -> Reason<'_> {
    match word(line, 1) {
        Some(command) if form_of(command).is_some() => Reason::NoRequest(command),
        _ => Reason::Form("@DESK REQUEST and an act"),
    }
}

// Why the command of a line isn't right, which stands behind so many words of a desk.
fn reason_of<'a>(line: &'a [u8], command: &'a [u8], place: usize) -> Reason<'a> {
    match form_of(command) {
        None => Reason::NoCommand(command),
        Some(form) if place > 0 && !form.is_act => Reason::NoAct(command),
        Some(form) => reason_of_words(line, &form, place.saturating_add(1)),
    }
}

// Why the words of a line aren't those of its command: they begin at this place.
fn reason_of_words<'a>(line: &'a [u8], form: &Form, place: usize) -> Reason<'a> {
    let with_comma = line
        .split(|byte| is_blank(*byte))
        .find(|word| has_comma(word));
    if let Some(word) = with_comma {
        return Reason::Comma(word);
    }
    for (count, part) in form.parts.iter().enumerate() {
        if let Some(fault) = fault_at(line, place.saturating_add(count), *part) {
            return fault;
        }
    }
    Reason::Form(form.spelled)
}

// What is wrong with the word at a place of a line, which should be this.
fn fault_at(line: &[u8], place: usize, part: Part) -> Option<Reason<'_>> {
    fault_in(part, word(line, place)?)
}

// Whether a word has a comma between digits.
fn has_comma(word: &[u8]) -> bool {
    word.windows(3)
        .any(|bytes| matches!(bytes, [b'0'..=b'9', b',', b'0'..=b'9']))
}

// Why a line isn't a record of an import.
fn reason_of_record(line: &[u8]) -> Reason<'_> {
    if !line.contains(&b',') && line.contains(&b';') {
        return Reason::Semicolons;
    }
    let Some((desk, rest)) = split_at_comma(line) else {
        return Reason::NoRecord;
    };
    let Some((request, command)) = split_at_comma(rest) else {
        return Reason::NoRecord;
    };
    let command = without_quotes(command);
    let Some(named) = word(command, 0) else {
        return Reason::NoRecord;
    };
    let fault = fault_in_desk(without_quotes(desk));
    match fault.or(fault_in_request(without_quotes(request))) {
        Some(fault) => fault,
        None => reason_of_record_act(command, named),
    }
}

// Why the act of a record isn't one.
fn reason_of_record_act<'a>(command: &'a [u8], named: &'a [u8]) -> Reason<'a> {
    match form_of(named) {
        None => Reason::NoCommand(named),
        Some(form) if !form.is_act => Reason::NoAct(named),
        Some(form) => reason_of_words(command, &form, 1),
    }
}

// A field without the quotes round it, and without the CR at the end of a line.
fn without_quotes(field: &[u8]) -> &[u8] {
    let field = field.strip_suffix(b"\r").unwrap_or(field);
    let field = field.strip_prefix(b"\"").unwrap_or(field);
    field.strip_suffix(b"\"").unwrap_or(field)
}

// What stands before and behind the first comma.
fn split_at_comma(bytes: &[u8]) -> Option<(&[u8], &[u8])> {
    let place = bytes.iter().position(|byte| *byte == b',')?;
    let (before, behind) = bytes.split_at_checked(place)?;
    Some((before, behind.get(1..).unwrap_or(NOTHING)))
}

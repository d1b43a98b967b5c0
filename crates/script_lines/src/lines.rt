ghost use Rattle.std.specs.Prelude.{◌≡◌, ◌≤◌, length, None, Some, MatchOption};
ghost use Rattle.script_lines.specs.Words.{words_of, is_comment, desk_digits};
ghost use Rattle.script_lines.specs.Script.{ended_says, last_says, words_say, line_by};
ghost use Rattle.script_lines.specs.Script.{command_by, desk_command, plain_command};

use crate::command::{Allowed, Command, Line};
use crate::fields::{read_desk, read_request};
use crate::verbs::read_verb;
use crate::words::first_word;
use crate::work::read_work;

/// The most bytes of a line, its CR among them and its LF not. A longer line is bad.
pub const MAX_LINE: usize = 200;

/// What a desk may ask by a script.
const ACTS_ALONE: Allowed = Allowed {
    questions: false,
    lanes: 0,
};

/// What a line says whose LF was read; the line comes without it.
pub fn read_ended_line(allowed: Allowed, line: &[u8]) -> Line
    requires { length line.now ≤ MAX_LINE }
    ensures says { result ≡ ended_says allowed line.now }
{
    let text = match line.split_last() {
        Some((b'\r', text)) => text,
        _ => line,
    };
    read_words(allowed, text)
}

/// What a last line says that lacks its LF. An empty one says nothing.
pub fn read_last_line(allowed: Allowed, line: &[u8]) -> Line
    requires { length line.now ≤ MAX_LINE }
    ensures says { result ≡ last_says allowed line.now }
{
    read_words(allowed, line)
}

// What the words of a text say.
fn read_words(allowed: Allowed, text: &[u8]) -> Line
    ensures { result ≡ words_say allowed (words_of text.now) }
{
    let Some((word, rest)) = first_word(text) else {
        return Line::Nothing;
    };
    if begins_comment(word) {
        return Line::Nothing;
    }
    match read_line(allowed, word, rest) {
        Some(line) => line,
        None => Line::Bad,
    }
}

// What a first word and the words that follow it say, where they say something.
fn read_line(allowed: Allowed, word: &[u8], rest: &[u8]) -> Option<Line>
    ensures { result ≡ line_by allowed word.now (words_of rest.now) }
{
    if word == b"work".as_slice() {
        return read_work(allowed.lanes, rest);
    }
    let command = read_command(allowed, word, rest)?;
    Some(Line::Asks(command))
}

// Whether a word begins a comment.
fn begins_comment(word: &[u8]) -> bool
    ensures { result ≡ is_comment word.now }
{
    word.first() == Some(&b'#')
}

// The command of a first word and of the words that follow it.
fn read_command(allowed: Allowed, word: &[u8], rest: &[u8]) -> Option<Command>
    ensures { result ≡ command_by allowed word.now (words_of rest.now) }
{
    match desk_digits(word) {
        Some(digits) => read_desk_command(digits, rest),
        None => read_plain_command(allowed, word, rest),
    }
}

// What stands behind the `@` of a word, where it begins with one.
fn desk_digits(word: &[u8]) -> Option<&[u8]>
    ensures { MatchOption result (desk_digits word.now ≡ None)
        (λ digits. desk_digits word.now ≡ Some digits.now) }
{
    match word.split_first() {
        Some((b'@', digits)) => Some(digits),
        _ => None,
    }
}

// `@DESK REQUEST` and an act, from the digits of the desk on.
fn read_desk_command(digits: &[u8], rest: &[u8]) -> Option<Command>
    ensures { result ≡ desk_command digits.now (words_of rest.now) }
{
    let (number, rest) = first_word(rest)?;
    let (word, rest) = first_word(rest)?;
    let desk = read_desk(digits)?;
    let request = read_request(number)?;
    let verb = read_verb(ACTS_ALONE, word, rest)?;
    Some(Command {
        desk,
        request,
        verb,
    })
}

// A command that names no desk.
fn read_plain_command(allowed: Allowed, word: &[u8], rest: &[u8]) -> Option<Command>
    ensures { result ≡ plain_command allowed word.now (words_of rest.now) }
{
    let verb = read_verb(allowed, word, rest)?;
    Some(Command {
        desk: 0,
        request: 0,
        verb,
    })
}

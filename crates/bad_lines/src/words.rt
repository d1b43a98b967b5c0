//! What is wrong with the words of the command line, and which words there are.
use crate::types::Shown;
use std::fmt;
use std::io::Eprint;

/// What stands behind the word of a command.
#[derive(Clone, Copy)]
struct Usage {
    word: &'static str,
    /// The options.
    options: &'static [(&'static str, Value)],
}

/// The value of an option.
#[derive(Clone, Copy)]
enum Value {
    /// A text, shown so.
    Text(&'static str),
    /// A number of this range.
    Number(u64, u64),
    /// The name of a batch.
    Batch,
}

const BOOK: (&str, Value) = ("book", Value::Text("PATH"));

const LIMIT: (&str, Value) = ("limit", Value::Number(1, 1_000_000));

const LANES: (&str, Value) = ("lanes", Value::Number(0, 16));

const CELLS: (&str, Value) = ("cells", Value::Text("DIR"));

const REMOTE: (&str, Value) = ("remote", Value::Number(1, 65_520));

const BATCH: (&str, Value) = ("batch", Value::Batch);

/// The most bytes of a name.
const MAX_NAME: usize = 32;

// What stands behind the words of the commands.
const OF_RUN: &[(&str, Value)] = &[BOOK, LIMIT, LANES, CELLS, REMOTE];

const OF_SERVE: &[(&str, Value)] = &[
    BOOK,
    LIMIT,
    LANES,
    CELLS,
    REMOTE,
    ("doors", Value::Number(0, 16)),
    ("port", Value::Number(1, 65_520)),
    ("connections", Value::Number(1, 999_999)),
];

const OF_AUDIT: &[(&str, Value)] = &[BOOK, ("rows", Value::Number(0, 1_000_000))];

const OF_FOLLOW: &[(&str, Value)] = &[BOOK, ("shipments", Value::Number(1, 1_000_000))];

const OF_ROWS_AFTER: &[(&str, Value)] = &[BOOK, ("after", Value::Number(0, 1_000_000))];

// The commands, and what stands behind each.
const USAGES: [(&str, &[(&str, Value)]); 15] = [
    ("run", OF_RUN),
    ("serve", OF_SERVE),
    ("import", &[BOOK, LIMIT]),
    ("report", &[BOOK, BATCH]),
    ("export", &[BOOK]),
    ("acts", OF_ROWS_AFTER),
    ("list", &[BOOK, LIMIT]),
    ("check", &[BOOK]),
    ("audit", OF_AUDIT),
    ("paper", &[BOOK, BATCH]),
    ("prove", &[]),
    ("ship", OF_ROWS_AFTER),
    ("follow", OF_FOLLOW),
    ("migrate", &[BOOK]),
    ("trial", &[]),
];

// The usage of a command.
fn usage_of((word, options): (&'static str, &'static [(&'static str, Value)])) -> Usage {
    Usage { word, options }
}

/// Why words are outside the grammar.
#[derive(Clone, Copy)]
enum Fault<'a> {
    /// There is none, or it asks for help or for the version: nothing is to be said of it.
    Nothing,
    NoCommand(&'a str),
    NoOption(&'static str, &'a str),
    NoWord(&'static str, &'a str),
    Twice(&'static str),
    NoValue(&'static str),
    Range(&'static str, u64, u64, &'a str),
    Batch(&'a str),
    /// `paper` has both of its options, `trial` its two numbers.
    Lacks(&'static str),
}

/// Says on standard error which of some words is outside the grammar, and what the commands are; of
/// `--version` alone the version.
pub fn explain_words<E: Eprint>(errors: &E, version: &str, words: &[String]) {
    if is_word(words, 0, "--version") {
        let _ = eprintln!(errors; "hall {version}");
        return;
    }
    let fault = fault_of(words);
    if !matches!(fault, Fault::Nothing) {
        let _ = eprintln!(errors; "hall: {fault}");
    }
    let _ = eprintln!(errors; "hall: the commands, each option as --NAME VALUE or --NAME=VALUE:");
    for usage in USAGES {
        let _ = eprintln!(errors; "  {}", usage_of(usage));
    }
}

// Whether the word at a place is this.
fn is_word(words: &[String], place: usize, wanted: &str) -> bool {
    match words.get(place) {
        Some(word) => word.as_str() == wanted,
        None => false,
    }
}

// What is wrong with some words.
fn fault_of(words: &[String]) -> Fault<'_> {
    let Some((first, rest)) = words.split_first() else {
        return Fault::Nothing;
    };
    if matches!(first.as_str(), "help" | "--help" | "-h") {
        return Fault::Nothing;
    }
    let found = USAGES.iter().find(|usage| usage.0 == first.as_str());
    match found {
        None => Fault::NoCommand(first.as_str()),
        Some(("trial", _)) => fault_of_trial(rest),
        Some(usage) => fault_of_options(&usage_of(*usage), rest),
    }
}

// What is wrong with the two numbers of a trial.
fn fault_of_trial(words: &[String]) -> Fault<'_> {
    if words.len() != 2 {
        return Fault::Lacks("trial has two words, NUMBER and COUNT");
    }
    Fault::Lacks("NUMBER is 0 to 18446744073709551615, COUNT 1 to 100000")
}

// What is wrong with the options of a command.
fn fault_of_options<'a>(usage: &Usage, words: &'a [String]) -> Fault<'a> {
    let mut given = [false; 8];
    let mut place = 0;
    for _word in words {
        let Some(word) = words.get(place) else {
            break;
        };
        let value = words.get(place.saturating_add(1)).map(String::as_str);
        match fault_of_option(usage, word.as_str(), value, &mut given) {
            Ok(taken) => place = place.saturating_add(taken),
            Err(fault) => return fault,
        }
    }
    if usage.word == "paper" && !(given[0] && given[1]) {
        return Fault::Lacks("paper has both --book and --batch");
    }
    Fault::Nothing
}

// How many words an option and its value are, or what is wrong with them. Those that were given are
// kept, by their places.
fn fault_of_option<'a>(
    usage: &Usage,
    word: &'a str,
    next: Option<&'a str>,
    given: &mut [bool; 8],
) -> Result<usize, Fault<'a>> {
    let Some(option) = word.strip_prefix("--") else {
        return Err(Fault::NoWord(usage.word, word));
    };
    let (name, joined) = match option.split_once('=') {
        Some((name, value)) => (name, Some(value)),
        None => (option, None),
    };
    let Some(place) = usage.options.iter().position(|(known, _)| *known == name) else {
        return Err(Fault::NoOption(usage.word, word));
    };
    let Some((known, kind)) = usage.options.get(place) else {
        return Err(Fault::NoOption(usage.word, word));
    };
    if let Some(seen) = given.get_mut(place) {
        if *seen {
            return Err(Fault::Twice(known));
        }
        *seen = true;
    }
    let taken = if joined.is_some() { 1 } else { 2 };
    let plain = next.filter(|value| !value.starts_with('-'));
    match joined.or(plain) {
        Some(value) if !value.is_empty() => match fault_of_value(known, *kind, value) {
            Some(fault) => Err(fault),
            None => Ok(taken),
        },
        _ => Err(Fault::NoValue(known)),
    }
}

// What is wrong with the value of an option.
fn fault_of_value<'a>(name: &'static str, kind: Value, value: &'a str) -> Option<Fault<'a>> {
    match kind {
        Value::Number(least, most) if !is_within(value, least, most) => {
            Some(Fault::Range(name, least, most, value))
        }
        Value::Batch if MAX_NAME < value.len() => Some(Fault::Batch(value)),
        _ => None,
    }
}

// Whether a text is a number of a range.
fn is_within(text: &str, least: u64, most: u64) -> bool {
    let is_number = text.len() <= 20 && text.bytes().all(|byte| byte.is_ascii_digit());
    match text.parse::<u64>() {
        Ok(number) => is_number && least <= number && number <= most,
        Err(_) => false,
    }
}

impl fmt::Display for Usage {
    fn fmt<W: fmt::Write>(&self, f: &mut fmt::Formatter<W>) -> fmt::Result {
        f.write_str(self.word)?;
        let is_needed = self.word == "paper";
        for (name, value) in self.options {
            match is_needed {
                true => write!(f, " --{name} {value}")?,
                false => write!(f, " [--{name} {value}]")?,
            }
        }
        if self.word == "trial" {
            f.write_str(" NUMBER COUNT")?;
        }
        Ok(())
    }
}

impl fmt::Display for Value {
    fn fmt<W: fmt::Write>(&self, f: &mut fmt::Formatter<W>) -> fmt::Result {
        match self {
            Value::Text(shown) => f.write_str(shown),
            Value::Number(least, most) => write!(f, "{least}..{most}"),
            Value::Batch => f.write_str("NAME"),
        }
    }
}

impl fmt::Display for Fault<'_> {
    fn fmt<W: fmt::Write>(&self, f: &mut fmt::Formatter<W>) -> fmt::Result {
        match self {
            Fault::Nothing => Ok(()),
            Fault::NoCommand(word) => write!(f, "no command {}", Shown(word.as_bytes())),
            Fault::NoOption(command, word) => {
                write!(f, "{command} has no option {}", Shown(word.as_bytes()))
            }
            Fault::NoWord(command, word) => {
                write!(
                    f,
                    "{command} has options alone, not {}",
                    Shown(word.as_bytes())
                )
            }
            Fault::Twice(name) => write!(f, "--{name} stands there twice"),
            Fault::NoValue(name) => write!(f, "--{name} has no value"),
            Fault::Range(name, least, most, value) => write!(
                f,
                "--{name} is a number from {least} to {most}, not {}",
                Shown(value.as_bytes())
            ),
            Fault::Batch(name) => write!(
                f,
                "--batch is a name of 1 to 32 bytes, not {}",
                Shown(name.as_bytes())
            ),
            Fault::Lacks(why) => f.write_str(why),
        }
    }
}

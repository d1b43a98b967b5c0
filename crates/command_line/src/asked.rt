ghost use Rattle.std.specs.Prelude.{◌≡◌, ◌↔◌, Some, None, is_some, true};
ghost use Rattle.std.specs.Prelude.{IfOk, IfErr, MatchOption};
ghost use Rattle.command_line.specs.declared.types.WantsError.TheVariants.{Usage};
ghost use Rattle.clap.specs.Words.{first_value, found_of};
ghost use Rattle.command_line.specs.Words.{bytes_of, form_of, items_in, named_values, command_wanted, wanted_of};
ghost use Rattle.command_line.specs.Taken.{IsInRange, bytes_in, seen};

use crate::given::{has_form, is_asked};
use crate::parser::parse;
use crate::table::find_command;
use crate::text::Text;
use crate::types::{Command, Wants, WantsError};
use crate::values::{Texts, Values, read_values};
use clap::ArgMatches;
use std::alloc::{AllocError, Global};
use std::env;
use std::io::ErrorKind;
use std::rt::Env;

/// The words of the command line behind the program's name. Where one isn't UTF-8 there are none: no
/// command is without words.
///
/// # Errors
///
/// `AllocError` where there is no memory for them.
pub fn words(rt: &(impl Env + AllocGlobal)) -> Result<Vec<String>, AllocError> {
    match env::args(rt) {
        Ok(args) => args.skip(1).collect(rt.alloc()),
        Err(error) if error.kind() == ErrorKind::OutOfMemory => Err(AllocError),
        Err(_) => Ok(Vec::new(rt.alloc())),
    }
}

/// What the words of the command line ask for; the program's own name isn't among them. `Usage`
/// comes just where they are outside the grammar, and `NoMemory` only where they are in it.
pub fn wants(alloc: Global, words: &[String]) -> Result<Wants, WantsError>
    ensures ok { IfOk result (λ wants. wanted_of (bytes_of words.now) ≡ Some (seen wants)) }
    ensures err { IfErr result (λ why.
        (why ≡ Usage) ↔ (wanted_of (bytes_of words.now) ≡ None)) }
    ensures ranges { IfOk result (λ wants. IsInRange (seen wants)) }
{
    let Some((command, rest)) = read_words(words) else {
        return Err(WantsError::Usage);
    };
    let Ok(matches) = parse(alloc, command, rest) else {
        return Err(without_memory(command, rest));
    };
    let Some(values) = values_in(&matches) else {
        return Err(WantsError::Usage);
    };
    let Ok(book) = copied(alloc, matches.get_str("book")) else {
        return Err(WantsError::NoMemory);
    };
    let Ok(cells) = copied(alloc, matches.get_str("cells")) else {
        return Err(WantsError::NoMemory);
    };
    Ok(Wants {
        command,
        book,
        batch: values.batch,
        limit: values.limit,
        lanes: values.lanes,
        doors: values.doors,
        cells,
        port: values.port,
        connections: values.connections,
        number: values.number,
        count: values.count,
        remote: values.remote,
        after: values.after,
        rows: values.rows,
        shipments: values.shipments,
    })
}

// The values that `clap` read.
fn values_in(matches: &ArgMatches) -> Option<Values>
    ensures { result ≡ named_values (first_value (found_of matches.now)) }
{
    read_values(&Texts {
        batch: matches.get_str("batch"),
        limit: matches.get_str("limit"),
        lanes: matches.get_str("lanes"),
        doors: matches.get_str("doors"),
        port: matches.get_str("port"),
        connections: matches.get_str("connections"),
        number: matches.get_str("number"),
        count: matches.get_str("count"),
        remote: matches.get_str("remote"),
        after: matches.get_str("after"),
        rows: matches.get_str("rows"),
        shipments: matches.get_str("shipments"),
    })
}

// What is answered where there is no memory for words in the form of a command: `NoMemory`, where
// their values can be read.
fn without_memory(command: Command, words: &[String]) -> WantsError
    ensures { (result ≡ Usage) ↔ (command_wanted command (bytes_of words.now) ≡ None) }
{
    if is_asked(command, words) {
        WantsError::NoMemory
    } else {
        WantsError::Usage
    }
}

// The command and the words after it, where they are in its form. `clap` takes more words than these.
fn read_words<'a>(words: &'a [String]) -> Option<(Command, &'a [String])>
    ensures { MatchOption result (wanted_of (bytes_of words.now) ≡ None)
        (λ found. (wanted_of (bytes_of words.now) ≡ command_wanted found.0 (bytes_of found.1.now))
        × (is_some (items_in (form_of found.0) (bytes_of found.1.now)) ≡ true)) }
{
    let (word, rest) = words.split_first()?;
    let command = find_command(word.as_str())?;
    if !has_form(command, rest) {
        return None;
    }
    Some((command, rest))
}

// A copy of a path that may be there.
fn copied(alloc: Global, path: Option<&str>) -> Result<Option<Text>, AllocError>
    ensures { IfOk result (λ copy. copy ≡ bytes_in path.entry) }
{
    match path {
        Some(text) => Ok(Some(Text::new(alloc, text)?)),
        None => Ok(None),
    }
}

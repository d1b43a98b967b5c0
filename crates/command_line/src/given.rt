ghost use Rattle.std.specs.Prelude.{◌≡◌, ◌&&◌, List, Some, None, not, is_some};
ghost use Rattle.std.specs.List.{list_any};
ghost use Rattle.command_line.specs.Words.{bytes_of, gives, is_among, Item as Given};
ghost use Rattle.command_line.specs.Words.{form_of, items_in, read_items, value_of, command_wanted};
ghost use Rattle.command_line.specs.Words.{options, needed, places, are_given};
ghost use Rattle.command_line.specs.Taken.{are_words_taken, bytes_in, form_seen, is_read, texts_of};

use crate::items::{Item, first_item};
use crate::places::{are_placed, placed_value};
use crate::table::{Form, form_of};
use crate::types::Command;
use crate::values::{Texts, read_values};

/// Whether the words after a command's are in its form, whatever its values are.
pub fn has_form(command: Command, words: &[String]) -> bool
    ensures { result ≡ is_some (items_in (form_of command) (bytes_of words.now)) }
{
    are_items(form_of(command), words)
}

// Whether the words are items of a form.
#[tactic(auto, using(crate::proofs::GivenValues::taken_there))]
fn are_items(form: Form, words: &[String]) -> bool
    ensures { result ≡ is_some (items_in (form_seen form) (bytes_of words.now)) }
{
    match form {
        Form::Options(names) => are_taken(names, words),
        Form::Needed(names) => are_needed(names, words),
        Form::Places(names) => are_placed(names, words),
    }
}

/// Whether the words after a command's are in its grammar, their values among it.
#[tactic(auto, using(crate::proofs::GivenValues::read_asked))]
pub fn is_asked(command: Command, words: &[String]) -> bool
    ensures { result ≡ is_some (command_wanted command (bytes_of words.now)) }
{
    match form_of(command) {
        Form::Options(names) => are_options_read(names, words),
        Form::Needed(names) => are_needed_read(names, words),
        Form::Places(names) => are_places_read(names, words),
    }
}

// Whether the words are items of these options, and their values can be read.
#[tactic(auto, using(crate::proofs::GivenValues::not_taken_read))]
fn are_options_read(names: &[&str], words: &[String]) -> bool
    ensures { result ≡ is_read (options (texts_of names.now)) (bytes_of words.now) }
{
    if !are_taken(names, words) {
        return false;
    }
    let texts = Texts {
        batch: find_value("batch", words),
        limit: find_value("limit", words),
        lanes: find_value("lanes", words),
        doors: find_value("doors", words),
        port: find_value("port", words),
        connections: find_value("connections", words),
        number: find_value("number", words),
        count: find_value("count", words),
        remote: find_value("remote", words),
        after: find_value("after", words),
        rows: find_value("rows", words),
        shipments: find_value("shipments", words),
    };
    read_values(&texts).is_some()
}

// Whether the words are a value for each of these names, and can be read.
#[tactic(auto, using(crate::proofs::GivenValues::none_read))]
fn are_places_read(names: &[&str], words: &[String]) -> bool
    ensures { result ≡ is_read (places (texts_of names.now)) (bytes_of words.now) }
{
    if !are_placed(names, words) {
        return false;
    }
    let texts = Texts {
        batch: placed_value(names, "batch", words),
        limit: placed_value(names, "limit", words),
        lanes: placed_value(names, "lanes", words),
        doors: placed_value(names, "doors", words),
        port: placed_value(names, "port", words),
        connections: placed_value(names, "connections", words),
        number: placed_value(names, "number", words),
        count: placed_value(names, "count", words),
        remote: placed_value(names, "remote", words),
        after: placed_value(names, "after", words),
        rows: placed_value(names, "rows", words),
        shipments: placed_value(names, "shipments", words),
    };
    read_values(&texts).is_some()
}

// Whether the words are items of these options, each once, and their values can be read.
fn are_needed_read(names: &[&str], words: &[String]) -> bool
    ensures { result ≡ is_read (needed (texts_of names.now)) (bytes_of words.now) }
{
    are_needed(names, words) && are_options_read(names, words)
}

// Whether the words are items of these options, of which each comes once.
fn are_needed(names: &[&str], words: &[String]) -> bool
    ensures { result ≡ is_some (items_in (needed (texts_of names.now)) (bytes_of words.now)) }
{
    are_taken(names, words) && are_given(names, words)
}

// Whether the words, where they are items, give a value to each of these options.
fn are_given(names: &[&str], words: &[String]) -> bool
    ensures { (items : List Given) → read_items None (bytes_of words.now) ≡ Some items
        → result ≡ are_given (texts_of names.now) items }
{
    for name in names {
        if find_value(name, words).is_none() {
            return false;
        }
    }
    true
}

// Whether the words are items of these options, of which none comes twice.
fn are_taken(options: &[&str], words: &[String]) -> bool
    ensures { result ≡ are_words_taken (texts_of options.now) (bytes_of words.now) }
{
    let mut rest = words;
    while let Some((word, after)) = rest.split_first() {
        let Some((item, after)) = first_item(word.as_str(), after) else {
            return false;
        };
        if !is_taken(options, item, after) {
            return false;
        }
        rest = after;
    }
    true
}

// Whether an item is of one of these options, and the words after it don't give it again.
fn is_taken(options: &[&str], item: Item, words: &[String]) -> bool
    ensures { (items : List Given) → read_items None (bytes_of words.now) ≡ Some items
        → result ≡ (is_among (texts_of options.now) item.entry.name.now
        && not (list_any (gives item.entry.name.now) items)) }
{
    is_option(options, item.name) && find_value(item.name, words).is_none()
}

// Whether a name is that of an option.
fn is_option(options: &[&str], name: &str) -> bool
    ensures { result ≡ is_among (texts_of options.now) name.now }
{
    for option in options {
        if *option == name {
            return true;
        }
    }
    false
}

// The value that the words, where they are items, give to an option.
fn find_value<'a>(name: &str, words: &'a [String]) -> Option<&'a str>
    ensures { (items : List Given) → read_items None (bytes_of words.now) ≡ Some items
        → bytes_in result ≡ value_of items name.now }
{
    let mut rest = words;
    while let Some((word, after)) = rest.split_first() {
        let (item, after) = first_item(word.as_str(), after)?;
        if item.name == name {
            return Some(item.value);
        }
        rest = after;
    }
    None
}

ghost use Rattle.std.specs.Prelude.{◌≡◌, ◌≤◌, ◌∷◌, None, Some, length};
ghost use Rattle.std.specs.Prelude.{option_map, IfSome, MatchOption};
ghost use Rattle.clap.specs.Lexer.{long_of, name_and_value, strip_byte};
ghost use Rattle.command_line.specs.Words.{bytes_of, read_items, stands_alone, with_item};
ghost use Rattle.command_line.specs.Taken.{bytes_in};

/// The name of an option, and the value given to it.
#[derive(Clone, Copy)]
pub struct Item<'a> {
    pub name: &'a str,
    pub value: &'a str,
}

/// The item that begins with a word, and the words after it.
#[tactic(auto, unfolding(crate::specs::Words::read_items))]
pub fn first_item<'a>(word: &'a str, words: &'a [String]) -> Option<(Item<'a>, &'a [String])>
    ensures found { MatchOption result
        (read_items None (word.now ∷ bytes_of words.now) ≡ None)
        (λ found. read_items None (word.now ∷ bytes_of words.now)
        ≡ with_item found.0.name.now found.0.value.now
        (read_items None (bytes_of found.1.now))) }
    ensures fewer { IfSome result (λ found. length found.1.now ≤ length words.now) }
{
    let (name, value) = read_option(word)?;
    match value {
        None => next_value(name, words),
        Some(value) if value.is_empty() => None,
        Some(value) => Some((Item { name, value }, words)),
    }
}

// The item of a name whose value is the next word.
#[tactic(auto, unfolding(crate::specs::Words::read_items))]
fn next_value<'a>(name: &'a str, words: &'a [String]) -> Option<(Item<'a>, &'a [String])>
    ensures found { MatchOption result
        (read_items (Some name.now) (bytes_of words.now) ≡ None)
        (λ found. read_items (Some name.now) (bytes_of words.now)
        ≡ with_item found.0.name.now found.0.value.now
        (read_items None (bytes_of found.1.now))) }
    ensures fewer { IfSome result (λ found. length found.1.now ≤ length words.now) }
{
    let (word, rest) = words.split_first()?;
    let value = word.as_str();
    if !stands_alone(value) {
        return None;
    }
    Some((Item { name, value }, rest))
}

// The name behind the two dashes of a word, and the value behind its first `=`, if it has one.
fn read_option(word: &str) -> Option<(&str, Option<&str>)>
    ensures { option_map (λ found. (found.0.now, bytes_in found.1)) result ≡ long_of word.now }
{
    let text = strip_dash(strip_dash(word)?)?;
    if text.is_empty() {
        return None;
    }
    Some(split_value(text))
}

// What follows a first dash.
fn strip_dash(word: &str) -> Option<&str>
    ensures { bytes_in result ≡ strip_byte 45 word.now }
{
    word.strip_prefix('-')
}

// What stands before the first `=`, and what stands behind it, if there is one.
fn split_value(text: &str) -> (&str, Option<&str>)
    ensures { (result.0.now, bytes_in result.1) ≡ name_and_value text.now }
{
    match text.split_once('=') {
        Some((name, value)) => (name, Some(value)),
        None => (text, None),
    }
}

/// Whether a word is a value by itself.
pub fn stands_alone(word: &str) -> bool
    ensures { result ≡ stands_alone word.now }
{
    match word.as_bytes().first() {
        Some(byte) => *byte != b'-',
        None => false,
    }
}

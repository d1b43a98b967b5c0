ghost use Rattle.std.specs.Prelude.{◌≡◌, ◌∷◌, ℕ, List, None, Some, is_some, MatchOption};
ghost use Rattle.command_line.specs.Words.{Item, bytes_of, placed_items, value_of, with_item};
ghost use Rattle.command_line.specs.Taken.{bytes_in, texts_of};

use crate::items::stands_alone;

/// Whether the words are a value for each of these names.
pub fn are_placed(names: &[&str], words: &[String]) -> bool
    ensures { result ≡ is_some (placed_items (texts_of names.now) (bytes_of words.now)) }
{
    let mut rest = words;
    for _name in names {
        let Some((_, after)) = first_placed(rest) else {
            return false;
        };
        rest = after;
    }
    rest.is_empty()
}

/// The word that stands in the place of a name, where the words are a value for each of these.
pub fn placed_value<'a>(names: &[&str], name: &str, words: &'a [String]) -> Option<&'a str>
    ensures { (items : List Item)
        → placed_items (texts_of names.now) (bytes_of words.now) ≡ Some items
        → bytes_in result ≡ value_of items name.now }
{
    let mut rest = words;
    for own in names {
        let (value, after) = first_placed(rest)?;
        if *own == name {
            return Some(value);
        }
        rest = after;
    }
    None
}

// The value in the first place, whatever its name is, and the words after it.
fn first_placed<'a>(words: &'a [String]) -> Option<(&'a str, &'a [String])>
    ensures { (name : List ℕ) → (names : List (List ℕ)) → MatchOption result
        (placed_items (name ∷ names) (bytes_of words.now) ≡ None)
        (λ found. placed_items (name ∷ names) (bytes_of words.now)
        ≡ with_item name found.0.now (placed_items names (bytes_of found.1.now))) }
{
    let (word, rest) = words.split_first()?;
    let value = word.as_str();
    if !stands_alone(value) {
        return None;
    }
    Some((value, rest))
}

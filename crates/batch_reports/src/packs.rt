ghost use Rattle.std.specs.Prelude.{◌≤◌, ◌+◌, ◌*◌, ◌++◌, ◌^◌, codes, decimal, length, unsigned_abs};
ghost use Rattle.std.specs.List.{AllByRecursion};
ghost use Rattle.hall_units.specs.Grams.{gram_text};
ghost use Rattle.book_words.specs.Ranges.{IsPackInRange};
ghost use Rattle.book_texts.specs.Appending.{HasRoom, Appended};
ghost use Rattle.batch_reports.specs.Texts.{masses_text, found_text, pack_text, pack_lines};

use book_texts::{
    MAX_WORDS, append, append_count, append_grams, class_word, pile_word, signal_words,
};
use book_words::PackView;
use hall_limits::NAME_BYTES;
use hall_units::{MAX_COUNT, MAX_GRAM_TEXT};

/// The bytes of the labels of what a pack weighs.
const LABELS: usize = 30;

/// The most bytes of what a pack weighs: two numbers, a name and two masses.
const MAX_MASSES: usize = LABELS + 2 * MAX_COUNT + NAME_BYTES + 2 * MAX_GRAM_TEXT;

/// The most bytes of what a pack is found to be: three words, each behind a blank.
const MAX_FOUND: usize = 3 * (1 + MAX_WORDS);

/// The most bytes of the line of a pack.
pub const MAX_PACK_TEXT: usize = MAX_MASSES + MAX_FOUND + 1;

/// Appends the state of a pack, in a line.
#[tactic(auto, unfolding(crate::specs::Texts::pack_text))]
pub fn push_pack(to: &mut Vec<u8>, view: &PackView)
    requires room { HasRoom to.old MAX_PACK_TEXT }
    requires range { IsPackInRange view.now }
    ensures { Appended to.old to.new (pack_text view.now) MAX_PACK_TEXT }
{
    push_masses(to, view);
    push_found(to, view);
    append(to, b"\n");
}

// Appends what a pack weighs, and what it was weighed for.
fn push_masses(to: &mut Vec<u8>, view: &PackView)
    requires room { HasRoom to.old MAX_MASSES }
    requires range { IsPackInRange view.now }
    ensures { Appended to.old to.new (masses_text view.now) MAX_MASSES }
{
    push_number(to, b"pack ", view.pack);
    append(to, b" batch ");
    append(to, view.batch.as_bytes());
    push_number(to, b" lane ", u32::from(view.lane));
    push_mass(to, b" gross ", &view.gross);
    push_mass(to, b" net ", &view.net);
}

// Appends a label and a number.
fn push_number(to: &mut Vec<u8>, label: &[u8], number: u32)
    requires { HasRoom to.old (length label.now + MAX_COUNT) }
    ensures { Appended to.old to.new (label.now ++ decimal number) (length label.now + MAX_COUNT) }
{
    append(to, label);
    append_count(to, number);
}

// Appends a label and a mass in grams.
fn push_mass(to: &mut Vec<u8>, label: &[u8], mg: &i64)
    requires room { HasRoom to.old (length label.now + MAX_GRAM_TEXT) }
    requires range { unsigned_abs mg.now ≤ 10 ^ 15 }
    ensures { Appended to.old to.new (label.now ++ gram_text mg.now)
        (length label.now + MAX_GRAM_TEXT) }
{
    append(to, label);
    append_grams(to, *mg);
}

// Appends what a pack is found to be: its class, its signal and its pile.
fn push_found(to: &mut Vec<u8>, view: &PackView)
    requires { HasRoom to.old MAX_FOUND }
    ensures { Appended to.old to.new (found_text view.now) MAX_FOUND }
{
    push_word(to, class_word(view.class));
    push_word(to, signal_words(view.signal));
    push_word(to, pile_word(view.pile));
}

// Appends a blank and the words for a thing.
fn push_word(to: &mut Vec<u8>, words: &[u8])
    requires room { HasRoom to.old (1 + MAX_WORDS) }
    requires short { length words.now ≤ MAX_WORDS }
    ensures { Appended to.old to.new (codes " " ++ words.now) (1 + MAX_WORDS) }
{
    append(to, b" ");
    append(to, words);
}

/// Appends the lines of some packs.
pub fn push_packs(to: &mut Vec<u8>, packs: &[PackView])
    requires room { HasRoom to.old (MAX_PACK_TEXT * length packs.now) }
    requires range { AllByRecursion IsPackInRange packs.now }
    ensures { Appended to.old to.new (pack_lines packs.now) (MAX_PACK_TEXT * length packs.now) }
{
    let mut rest = packs;
    while let Some((view, behind)) = rest.split_first() {
        push_pack(to, view);
        rest = behind;
    }
}

ghost use Rattle.std.specs.Prelude.{pos, ◌≡◌, ◌≤◌, ◌++◌, decimal, length};
ghost use Rattle.hall_units.specs.Days.{IsDay, day_text};
ghost use Rattle.hall_units.specs.Grams.{gram_text};
ghost use Rattle.hall_units.specs.Printing.{Prints};
ghost use Rattle.book_words.specs.Names.{bytes_of};
ghost use Rattle.book_words.specs.Ranges.{IsBetween, IsRefusalInRange};
ghost use Rattle.book_words.specs.Soundness.{IsRefusal};
ghost use Rattle.book_texts.specs.Appending.{HasRoom, Appended};
ghost use Rattle.batch_reports.specs.Texts.{refusal_text, kept_text, wanted_text};

use crate::answers::TEXT_ROOM;
use book_texts::{
    MAX_WORDS, append, append_count, append_day, append_grams, pile_word, state_word,
};
use book_words::{Name, Refusal, Refused};
use hall_limits::MAX_GROSS;
use hall_units::{MAX_GRAM_TEXT, NoMemory, make_room};

/// The most bytes that stand before what a refusal keeps.
pub const MAX_LEAD: usize = 1;

/// The most bytes of what a refusal keeps, and of what stands before it: a blank and a mass. A name
/// is shorter.
pub const MAX_KEPT: usize = MAX_LEAD + MAX_GRAM_TEXT;

/// Appends the text of a refusal: its number, its name and what it keeps, and the length of the
/// list. With room for `TEXT_ROOM` bytes it takes no memory; where memory is refused nothing is
/// appended.
#[tactic(auto, using(book_laws::proofs::RangeLaws::refusal_told_in_range))]
pub fn refusal_text(refused: &Refused, to: &mut Vec<u8>) -> Result<(), NoMemory>
    requires { IsRefusal refused.now }
    ensures { Prints to.old to.new result (refusal_text refused.now) TEXT_ROOM }
{
    make_room(to, TEXT_ROOM)?;
    push_refused(to, refused);
    Ok(())
}

/// Appends the text of a refusal, whoever told it: of any that keeps what is in range, also one that
/// no ask was answered with.
#[tactic(auto, unfolding(crate::specs::Texts::refusal_text))]
pub fn push_refused(to: &mut Vec<u8>, refused: &Refused)
    requires room { HasRoom to.old TEXT_ROOM }
    requires range { IsRefusalInRange refused.now.refusal }
    ensures { Appended to.old to.new (refusal_text refused.now) TEXT_ROOM }
{
    append(to, b"refused ");
    append_count(to, u32::from(refused.refusal.number()));
    append(to, b" ");
    append(to, refused.refusal.name().as_bytes());
    push_kept(to, b" ", &refused.refusal);
    append(to, b" at ");
    append_count(to, refused.at);
    append(to, b"\n");
}

/// Appends a lead, as a blank, and what a refusal keeps; where it keeps nothing, nothing.
pub fn push_kept(to: &mut Vec<u8>, lead: &[u8], refusal: &Refusal)
    requires room { HasRoom to.old MAX_KEPT }
    requires short { length lead.now ≤ MAX_LEAD }
    requires range { IsRefusalInRange refusal.now }
    ensures { Appended to.old to.new (kept_text lead.now refusal.now) MAX_KEPT }
{
    match refusal {
        Refusal::RequestOld { last } => push_count(to, lead, *last),
        Refusal::RequestReused { row } => push_count(to, lead, *row),
        Refusal::RequestGap { last } => push_count(to, lead, *last),
        Refusal::BookFull { limit } => push_count(to, lead, *limit),
        Refusal::DayBack { last } => push_day(to, lead, *last),
        Refusal::BatchState { state } => push_word(to, lead, state_word(*state)),
        Refusal::LaneBusy { batch } => push_name(to, lead, batch),
        Refusal::NoTare { product } => push_name(to, lead, product),
        Refusal::PriorWrong { wanted } => push_word(to, lead, wanted_word(*wanted)),
        Refusal::LanesRunning { lane } => push_count(to, lead, u32::from(*lane)),
        Refusal::PackPile { pile } => push_word(to, lead, pile_word(*pile)),
        Refusal::Unsettled { lane } => push_count(to, lead, u32::from(*lane)),
        Refusal::ModeSmall { n } => push_count(to, lead, *n),
        Refusal::MeasuredAlready { value } => push_gross(to, lead, *value),
        Refusal::SecondNotNeeded { d1 } => push_count(to, lead, *d1),
        Refusal::Unmeasured { pack } => push_count(to, lead, *pack),
        Refusal::SecondNeeded { d1 } => push_count(to, lead, *d1),
        Refusal::TareFrozen { batch } => push_name(to, lead, batch),
        _ => (),
    }
}

// Appends a lead and a count.
fn push_count(to: &mut Vec<u8>, lead: &[u8], count: u32)
    requires room { HasRoom to.old MAX_KEPT }
    requires short { length lead.now ≤ MAX_LEAD }
    ensures { Appended to.old to.new (lead.now ++ decimal count) MAX_KEPT }
{
    append(to, lead);
    append_count(to, count);
}

// Appends a lead and a day.
fn push_day(to: &mut Vec<u8>, lead: &[u8], day: i32)
    requires room { HasRoom to.old MAX_KEPT }
    requires short { length lead.now ≤ MAX_LEAD }
    requires range { IsDay day }
    ensures { Appended to.old to.new (lead.now ++ day_text day) MAX_KEPT }
{
    append(to, lead);
    append_day(to, day);
}

// Appends a lead and a gross in grams.
fn push_gross(to: &mut Vec<u8>, lead: &[u8], gross: i64)
    requires room { HasRoom to.old MAX_KEPT }
    requires short { length lead.now ≤ MAX_LEAD }
    requires range { IsBetween (pos 0) MAX_GROSS gross }
    ensures { Appended to.old to.new (lead.now ++ gram_text gross) MAX_KEPT }
{
    append(to, lead);
    append_grams(to, gross);
}

// Appends a lead and a name.
fn push_name(to: &mut Vec<u8>, lead: &[u8], name: &Name)
    requires room { HasRoom to.old MAX_KEPT }
    requires short { length lead.now ≤ MAX_LEAD }
    ensures { Appended to.old to.new (lead.now ++ bytes_of name.now) MAX_KEPT }
{
    append(to, lead);
    append(to, name.as_bytes());
}

// Appends a lead and a word.
fn push_word(to: &mut Vec<u8>, lead: &[u8], word: &[u8])
    requires room { HasRoom to.old MAX_KEPT }
    requires lead { length lead.now ≤ MAX_LEAD }
    requires short { length word.now ≤ MAX_WORDS }
    ensures { Appended to.old to.new (lead.now ++ word.now) MAX_KEPT }
{
    append(to, lead);
    append(to, word);
}

// Whether the lane's act has to say what the gate did, or must not.
fn wanted_word(wanted: bool) -> &'static [u8]
    ensures text { result.now ≡ wanted_text wanted }
    ensures short { length result.now ≤ MAX_WORDS }
{
    if wanted { b"wanted" } else { b"unwanted" }
}

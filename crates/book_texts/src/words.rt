ghost use Rattle.std.specs.Prelude.{◌≡◌, ◌≤◌, length};
ghost use Rattle.book_texts.specs.Words.{signal_text, class_text, pile_text, state_text, mode_text, unit_text};

use annex_tables::Mode;
use book_words::{BatchState, Unit};
use pack_judge::{Cause, Class, Pile, Signal};

/// The most bytes of the words for a signal; those for any other thing are shorter.
pub const MAX_WORDS: usize = 17;

/// The words for a signal.
pub fn signal_words(signal: Signal) -> &'static [u8]
    ensures text { result.now ≡ signal_text signal }
    ensures short { length result.now ≤ MAX_WORDS }
{
    match signal {
        Signal::Pass => b"pass",
        Signal::Reject(Cause::Held) => b"reject held",
        Signal::Reject(Cause::Full) => b"reject full",
        Signal::Reject(Cause::Inadequate) => b"reject inadequate",
        Signal::Reject(Cause::Allowance) => b"reject allowance",
    }
}

/// The word for a class.
pub fn class_word(class: Class) -> &'static [u8]
    ensures text { result.now ≡ class_text class }
    ensures short { length result.now ≤ MAX_WORDS }
{
    match class {
        Class::Standard => b"standard",
        Class::NonStandard => b"nonstandard",
        Class::Inadequate => b"inadequate",
    }
}

/// The word for a pile.
pub fn pile_word(pile: Pile) -> &'static [u8]
    ensures text { result.now ≡ pile_text pile }
    ensures short { length result.now ≤ MAX_WORDS }
{
    match pile {
        Pile::Passed => b"passed",
        Pile::Rejected => b"rejected",
        Pile::Sampled => b"sampled",
        Pile::Voided => b"voided",
    }
}

/// The word for the state of a batch.
pub fn state_word(state: BatchState) -> &'static [u8]
    ensures text { result.now ≡ state_text state }
    ensures short { length result.now ≤ MAX_WORDS }
{
    match state {
        BatchState::Running => b"running",
        BatchState::Ended => b"ended",
        BatchState::Drawn => b"drawn",
        BatchState::Closed => b"closed",
    }
}

/// The word for the mode of a test.
pub fn mode_word(mode: Mode) -> &'static [u8]
    ensures text { result.now ≡ mode_text mode }
    ensures short { length result.now ≤ MAX_WORDS }
{
    match mode {
        Mode::Keep => b"keep",
        Mode::Destroy => b"destroy",
    }
}

/// What follows a quantity: nothing by mass, `ml` by volume.
pub fn unit_word(unit: Unit) -> &'static [u8]
    ensures text { result.now ≡ unit_text unit }
    ensures short { length result.now ≤ MAX_WORDS }
{
    match unit {
        Unit::Mass => b"",
        Unit::Volume => b" ml",
    }
}

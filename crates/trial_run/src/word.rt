ghost use Rattle.std.specs.Prelude.{◌≡◌};
ghost use Rattle.sample_draw.specs.Draws.{next_word};
ghost use Rattle.trial_run.specs.TrialScripts.{gross_by};

use crate::commands::{GROSSES, LEAST_GROSS};

// The generator of the draws, as `sample_draw` has it: its factor and what it adds are those of
// Knuth's MMIX, and the low bits of a word repeat too soon to choose by.
const MULTIPLIER: u64 = 6_364_136_223_846_793_005;

const INCREMENT: u64 = 1_442_695_040_888_963_407;

const LOW_BITS: u32 = 33;

/// The word that follows, as in a draw.
pub fn following(word: u64) -> u64
    ensures { result ≡ next_word word }
{
    word.wrapping_mul(MULTIPLIER).wrapping_add(INCREMENT)
}

/// The gross of a pack in mg, by its word.
pub fn gross_by(word: u64) -> i64
    ensures { result ≡ gross_by word }
{
    let place = (word >> LOW_BITS) as u32 % GROSSES;
    i64::from(LEAST_GROSS + place)
}

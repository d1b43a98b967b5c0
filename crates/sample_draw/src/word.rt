ghost use Rattle.std.specs.Prelude.{◌≡◌, ◌<◌};
ghost use Rattle.sample_draw.specs.Draws.{next_word, place_of};

// The factor of the generator, that of Knuth's MMIX.
const MULTIPLIER: u64 = 6_364_136_223_846_793_005;
// What the generator adds, that of Knuth's MMIX.
const INCREMENT: u64 = 1_442_695_040_888_963_407;
// The low bits of a word, which repeat too soon to choose by.
const LOW_BITS: u32 = 33;

/// The word that follows.
pub fn following(word: u64) -> u64
    ensures { result ≡ next_word word }
{
    word.wrapping_mul(MULTIPLIER).wrapping_add(INCREMENT)
}

/// The place that a word points to among `remaining` packs.
pub fn place_in(word: u64, remaining: usize) -> usize
    requires { 0 < remaining }
    ensures value { result ≡ place_of word remaining }
    ensures within { result < remaining }
{
    (word >> LOW_BITS) as usize % remaining
}

ghost use Rattle.std.specs.Prelude.{◌≡◌, ◌<◌, ◌≤ℤ◌, ◌^◌, pos, length, All, IfSome, option_copied};
ghost use Rattle.hall_limits.specs.declared.TheConstants.{MAX_GROSS, MAX_TARE};
ghost use Rattle.book_words.specs.Samples.{sample_of};
ghost use Rattle.book_words.specs.Measures as measures;
ghost use Rattle.book_state.specs.Prepared.{IsSampleOf};

use crate::state::State;
use book_samples::{Measured, Sample};
use book_words::Name;

impl State {
    /// The samples of a batch, where one was drawn.
    pub fn sample(&self, batch: &Name) -> Option<&Sample>
        ensures value { option_copied result ≡ sample_of self.now.entries batch.now }
        ensures drawn { IfSome result (λ sample.
            IsSampleOf self.now.entries batch.now sample.now) }
    {
        let number = self.index.batch_number(batch)?;
        self.samples.sample(number)
    }

    /// What was measured of a pack.
    pub fn measured(&self, number: u32) -> Option<Measured>
        ensures value { result ≡ measures.measured_of self.now.entries number }
        ensures gross { IfSome result (λ measured.
            (pos 0 ≤ℤ measured.gross) × (measured.gross ≤ℤ MAX_GROSS)) }
        ensures empty { IfSome result (λ measured.
            (pos 0 ≤ℤ measured.empty) × (measured.empty ≤ℤ MAX_TARE)) }
    {
        self.samples.measured(number)
    }

    /// The first of some packs that wasn't measured.
    pub fn first_unmeasured(&self, packs: &[u64]) -> Option<u32>
        requires packs { All (λ pack. pack < 2 ^ 32) packs.now }
        ensures { result ≡ measures.first_unmeasured self.now.entries packs.now }
    {
        self.samples.first_unmeasured(packs)
    }

    /// How many of some packs were measured.
    pub fn measured_count(&self, packs: &[u64]) -> u32
        requires packs { All (λ pack. pack < 2 ^ 32) packs.now }
        requires few { length packs.now < 2 ^ 32 }
        ensures { result ≡ measures.measured_count self.now.entries packs.now }
    {
        self.samples.measured_count(packs)
    }
}

ghost use Rattle.std.specs.Prelude.{◌≡◌, None, IfOk, option_copied};

use annex_tables::{Mode, Plan};
use sample_draw::{NoMemory, Picks};
use std::alloc::Global;
use std::marker::Model;

/// What a pack weighed in the test, and what it weighed empty, in mg.
#[derive(Clone, Copy, PartialEq, Eq)]
pub struct Measured {
    gross: i64,
    empty: i64,
}

// Clauses see the two masses.
impl Model for Measured {
    ghost use Rattle.book_words.specs.Measures as measures;

    ghost Value = { measures.Measured };

    ghost view = { λ m. record { gross = m.gross; empty = m.empty } };

    ghost inverse = { λ m. record { gross = m.gross; empty = m.empty } };
}

impl Measured {
    /// What a pack weighed in the test, and what it weighed empty, in mg.
    pub fn new(gross: i64, empty: i64) -> Measured
        ensures { result ≡ record { gross = gross; empty = empty } }
    {
        Measured { gross, empty }
    }

    /// What the pack weighed in the test, in mg.
    pub fn gross(&self) -> i64
        ensures { result ≡ self.now.gross }
    {
        self.gross
    }

    /// What the pack weighed empty, in mg.
    pub fn empty(&self) -> i64
        ensures { result ≡ self.now.empty }
    {
        self.empty
    }
}

/// The samples of a batch: the mode and the plan of its test, the packs of the first sample, and
/// those of the second where one was drawn.
///
/// It is a pointer, so that what keeps a place for it takes little memory where there is none.
pub struct Sample {
    parts: Box<Parts>,
}

// By hand, so that letting one go is one call, where a derived drop is spelled at each exit.
impl Drop for Sample {
    fn drop(self) {
        let Self { parts: _ } = self;
    }
}

#[derive(Drop)]
struct Parts {
    mode: Mode,
    plan: Plan,
    first: Picks,
    second: Option<Picks>,
}

// Clauses see the packs as lists, in drawing order.
impl Model for Sample {
    ghost use Rattle.book_words.specs.Samples as samples;

    ghost Value = { samples.Sample };

    ghost view = { λ s. record {
      mode = s.parts.value.mode;
      plan = s.parts.value.plan;
      first = s.parts.value.first;
      second = s.parts.value.second;
    } };
}

impl Sample {
    /// The first sample of a batch, for which it takes the memory.
    pub(crate) fn new(
        alloc: Global,
        mode: Mode,
        plan: Plan,
        first: Picks,
    ) -> Result<Sample, NoMemory>
        ensures { IfOk result (λ sample.
            sample ≡ record { mode = mode; plan = plan; first = first; second = None }) }
    {
        let parts = Parts {
            mode,
            plan,
            first,
            second: None,
        };
        let parts = Box::new(alloc, parts)?;
        Ok(Sample { parts })
    }

    /// Whether the packs are kept or destroyed.
    pub fn mode(&self) -> Mode
        ensures { result ≡ self.now.mode }
    {
        self.parts.mode
    }

    /// The plan of the test.
    pub fn plan(&self) -> &Plan
        ensures { result.now ≡ self.now.plan }
    {
        &self.parts.plan
    }

    /// The packs of the first sample, in drawing order.
    pub fn first(&self) -> &Picks
        ensures { result.now ≡ self.now.first }
    {
        &self.parts.first
    }

    /// The packs of the second sample, in drawing order, where one was drawn.
    pub fn second(&self) -> Option<&Picks>
        ensures { option_copied result ≡ self.now.second }
    {
        self.parts.second.as_ref()
    }

    /// Takes the packs of the second sample, in drawing order.
    pub(crate) fn take_second(&mut self, picks: Picks)
        ensures { self.new ≡ record self.old { second = Some picks } }
    {
        self.parts.second = Some(picks);
    }
}

use book_samples::Sample;
use sample_draw::Picks;
use std::marker::Model;

/// What an act draws, made before the act is entered: entering it then takes no memory.
#[derive(Drop)]
pub struct Drawn {
    pub(crate) first: Option<Sample>,
    pub(crate) second: Option<Picks>,
}

impl Model for Drawn {
    ghost use Rattle.std.specs.Prelude.{[]};
    ghost use Rattle.std.specs.Option.{unwrap_or};
    ghost use Rattle.book_state.specs.Prepared as prepared;

    ghost Value = { prepared.Drawn };

    ghost view = { λ d. record { first = d.first; second = unwrap_or d.second [] } };
}

impl Drawn {
    ghost use Rattle.std.specs.Prelude.{◌≡◌};
    ghost use Rattle.book_state.specs.Prepared.{picks_in};

    /// The packs that were drawn, in drawing order.
    pub(crate) fn picks(&self) -> &[u64]
        ensures { result.now ≡ picks_in self.now }
    {
        if let Some(sample) = &self.first {
            return sample.first().as_slice();
        }
        match &self.second {
            Some(picks) => picks.as_slice(),
            None => &[],
        }
    }
}

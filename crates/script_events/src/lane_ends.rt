use lane_worker::LaneEnd;
use std::marker::Model;

/// How the works of lanes ended, in the order in which they were set to work.
#[derive(Drop)]
pub struct LaneEnds {
    ends: Vec<LaneEnd>,
}

impl Model for LaneEnds {
    ghost use Rattle.std.specs.Prelude.{List};
    ghost use Rattle.lane_worker.specs.declared.ending.LaneEnd.{LaneEnd};

    ghost Value = { List LaneEnd };

    ghost view = { λ e. e.ends.items };
}

impl LaneEnds {
    ghost use Rattle.std.specs.Prelude.{◌≡◌};

    /// The list of these ends.
    pub fn new(ends: Vec<LaneEnd>) -> LaneEnds
        ensures { result ≡ ends.items }
    {
        LaneEnds { ends }
    }

    /// The ends, to be read.
    pub fn as_slice(&self) -> &[LaneEnd]
        ensures { result.now ≡ self.now }
    {
        &self.ends
    }
}

ghost use Rattle.std.specs.Prelude.{◌≡◌, ◌≤◌, ℤ, IfSome, option_map};
ghost use Rattle.annex_tables.specs.declared.TheConstants.{MAX_POPULATION};
ghost use Rattle.book_words.specs.declared.act.Act.TheVariants as act;
ghost use Rattle.book_words.specs.Acts.{lane_batch};
ghost use Rattle.book_packs.specs.Told.{met_at};
ghost use Rattle.book_state.specs.Lanes.{IsLaneNow, IsSeen};

use crate::state::State;
use crate::types::LaneNow;
use crate::weighed::lane_tare;
use book_packs::AtWeighing;
use book_words::{Act, Prior};

impl State {
    /// The lane on which an act weighs, or which it stops, as it stands; nothing for any other act.
    /// No name is looked for.
    pub fn seen(&self, act: &Act) -> LaneNow
        ensures { IsSeen self.now.entries act.now result }
    {
        match act {
            Act::Weigh { lane, .. } | Act::StopLane { lane, .. } => self.lane_now(*lane),
            _ => LaneNow {
                batch: None,
                tare: None,
                unsettled: None,
            },
        }
    }

    // A lane as it stands.
    fn lane_now(&self, lane: u8) -> LaneNow
        ensures { IsLaneNow self.now.entries lane result }
    {
        LaneNow {
            batch: self.index.lane_batch_number(lane),
            tare: lane_tare(&self.index, &self.packs, lane),
            unsettled: self.unsettled(lane),
        }
    }

    /// What a weighing of a lane finds in its batch, once the prior has said what the gate did,
    /// whatever its gross is; `None` where the lane has no batch.
    pub fn met(&self, seen: &LaneNow, lane: u8, prior: Prior) -> Option<AtWeighing>
        requires { IsLaneNow self.now.entries lane seen.now }
        ensures value { (gross : ℤ) → result ≡ option_map
            (met_at self.now.entries (act.Weigh lane gross prior))
            (lane_batch self.now.entries lane) }
        ensures few { IfSome result (λ met. (met.population ≤ MAX_POPULATION)
            × (met.nonstandard ≤ met.population)) }
    {
        let batch = seen.batch?;
        Some(self.packs.totals_at(lane, prior, batch))
    }
}

use hall_units::{NoMemory, make_room};
use job_reports::{LANE_ROOM, lane_text};
use lane_worker::LaneEnd;
use script_events::LaneEnds;
use std::alloc::Global;
use std::marker::Model;

/// What is told of lanes: how each work ended, and the line of a lane that is still to be said.
#[derive(Drop)]
pub struct LaneLog {
    ends: Vec<LaneEnd>,
    unsaid: Vec<u8>,
}

impl Model for LaneLog {
    ghost use Rattle.std.specs.Prelude.{◌-◌, vec_len, vec_capacity};
    ghost use Rattle.script_session.specs.LaneLogs.{LogState};

    ghost Value = { LogState };

    ghost view = { λ log. record {
      told = record { ends = log.ends.items; unsaid = log.unsaid.items };
      room = vec_capacity log.ends - vec_len log.ends;
      line_room = vec_capacity log.unsaid - vec_len log.unsaid;
    } };
}

impl LaneLog {
    ghost use Rattle.std.specs.Prelude.{◌≡◌, ◌++◌, [], ◌∷◌, OnOk};
    ghost use Rattle.job_reports.specs.Texts.{lane_text};
    ghost use Rattle.script_session.specs.Outside.{nothing_told};
    ghost use Rattle.script_session.specs.LaneLogs.{HasRoom};

    /// A log that tells nothing. It takes no memory.
    pub fn new(alloc: Global) -> LaneLog
        ensures { result.told ≡ nothing_told }
    {
        LaneLog {
            ends: Vec::new(alloc),
            unsaid: Vec::new(alloc),
        }
    }

    /// Takes room for the end of one work more and for its line.
    pub fn reserve(&mut self) -> Result<(), NoMemory>
        ensures told { self.new.told ≡ self.old.told }
        ensures room { OnOk result (HasRoom self.new) }
    {
        self.ends.reserve(1)?;
        make_room(&mut self.unsaid, LANE_ROOM)?;
        Ok(())
    }

    /// Takes down how the work of a lane ended; its line is then to be said. It takes no memory.
    pub fn add(&mut self, lane: u8, end: LaneEnd)
        requires room { HasRoom self.old }
        ensures ends { self.new.told.ends ≡ self.old.told.ends ++ end ∷ [] }
        ensures unsaid { self.new.told.unsaid ≡ self.old.told.unsaid ++ lane_text lane end }
    {
        self.ends.push(end).unwrap();
        lane_text(lane, &end, &mut self.unsaid).unwrap();
    }

    /// How the works ended so far, to be read.
    pub fn ends(&self) -> &[LaneEnd]
        ensures { result.now ≡ self.now.told.ends }
    {
        &self.ends
    }

    /// The line that is still to be said; it is empty where there is none.
    pub fn unsaid(&self) -> &[u8]
        ensures { result.now ≡ self.now.told.unsaid }
    {
        &self.unsaid
    }

    /// Takes down that the line was said.
    pub fn clear(&mut self)
        ensures { self.new.told ≡ record self.old.told { unsaid = [] } }
    {
        self.unsaid.clear();
    }

    /// How the works ended.
    pub fn into_ends(self) -> LaneEnds
        ensures { result ≡ self.told.ends }
    {
        LaneEnds::new(self.ends)
    }
}

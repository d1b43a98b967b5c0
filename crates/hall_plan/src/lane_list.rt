use crate::types::PlannedLane;
use std::marker::Model;

/// The lanes of a plan, seen as their list. It is made from a `Vec` and gives it back without
/// taking memory.
#[derive(Drop)]
pub struct PlannedLanes {
    lanes: Vec<PlannedLane>,
}

impl Model for PlannedLanes {
    ghost use Rattle.std.specs.Prelude.{List};
    ghost use Rattle.hall_plan.specs.declared.types.PlannedLane.{PlannedLane};

    ghost Value = { List PlannedLane };

    ghost view = { λ planned. planned.lanes.items };
}

impl PlannedLanes {
    ghost use Rattle.std.specs.Prelude.{◌≡◌};

    /// The lanes in their order.
    pub fn as_slice(&self) -> &[PlannedLane]
        ensures { result.now ≡ self.now }
    {
        self.lanes.as_slice()
    }
}

impl From<Vec<PlannedLane>> for PlannedLanes {
    ghost use Rattle.std.specs.Prelude.{◌≡◌};

    ghost from_gives = { λ lanes planned. planned ≡ lanes.items };

    fn from(lanes: Vec<PlannedLane>) -> Self {
        PlannedLanes { lanes }
    }
}

impl From<PlannedLanes> for Vec<PlannedLane> {
    ghost use Rattle.std.specs.Prelude.{◌≡◌};

    ghost from_gives = { λ planned lanes. lanes.items ≡ planned };

    fn from(planned: PlannedLanes) -> Self {
        planned.lanes
    }
}

use office_door::DoorEnd;
use std::marker::Model;

/// How doors ended, in their order.
#[derive(Drop)]
pub struct DoorEnds {
    ends: Vec<DoorEnd>,
}

impl Model for DoorEnds {
    ghost use Rattle.std.specs.Prelude.{List};
    ghost use Rattle.office_door.specs.declared.ending.DoorEnd.{DoorEnd};

    ghost Value = { List DoorEnd };

    ghost view = { λ e. e.ends.items };
}

impl DoorEnds {
    ghost use Rattle.std.specs.Prelude.{◌≡◌};

    /// The list of these ends.
    pub fn new(ends: Vec<DoorEnd>) -> DoorEnds
        ensures { result ≡ ends.items }
    {
        DoorEnds { ends }
    }

    /// The ends, to be read.
    pub fn as_slice(&self) -> &[DoorEnd]
        ensures { result.now ≡ self.now }
    {
        &self.ends
    }
}

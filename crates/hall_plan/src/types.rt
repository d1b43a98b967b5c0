use crate::lane_list::PlannedLanes;
use crate::setup::Setup;
use book_words::Name;
use std::alloc::AllocError;
use std::fmt;

/// The most bytes of a plan: room for a setup of some thousand lines.
pub const MAX_PLAN: usize = 65_536;

/// What a plan says.
#[derive(Drop)]
pub struct Plan {
    /// The script to run before the lanes start; it is empty where the plan has none. Its lines
    /// aren't judged here.
    pub setup: Setup,
    /// For how many rows room is made before the lanes start: 0 to `MAX_ROWS`.
    pub reserve: u32,
    /// The lanes in their order, one for each lane of the hall. No number comes twice.
    pub lanes: PlannedLanes,
}

/// What a plan says of one lane.
#[derive(Clone, Copy, PartialEq, Eq)]
pub struct PlannedLane {
    /// The number of the lane: 1 to `MAX_LANE`.
    pub number: u8,
    /// The batch that it weighs; `None` where its cell says the batches, one after another.
    pub batch: Option<Name>,
}

/// Why a plan wasn't read.
#[derive(Clone, Copy, Debug, PartialEq, Eq)]
pub enum PlanError {
    /// The bytes are no plan of so many lanes. No place is told.
    Bad,
    /// There was no memory for it.
    NoMemory,
}

impl fmt::Display for PlanError {
    fn fmt<W: fmt::Write>(&self, f: &mut fmt::Formatter<W>) -> fmt::Result {
        match self {
            PlanError::Bad => write!(f, "this is no plan of these lanes"),
            PlanError::NoMemory => write!(f, "no memory for the plan"),
        }
    }
}

impl From<AllocError> for PlanError {
    ghost use Rattle.std.specs.Prelude.{◌≡◌};
    ghost use Rattle.hall_plan.specs.declared.types.PlanError.TheVariants.{NoMemory};

    ghost from_gives = { λ _ error. error ≡ NoMemory };

    fn from(_: AllocError) -> PlanError {
        PlanError::NoMemory
    }
}

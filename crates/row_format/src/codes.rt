ghost use Rattle.std.specs.Prelude.{◌≡◌, ◌+◌, ◌≤◌, length};
ghost use Rattle.row_format.specs.Reading.{kind_at, prior_at, signal_at, mode_at, unit_at};

use crate::types::RowFault;
use annex_tables::Mode;
use book_snapshot::KIND_PLACE;
use book_words::{Prior, Unit};
use pack_judge::{Cause, Signal};

/// The kinds of rows, one for each act.
#[derive(Clone, Copy)]
pub enum Kind {
    NewDay,
    PutProduct,
    PutTare,
    OpenBatch,
    StartLane,
    Weigh,
    StopLane,
    Void,
    EndRun,
    Draw,
    Measure,
    DrawSecond,
    Close,
}

/// The kind of a row.
#[tactic(auto, unfolding(crate::specs::Reading::kind_at))]
pub fn kind_at(bytes: &[u8]) -> Result<Kind, RowFault>
    requires { KIND_PLACE + 1 ≤ length bytes.now }
    ensures { result ≡ kind_at KIND_PLACE bytes.now }
{
    match bytes[KIND_PLACE] {
        1 => Ok(Kind::NewDay),
        2 => Ok(Kind::PutProduct),
        3 => Ok(Kind::PutTare),
        4 => Ok(Kind::OpenBatch),
        5 => Ok(Kind::StartLane),
        6 => Ok(Kind::Weigh),
        7 => Ok(Kind::StopLane),
        8 => Ok(Kind::Void),
        9 => Ok(Kind::EndRun),
        10 => Ok(Kind::Draw),
        11 => Ok(Kind::Measure),
        12 => Ok(Kind::DrawSecond),
        13 => Ok(Kind::Close),
        _ => Err(RowFault { place: KIND_PLACE }),
    }
}

/// The prior word at a place.
#[tactic(auto, unfolding(crate::specs::Reading::prior_at))]
pub fn prior_at(bytes: &[u8], place: usize) -> Result<Prior, RowFault>
    requires { place + 1 ≤ length bytes.now }
    ensures { result ≡ prior_at place bytes.now }
{
    match bytes[place] {
        0 => Ok(Prior::Nothing),
        1 => Ok(Prior::Opened),
        2 => Ok(Prior::Stayed),
        3 => Ok(Prior::Unknown),
        _ => Err(RowFault { place }),
    }
}

/// The signal at a place.
#[tactic(auto, unfolding(crate::specs::Reading::signal_at))]
pub fn signal_at(bytes: &[u8], place: usize) -> Result<Signal, RowFault>
    requires { place + 1 ≤ length bytes.now }
    ensures { result ≡ signal_at place bytes.now }
{
    match bytes[place] {
        0 => Ok(Signal::Pass),
        1 => Ok(Signal::Reject(Cause::Held)),
        2 => Ok(Signal::Reject(Cause::Full)),
        3 => Ok(Signal::Reject(Cause::Inadequate)),
        4 => Ok(Signal::Reject(Cause::Allowance)),
        _ => Err(RowFault { place }),
    }
}

/// The mode of a test at a place.
#[tactic(auto, unfolding(crate::specs::Reading::mode_at))]
pub fn mode_at(bytes: &[u8], place: usize) -> Result<Mode, RowFault>
    requires { place + 1 ≤ length bytes.now }
    ensures { result ≡ mode_at place bytes.now }
{
    match bytes[place] {
        1 => Ok(Mode::Keep),
        2 => Ok(Mode::Destroy),
        _ => Err(RowFault { place }),
    }
}

/// The unit of a nominal quantity at a place.
#[tactic(auto, unfolding(crate::specs::Reading::unit_at))]
pub fn unit_at(bytes: &[u8], place: usize) -> Result<Unit, RowFault>
    requires { place + 1 ≤ length bytes.now }
    ensures { result ≡ unit_at place bytes.now }
{
    match bytes[place] {
        0 => Ok(Unit::Mass),
        1 => Ok(Unit::Volume),
        _ => Err(RowFault { place }),
    }
}

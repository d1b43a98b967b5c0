use book_words::{Name, Refused};
use lane_changes::ChangeNotices;
use lane_worker::LaneEnd;
use office_door::DoorEnd;
use session_jobs::JobNotices;
use setup_run::SetupNotices;

/// Who hears nothing.
#[derive(Drop)]
pub struct NoNotices;

impl SetupNotices for NoNotices {
    fn refused(&mut self, _: u64, _: &[u8], _: &Refused) {}
}

impl ChangeNotices for NoNotices {
    fn start_refused(&self, _: u8, _: Name, _: Refused) {}

    fn weight_without_batch(&self, _: u8, _: u32) {}

    fn weights_without_batch(&self, _: u8, _: u32) {}
}

impl JobNotices for NoNotices {
    fn begin(&self, _: u32) {}

    fn lane_ended(&self, _: u8, _: Option<Name>, _: LaneEnd) {}

    fn door_ended(&self, _: u8, _: DoorEnd) {}
}

use crate::ready::Ready;
use book_rules::{Drawn, LaneNow};

/// What was made ready last, with what was seen of its lane and what its act draws.
#[derive(Drop)]
pub struct Pending {
    pub ready: Ready,
    pub seen: LaneNow,
    pub drawn: Drawn,
}

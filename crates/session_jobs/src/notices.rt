use book_words::Name;
use lane_changes::ChangeNotices;
use lane_worker::LaneEnd;
use office_door::DoorEnd;

/// Who hears what becomes of jobs while others go on, from the threads of all of them. What is made
/// of it stands in no clause.
pub trait JobNotices: ChangeNotices {
    /// The jobs begin, over a book of so many rows.
    fn begin(&self, rows: u32);

    /// The work of a lane for a batch has ended, or of a lane that changes its batch.
    fn lane_ended(&self, lane: u8, batch: Option<Name>, end: LaneEnd);

    /// The service of a door has ended.
    fn door_ended(&self, door: u8, end: DoorEnd);
}

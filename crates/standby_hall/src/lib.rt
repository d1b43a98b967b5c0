//! A standby hall: shipments of a book, and the store of a second hall that follows them. No memory
//! is taken but for the rows that are added.
#![tactic(auto)]

mod arriving;
mod following;
mod head;
mod law;
mod page;
mod rows;
mod shipping;
mod types;

pub use following::{follow, follow_run, follow_shipments};
pub use head::HEAD_BYTES;
pub use law::shipments_law;
pub use shipping::{ship, ship_entries};
pub use types::{FollowError, FollowStop, ShipHead};

//! One book that many callers ask at once. The book's store lies under one lock with the book seat
//! of a Turn; each caller has a pass. An ask takes the lock once, and before it lets go of it the
//! pass has seen the whole list, its own new row in it.
//!
//! A session runs from `Shared::new` to `Shared::close`. Its passes are made before it. Behind the
//! lock nothing is known of the store but what its type says (`HeldStore`): what the session keeps of
//! the disk, whatever a crash makes of it, which is shown to be enough for the whole run.
#![tactic(auto)]

mod held;
mod laws;
mod locked;
mod pass;
mod seats;
mod session;
mod shared;

pub use laws::caller_law;
pub use pass::{Pass, PassEnd};
pub use session::Session;
pub use shared::{Closed, Shared};

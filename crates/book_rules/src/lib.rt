//! The rules of the batch book: why an act is refused, the signal that it gets, and the replies to
//! it and to a repeat of it. All masses are whole milligrams.
#![tactic(auto)]

mod checks;
mod desks;
mod replies;
mod rules;
mod samples;
mod signals;

pub use book_verdicts::{Drawn, LaneNow, State};
pub use desks::{desk_number, repeated_row};
pub use replies::{reply_again, reply_new};
pub use rules::refuse;
pub use signals::recorded_signal;

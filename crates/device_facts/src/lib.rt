//! Facts about devices that every crate above cites: how faults are counted, what is known of a
//! device's bytes, and what its calls leave as it was.
#![tactic(auto)]

mod count;

pub use count::counted_once_more;

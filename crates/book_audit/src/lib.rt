//! An audit of a book: its slots and the snapshot beside them are both read and neither is believed.
//! It tells whether they agree and the fingerprint of the list, and writes nothing to the disk.
#![tactic(auto)]

mod beside;
mod content;
mod digest;
mod front;
mod slots;
mod snapshots;
mod telling;
mod types;
mod whole;

pub use telling::audit_run;
pub use types::{Audit, AuditEnd, Beside};
pub use whole::audit;

//! The history of a session: what all its jobs, which ran at once, come to in the rows that they leave.
//! It has no code: what stands in `specs` is said of a session by the crates above, and what stands in
//! `proofs` shows it.
#![tactic(auto)]

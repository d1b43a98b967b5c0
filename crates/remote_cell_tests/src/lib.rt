//! Tests of the cell of a scale on a line that isn't to be trusted, by its public calls: what the
//! lines of connections give and what is written to them, a cut at every byte of a session, each
//! call of the door failing in it, the budget, a lane over such a cell, and one over a real port.
#![tactic(auto)]

#[cfg(test)]
mod batches;
#[cfg(test)]
mod cells;
#[cfg(test)]
mod lanes;
#[cfg(test)]
mod ports;
#[cfg(test)]
mod sessions;
#[cfg(test)]
mod tables;

//! Tests of `serve` by the one function: a lane and a door at work, faults of cells, gates, doors and
//! the output; lanes that change their batch, one of them while another waits for its gate; and
//! callers that begin at the same time, each held against its own record.
#![tactic(auto)]

#[cfg(test)]
mod acts;
#[cfg(test)]
mod callers;
#[cfg(test)]
mod changes;
#[cfg(test)]
mod devices;
#[cfg(test)]
mod faults;
#[cfg(test)]
mod halls;
#[cfg(test)]
mod many;
#[cfg(test)]
mod relay;
#[cfg(test)]
mod same;
#[cfg(test)]
mod texts;
#[cfg(test)]
mod work;

//! Tests of a standby by its public calls, over devices in memory: the bytes of a shipment, copies
//! that lack rows or have more, every front of a shipment, several one right after another, and calls
//! of each device that fail.
#![tactic(auto)]

#[cfg(test)]
mod books;
#[cfg(test)]
mod copies;
#[cfg(test)]
mod following;
#[cfg(test)]
mod several;
#[cfg(test)]
mod shipping;

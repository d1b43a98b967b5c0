//! Tests of the program in memory, by the function of all commands but `serve`: each command once,
//! streams and disks that fail in mid-run, lanes at work, and reads that are spent.
#![tactic(auto)]

#[cfg(test)]
mod halls;
#[cfg(test)]
mod lanes;
#[cfg(test)]
mod reads;
#[cfg(test)]
mod streams;
#[cfg(test)]
mod texts;

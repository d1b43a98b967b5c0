//! Tests of the lines of scripts, by their public calls alone.
#![tactic(auto)]

#[cfg(test)]
mod bad;
#[cfg(test)]
mod commands;
#[cfg(test)]
mod feeds;
#[cfg(test)]
mod lines;
#[cfg(test)]
mod saying;

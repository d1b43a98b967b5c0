//! Tests of a disk over a file by its public calls.
#![tactic(auto)]

#[cfg(test)]
mod books;
#[cfg(test)]
mod files;
#[cfg(test)]
mod slots;

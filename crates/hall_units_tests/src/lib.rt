//! Tests of the texts and fields of the hall's units, by their public calls alone.
#![tactic(auto)]

#[cfg(test)]
mod units;

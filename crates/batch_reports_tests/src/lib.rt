//! Tests of the texts of answers by their public calls.
#![tactic(auto)]

#[cfg(test)]
mod texts;

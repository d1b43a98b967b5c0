//! Tests of the office's responses by their public calls.
#![tactic(auto)]

#[cfg(test)]
mod responses;

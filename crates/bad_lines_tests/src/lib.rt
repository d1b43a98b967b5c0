//! Tests of bad_lines: what is told of lines, and what its input and output keep.
#![tactic(auto)]

#[cfg(test)]
mod reasons;
#[cfg(test)]
mod streams;

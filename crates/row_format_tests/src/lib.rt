//! Tests of rows in bytes by the public calls: worked rows of both versions, byte by byte, and the
//! first fault of broken ones.
#![tactic(auto)]

#[cfg(test)]
mod old_rows;
#[cfg(test)]
mod rows;
#[cfg(test)]
mod words;

//! Tests of the words of the book and of each call of the book.
#![tactic(auto)]

#[cfg(test)]
mod begun;
#[cfg(test)]
mod calls;
#[cfg(test)]
mod names;
#[cfg(test)]
mod replays;

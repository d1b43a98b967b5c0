//! Tests of what the words of the command line ask for, by the public calls of `command_line`.
#![tactic(auto)]

#[cfg(test)]
mod words;

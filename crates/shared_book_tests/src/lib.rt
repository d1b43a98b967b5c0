//! Tests of a book that two callers on threads ask at once, by the public calls of `shared_book`.
#![tactic(auto)]

#[cfg(test)]
mod asking;
#[cfg(test)]
mod sessions;

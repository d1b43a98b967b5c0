//! Tests of the book on a disk by its public calls, over disks in memory: crashes, calls that fail,
//! bytes that are changed, entries that are adopted, how many calls and bytes a disk is asked, and
//! the texts of its errors.
#![tactic(auto)]

#[cfg(test)]
mod adopting;
#[cfg(test)]
mod books;
#[cfg(test)]
mod callers;
#[cfg(test)]
mod crashes;
#[cfg(test)]
mod damages;
#[cfg(test)]
mod stores;
#[cfg(test)]
mod texts;
#[cfg(test)]
mod worked;

//! Tests of a disk that fails: twice, in a run and in the one behind it; while a lane weighs and a
//! door answers; and while a journal is carried.
#![tactic(auto)]

#[cfg(test)]
mod carried;
#[cfg(test)]
mod halls;
#[cfg(test)]
mod offered;
#[cfg(test)]
mod replies;
#[cfg(test)]
mod run_faults;
#[cfg(test)]
mod serve_faults;

//! The program `prove`: whether the paper on standard input is true. It is made of the rules' crates
//! and the streams alone, so that an inspector can build it without the hall.
//!
//! Promised: what is written and the status, by `prove`, over any input and output; the program hands
//! it its streams, and ends with its status.
#![tactic(auto)]

mod proving;

use crate::proving::prove;
use disk_core::{StdSink, StdSource};
use std::process::ExitCode;

fn main(rt: HostRuntime) -> ExitCode {
    let mut input = StdSource::new(rt.stdin());
    let mut output = StdSink::new(rt.stdout());
    ExitCode::from(prove(rt.alloc(), &mut input, &mut output))
}

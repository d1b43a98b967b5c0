use crate::kept_input::KeptInput;
use crate::kept_output::{Fault, KeptOutput};
use crate::plan::{plan_fault, setup_line, table_of};
use crate::telling::reason;
use crate::types::Shown;
use command_line::Input;
use std::alloc::Global;
use std::io::{Eprint, Read, Write};

/// Says on standard error why a line is bad, or the plan of a hall of so many lanes, where the last
/// line of the output says so.
pub fn explain<E: Eprint, R: Read + Drop, W: Write + Drop>(
    errors: &E,
    alloc: Global,
    input: &KeptInput<R>,
    output: &KeptOutput<W>,
    lanes: u8,
) {
    match (output.fault(), input.kind()) {
        (Some(Fault::Line(number)), Input::Plan) => {
            explain_setup(errors, alloc, input.bytes(), number);
        }
        (Some(Fault::Line(0)), Input::Paper) => {
            let _ = eprintln!(errors; "hall: bad line 0: a paper has at most 16777216 bytes");
        }
        (Some(Fault::Line(number)), Input::Paper) => {
            explain_paper(errors, input.bytes(), number, input.line(number));
        }
        (Some(Fault::Line(number)), Input::Shipments) => {
            let _ = eprintln!(errors;
                "hall: bad line {number}: {}",
                input.shipment_reason(number)
            );
        }
        (Some(Fault::Line(number)), kind) => {
            if let Some(line) = input.line(number) {
                say(errors, kind, number, line);
            }
        }
        (Some(Fault::Plan), Input::Plan) => {
            let _ = eprintln!(errors; "hall: {}", plan_fault(alloc, input.bytes(), lanes));
        }
        _ => {}
    }
}

// Says why a line of a paper is bad.
fn explain_paper<E: Eprint>(errors: &E, paper: &[u8], number: u64, line: Option<&[u8]>) {
    let ended = paper.iter().filter(|byte| **byte == b'\n').count() as u64;
    match line {
        Some(line) if ended < number && !line.is_empty() => {
            let _ = eprintln!(errors; "hall: bad line {number}, {}: it has no LF", Shown(line));
        }
        Some(line) => say(errors, Input::Paper, number, line),
        None => {}
    }
}

// Says why a line of the setup of a plan is bad.
fn explain_setup<E: Eprint>(errors: &E, alloc: Global, plan: &[u8], number: u64) {
    if let Some(table) = table_of(alloc, plan) {
        if let Some(line) = setup_line(&table, number) {
            say(errors, Input::Script, number, line);
        }
    }
}

// Says why a line is bad.
fn say<E: Eprint>(errors: &E, kind: Input, number: u64, line: &[u8]) {
    let reason = reason(kind, number, line);
    let _ = eprintln!(errors; "hall: bad line {number}, {}: {reason}", Shown(line));
}

use crate::books::{Hall, Worked, enter_book};
use book_words::Name;
use disk_core::MemorySink;
use report_run::{print_register, print_report, print_sheet};
use std::alloc::Global;
use store_runs::Stop;

/// What is printed.
#[derive(Clone, Copy)]
pub(crate) enum Paper {
    Report,
    Sheet(&'static [u8]),
    Register,
}

/// How a printing stopped.
#[derive(Clone, Copy, Debug, PartialEq, Eq)]
pub(crate) enum End {
    Whole,
    Cut,
    Other,
}

// How a stop is told.
fn end_of(stop: Stop) -> End {
    match stop {
        Stop::Finished => End::Whole,
        Stop::WriteFault => End::Cut,
        _ => End::Other,
    }
}

// Prints from a book.
fn print_paper(alloc: Global, hall: &Hall, paper: Paper, output: &mut MemorySink) -> End {
    let stop = match paper {
        Paper::Report => print_report(alloc, hall.store(), output),
        Paper::Register => print_register(alloc, hall.store(), output),
        Paper::Sheet(batch) => match Name::new(batch) {
            Some(batch) => print_sheet(alloc, hall.store(), batch, output),
            None => Stop::ReadFault,
        },
    };
    end_of(stop)
}

/// Prints from a book to an output of which these writes fail, counted from 1.
pub(crate) fn print_to(
    alloc: Global,
    worked: Worked,
    paper: Paper,
    fails: &[u32],
) -> Option<(End, MemorySink)> {
    let mut output = MemorySink::new(alloc, Vec::from_slice(alloc, fails).ok()?);
    let hall = enter_book(alloc, worked)?;
    let end = print_paper(alloc, &hall, paper, &mut output);
    let _ = hall.back().close();
    Some((end, output))
}

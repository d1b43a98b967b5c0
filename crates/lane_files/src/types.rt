use crate::late_file::LateFile;
use crate::told_lines::ToldLines;
use disk_core::{StdSink, StdSource};
use lane_worker::LineGate;

/// A cell that reads the lines of a file.
pub type FileCell<'a, R> = ToldLines<StdSource<LateFile<'a, R>>, &'a R>;

/// A gate that writes its lines into a file.
pub type FileGate<'a, R> = LineGate<StdSink<LateFile<'a, R>>>;

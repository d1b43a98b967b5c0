ghost use Rattle.std.specs.Prelude.{◌≡◌, ◌≤◌, false, length, IfOk};
ghost use Rattle.paper_form.specs.declared.types.TheConstants.{MAX_PAPER};
ghost use Rattle.text_streams.specs.Streams.{input_at, output_at};
ghost use Rattle.prove_run.specs.Papers.{ProvesPaper, TellsTrue, end_at, end_unread, true_line};
ghost use Rattle.prove_run.specs.Proving.{ExplainsProving};

use crate::types::ProveEnd;
use book_texts::{MAX_VERDICT, append, push_verdict};
use book_words::Verdict;
use disk_core::{Sink, Source};
use paper_check::check_paper;
use paper_form::{MAX_PAPER, PaperFault};
use std::alloc::{AllocError, Global};
use text_streams::{Unread, read_whole, write_text};

// The most bytes of the line that says that a paper is true.
const MAX_TRUE: usize = 5 + MAX_VERDICT + 1;

// The line that says that a paper is true.
fn true_line(alloc: Global, verdict: &Verdict) -> Result<Vec<u8>, AllocError>
    ensures { IfOk result (λ line. line.items ≡ true_line verdict.now) }
{
    let mut line = Vec::with_capacity(alloc, MAX_TRUE)?;
    append(&mut line, b"true ");
    push_verdict(&mut line, verdict);
    append(&mut line, b"\n");
    Ok(line)
}

// Tells a verdict that was proved.
fn tell<K: Sink>(alloc: Global, verdict: &Verdict, output: &mut K) -> ProveEnd
    ensures { TellsTrue verdict.now (output_at K.Sink output.old) (output_at K.Sink output.new)
        result }
{
    let Ok(line) = true_line(alloc, verdict) else {
        return ProveEnd::NoMemory;
    };
    match write_text(output, &line) {
        Ok(()) => ProveEnd::Proved,
        Err(_) => ProveEnd::WriteFault,
    }
}

// The end at a fault of a paper.
fn fault_end(fault: PaperFault) -> ProveEnd
    ensures { result ≡ end_at fault }
{
    match fault {
        PaperFault::Line { line }
        | PaperFault::Tare { line }
        | PaperFault::Draw { line }
        | PaperFault::Verdict { line } => ProveEnd::BadLine(line),
        PaperFault::NoMemory => ProveEnd::NoMemory,
    }
}

// The end of an input that wasn't read whole.
fn unread_end(unread: Unread) -> ProveEnd
    ensures { result ≡ end_unread unread }
{
    match unread {
        Unread::TooLong => ProveEnd::BadLine(0),
        Unread::Failed => ProveEnd::ReadFault,
        Unread::NoMemory => ProveEnd::NoMemory,
    }
}

// Checks a paper that was read whole, and tells its verdict.
fn prove_paper<K: Sink>(alloc: Global, paper: &[u8], output: &mut K) -> ProveEnd
    requires short { length paper.now ≤ MAX_PAPER }
    ensures { ProvesPaper paper.now (output_at K.Sink output.old) (output_at K.Sink output.new)
        result }
{
    match check_paper(alloc, paper) {
        Ok(verdict) => tell(alloc, &verdict, output),
        Err(fault) => fault_end(fault),
    }
}

/// Reads an input to its end and proves that it is a paper whose verdict is true: then the line
/// `true VERDICT` is written. A fault is at its line; an input of more than 16 777 216 bytes is
/// faulty at line 0, and is read no further than the piece that makes it so. Nothing else is
/// written.
pub fn prove_input<S: Source, K: Sink>(alloc: Global, input: &mut S, output: &mut K) -> ProveEnd
    requires unended { S.ended input.old ≡ false }
    ensures { ExplainsProving (input_at S.Source input.old) (input_at S.Source input.new)
        (output_at K.Sink output.old) (output_at K.Sink output.new) result }
{
    match read_whole(alloc, input, MAX_PAPER as u32) {
        Ok(bytes) => prove_paper(alloc, &bytes, output),
        Err(unread) => unread_end(unread),
    }
}

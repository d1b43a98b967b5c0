ghost use Rattle.std.specs.Prelude.{◌≤◌, length, IfOk, IfErr};
ghost use Rattle.paper_check.specs.Checks.{IsProven, HasFault};

use crate::draws::{find_draw_fault, verdict_line};
use crate::tares::{find_tare_fault, keys_of};
use crate::verdicts::judge;
use book_words::Verdict;
use paper_form::{MAX_PAPER, PaperFault, read_paper};
use std::alloc::Global;

/// Whether a text of at most 16 777 216 bytes is a true paper: the answer is the verdict that its
/// last line says and that its other lines give, with its samples drawn anew. Otherwise the first
/// fault by its kind, at the least line of that kind. It believes nothing but the lines.
pub fn check_paper(alloc: Global, bytes: &[u8]) -> Result<Verdict, PaperFault>
    requires short { length bytes.now ≤ MAX_PAPER }
    ensures proven { IfOk result (IsProven bytes.now) }
    ensures fault { IfErr result (HasFault bytes.now) }
{
    let paper = read_paper(alloc, bytes)?;
    let keys = keys_of(alloc, &paper)?;
    if let Some(line) = find_tare_fault(alloc, &paper, &keys)? {
        return Err(PaperFault::Tare { line });
    }
    if let Some(line) = find_draw_fault(alloc, &paper, &keys)? {
        return Err(PaperFault::Draw { line });
    }
    let verdict = judge(alloc, &paper, &keys)?;
    if verdict != paper.verdict {
        return Err(PaperFault::Verdict {
            line: verdict_line(&paper),
        });
    }
    Ok(verdict)
}

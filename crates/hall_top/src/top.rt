//! The program as one function.
ghost use Rattle.std.specs.Prelude.{◌≡◌, ◌≤◌, ◌↔◌, length, false, true, IsTrue, None, Some};
ghost use Rattle.hall_limits.specs.declared.TheConstants.{MAX_LANE, MAX_DOOR};
ghost use Rattle.book_words.specs.Soundness.{IsSound as IsSoundBook};
ghost use Rattle.command_line.specs.Words.{Wanted, bytes_of, wanted_of};
ghost use Rattle.hall_alone.specs.Asked.{is_serve};
ghost use Rattle.hall_alone.specs.Requests.{RequestsOnce};
ghost use Rattle.call_endings.specs.Endings.{is_status};
ghost use Rattle.hall_alone.specs.Calls.{EndsAs, IsUsage, Leaves};
ghost use Rattle.hall_top.specs.Serving.{EndsServe};

use crate::serving::serve;
use command_line::wants;
use disk_core::{Disk, Door, Sink, Source};
use hall_alone::{Ended, end_answer, is_serve};
use lane_worker::Lane;
use serve_run::{JobNotices, SetupNotices};
use std::alloc::Global;
use std::sync::Wait;
use std::thread::Threads;

/// Does what the words say; the program's own name isn't among them. The disk is opened as a book,
/// whose rows may be as many as `--limit` says. `--book` is for who hands the disk in.
///
/// `run` reads a script. An act is answered by its row in the book or by a named refusal, and a
/// question by what the rows tell; each answer goes out before the next command is asked, and each
/// row is stable on the disk before its answer. At the end of the script, where rows were added, a
/// snapshot of the book is kept; then comes the summary. A line `work LANE BATCH` works one of the
/// lanes that are handed in, of which the first is lane 1, and is answered by the lane's line; a run
/// goes on behind a lane that ended early, unless the disk failed or there was no memory.
///
/// `serve` reads a plan to its end and asks its setup, a script of which nothing is printed; which
/// of its lines are refused is told to `notices`, as nothing is by other commands; so is how each
/// lane and door ends, as it does. Then all
/// lanes and all doors that are handed in are at work at once, each lane on its own batch, each act
/// answered by the one book; when the last has ended, and where rows were added, a snapshot is kept,
/// and each lane's line, each door's line and the summary are printed. The plan names a batch for
/// each lane, the first for the first lane, or says that the lane changes it: its cell names the
/// batches then, one after another.
///
/// `report` prints the sheets of all batches in order of opening, and the summary; with `--batch`
/// that one sheet, or the line that there is no such batch. `export` prints the register of all
/// packs in the order of their weighing. `check` says that the book is whole. These three read
/// nothing and leave the rows as they are.
///
/// `import` reads a table of acts of desks to its end, and then answers each as `run` answers a
/// line; at the end comes the summary. An import that comes again is answered again, and each of its
/// acts stands once. `trial` reads nothing: it makes a script from its two numbers, runs it, and
/// prints the summary alone.
///
/// `migrate` reads a journal of version 1 and carries its rows, up to the first slot that is cut
/// or whose gate is closed; what follows is read and passed over. A row that the book has is
/// compared with it, and one that it lacks is adopted as it stands, whatever the limit; a
/// migration that was stopped is run again. Where rows were added, a snapshot is kept. Then `rows
/// N whole` says how many rows the book has. Row N is bad where it spells no entry, differs from
/// the book's, or isn't lawful there; `bad line 0` says that the input isn't such a journal. The
/// rows before are carried.
///
/// `ship` reads nothing and writes the shipment of the book behind the first rows, as many as
/// `--after` says; the rows stay as they are. `follow` reads a shipment and does with its rows as
/// `migrate` does; the row is bad, too, which the book lacks before the first that was shipped, and
/// the one behind the last where anything follows it. It reads as many as `--shipments` says, one
/// right after another, or fewer where the input ends behind one; what is bad is so in the last one
/// read.
///
/// `list` reads nothing and prints what is in force: the newest day, products with their tares,
/// batches, lanes and desks. `audit` reads nothing, opens no book and writes nothing to the disk: it
/// compares the two copies of each row, where the disk has both, and prints the fingerprint of the
/// rows. Both leave the rows as they are.
///
/// `paper` reads nothing and writes the paper of a closed batch, all that its verdict rests on, or
/// the line of its refusal. `prove` reads a paper and says its verdict where it is true; line N is
/// bad where the paper's first fault is there, and line 0 where the input is longer than a paper.
/// Both leave the rows as they are.
///
/// | status | comes | last line |
/// |---|---|---|
/// | 0 | where the command was done | |
/// | 2 | at wrong words, and then nothing is read or opened | `usage: hall COMMAND [OPTIONS]` |
/// | 3 | at a line outside the grammar, a bad record or a bad row; at a plan that is none, or not of so many lanes | `bad line N`; `bad plan` |
/// | 4 | where the input failed | `read fault` |
/// | 5 | where the output failed | |
/// | 6 | where the disk failed | `disk fault` |
/// | 7 | where there is no memory | `no memory` |
/// | 8 | where the disk isn't a journal | `not a journal at PLACE` |
/// | 9 | where its rows aren't those of a book | `damaged row N` |
/// | 10 | where a lane ended since its cell or its gate failed, an item wasn't a weight, or it was refused | |
/// | 11 | where a door couldn't admit its next connection, or a fault of the link ended one | |
/// | 12 | where 100 000 000 reads (`migrate`: 200 000 000) each gave a byte, and no end came; an import has more than 1 000 000 records; the bound of a cell was reached; or a door served 1 000 000 connections | |
///
/// Where several hold, the least is answered, but 7 comes last.
///
/// Where the disk was opened as a book, the rows that it held stand first among the rows, and a crash
/// at any moment leaves them; where it wasn't, or was audited, there are no rows. The end of the input
/// wasn't given before, and nothing is read after it.
pub fn hall<
    S: Source,
    K: Sink,
    N: SetupNotices + JobNotices + Sync,
    D: Disk + Send,
    L: Lane + Send + Drop,
    O: Door + Send + Drop,
    R: Threads + Wait + Sync,
>(
    rt: &R,
    alloc: Global,
    words: &[String],
    input: &mut S,
    output: &mut K,
    notices: &mut N,
    disk: D,
    lanes: Vec<L>,
    doors: Vec<O>,
) -> Ended<D, L, O>
    requires few { length lanes.items ≤ MAX_LANE }
    requires few_doors { length doors.items ≤ MAX_DOOR }
    requires unended { S.ended input.old ≡ false }
    ensures words { (result.status ≡ 2) ↔ (wanted_of (bytes_of words.now) ≡ None) }
    ensures usage { result.status ≡ 2 → Leaves S.Source K.Sink L.Cell L.Gate input.old input.new
        output.old output.new lanes.items (IsUsage disk) result }

    // Every command but `serve`.
    ensures ends { (wanted : Wanted) → wanted_of (bytes_of words.now) ≡ Some wanted →
        is_serve wanted.command ≡ false → Leaves S.Source K.Sink L.Cell L.Gate input.old input.new
        output.old output.new lanes.items (EndsAs D.Disk wanted disk) result }
    ensures doors { (wanted : Wanted) → wanted_of (bytes_of words.now) ≡ Some wanted →
        is_serve wanted.command ≡ false → result.doors ≡ doors }

    // The command `serve`: it served over the book, or the disk wasn't opened as one.
    ensures serves { (wanted : Wanted) → wanted_of (bytes_of words.now) ≡ Some wanted →
        is_serve wanted.command ≡ true → EndsServe S.Source K.Sink D.Disk L.Cell L.Gate O.Source
        O.Door.own wanted.limit input.old input.new output.old output.new disk lanes doors
        result }

    // At every status.
    ensures status { IsTrue (is_status result.status) }
    ensures rows { IsSoundBook result.rows }
    ensures requests { RequestsOnce result.rows }
{
    match wants(alloc, words) {
        Ok(wanted) => {
            if is_serve(wanted.command) {
                serve(
                    rt,
                    alloc,
                    wanted.limit,
                    input,
                    output,
                    notices,
                    disk,
                    lanes,
                    doors,
                )
            } else {
                end_answer(alloc, Ok(wanted), input, output, disk, lanes, doors)
            }
        }
        Err(why) => end_answer(alloc, Err(why), input, output, disk, lanes, doors),
    }
}

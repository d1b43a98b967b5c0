ghost use Rattle.std.specs.Prelude.{◌≡◌, true, [], ◌∷◌, OnOk, OnErr, IfErr};
ghost use Rattle.book_store.specs.Stores.{entries_of};
ghost use Rattle.script_lines.specs.Script.{is_good, all_good};
ghost use Rattle.store_runs.specs.Books.{stored_book};
ghost use Rattle.store_runs.specs.Runs.{Goes};
ghost use Rattle.script_events.specs.Asking.{IsTold};
ghost use Rattle.script_events.specs.Scripts.{IsHandedIn};
ghost use Rattle.setup_run.specs.Setups.{setup_lines, after_lines, MayStopAtLine, StopsInSetup};

use crate::lines::{ended_line, last_line};
use crate::notices::SetupNotices;
use book_store::OneCaller;
use book_words::{Answered, Refused};
use disk_core::Disk;
use script_events::ask_command;
use script_lines::{Line, split_line};
use store_runs::Stop;

// Tells of an answer, where it is a refusal.
fn tell<N: SetupNotices>(
    notices: &mut N,
    number: u64,
    text: &[u8],
    answer: &Result<Answered, Refused>,
)
    requires { IsTold answer.now }
{
    if let Err(refused) = answer {
        notices.refused(number, text, refused);
    }
}

// Asks the command of a line, where it has one; its answer is passed over but for a refusal, which
// is told. No lane was handed in that a line might set to work.
fn ask_line<D: Disk, N: SetupNotices>(
    caller: &mut OneCaller<D>,
    notices: &mut N,
    line: &Line,
    number: u64,
    text: &[u8],
) -> Result<(), Stop>
    requires calm { caller.old.faults ≡ 0 }
    requires handed_in { IsHandedIn 0 line.now }
    ensures good { OnOk result (is_good line.now ≡ true) }
    ensures after { OnOk result (stored_book caller.new.store
        ≡ after_lines (stored_book caller.old.store) (line.now ∷ [])) }
    ensures stops { IfErr result (MayStopAtLine (stored_book caller.old.store) number line.now) }
    ensures same { OnErr result (stored_book caller.new.store ≡ stored_book caller.old.store) }
    ensures goes { Goes D.Disk result caller.old.store caller.new.store }
    ensures calm { OnOk result (caller.new.faults ≡ 0) }
{
    match line {
        Line::Nothing => Ok(()),
        Line::Asks(command) => {
            let answer = ask_command(caller, command)?;
            tell(notices, number, text, &answer);
            Ok(())
        }
        Line::Works { .. } | Line::Bad => Err(Stop::BadLine(number)),
    }
}

/// Asks the commands of a setup, line by line, up to its end or to what stops it. Each that is
/// refused is told.
pub fn ask_lines<D: Disk, N: SetupNotices>(
    caller: &mut OneCaller<D>,
    notices: &mut N,
    setup: &[u8],
) -> Result<(), Stop>
    requires calm { caller.old.faults ≡ 0 }
    ensures good { OnOk result (all_good (setup_lines setup.now) ≡ true) }
    ensures after { OnOk result (stored_book caller.new.store
        ≡ after_lines (stored_book caller.old.store) (setup_lines setup.now)) }
    ensures stops { IfErr result (StopsInSetup (stored_book caller.old.store) setup.now
        (entries_of caller.new.store)) }
    ensures goes { Goes D.Disk result caller.old.store caller.new.store }
{
    let mut number = 1;
    let mut rest = setup;
    while let Some((line, after)) = split_line(rest) {
        ask_line(caller, notices, &ended_line(line), number, line)?;
        number += 1;
        rest = after;
    }
    ask_line(caller, notices, &last_line(rest), number, rest)?;
    Ok(())
}

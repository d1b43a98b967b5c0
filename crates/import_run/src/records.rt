ghost use Rattle.std.specs.Prelude.{◌≡◌, ℕ, [], ◌∷◌, OnOk, IfErr};
ghost use Rattle.script_lines.specs.declared.command.Line.TheVariants as line;
ghost use Rattle.book_store.specs.Stores.{entries_of};
ghost use Rattle.text_streams.specs.Streams.{output_at};
ghost use Rattle.store_runs.specs.Runs.{Goes};
ghost use Rattle.import_table.specs.Imports.{import_in, at_end};
ghost use Rattle.script_session.specs.Sessions.{book_in, store_in, IsReady};
ghost use Rattle.script_events.specs.Commands.{lines_asking};
ghost use Rattle.script_session.specs.Ends.{StopsAtLine};
ghost use Rattle.script_session.specs.Ends.{HasAnswered};
ghost use Rattle.import_run.specs.Answered.{alone, HasAnsweredTo};
ghost use Rattle.import_run.specs.Ends.{EndsImport};
ghost use Rattle.import_run.specs.Reading.{import_stop};

use disk_core::{Disk, Sink};
use import_table::{ImportError, ImportReader};
use lane_worker::{ListCell, ListGate, PairLane};
use script_lines::Command;
use script_session::Session;
use std::alloc::Global;
use store_runs::Stop;

// An import works no lane, and none is handed in.
type NoLane = PairLane<ListCell, ListGate>;

// How an error of an import stops its run.
fn import_stop(error: ImportError) -> Stop
    ensures { result ≡ import_stop error }
{
    match error {
        ImportError::Bad { record } => Stop::BadLine(u64::from(record)),
        ImportError::TooMany => Stop::Spent,
        ImportError::NoMemory => Stop::NoMemory,
    }
}

// Asks a command and writes its answer, before anything else is asked.
fn answer<K: Sink, D: Disk>(
    session: &mut Session<D>,
    command: &Command,
    output: &mut K,
) -> Result<(), Stop>
    requires ready { IsReady session.old }
    ensures answered { OnOk result (HasAnswered (book_in session.old)
        (alone (output_at K.Sink output.old)) (alone (output_at K.Sink output.new))
        (book_in session.new) (lines_asking (command.now ∷ []))) }
    ensures stops { (number : ℕ) → IfErr result (StopsAtLine (book_in session.old)
        (alone (output_at K.Sink output.old)) (alone (output_at K.Sink output.new))
        (entries_of (store_in session.new)) [] number (line.Asks command.now)) }
    ensures goes { Goes D.Disk result (store_in session.old) (store_in session.new) }
    ensures ready { OnOk result (IsReady session.new) }
{
    session.answer::<K, NoLane>(command, output)
}

// Asks and answers the commands that an import has left, one after the other.
fn answer_records<K: Sink, D: Disk>(
    session: &mut Session<D>,
    import: &mut ImportReader<'_>,
    output: &mut K,
) -> Result<(), Stop>
    requires ready { IsReady session.old }
    ensures answered { OnOk result (HasAnsweredTo (book_in session.old)
        (output_at K.Sink output.old) (output_at K.Sink output.new) (book_in session.new)
        import.old at_end) }
    ensures stops { IfErr result (EndsImport (book_in session.old)
        (output_at K.Sink output.old) (output_at K.Sink output.new)
        (entries_of (store_in session.new)) import.old) }
    ensures goes { Goes D.Disk result (store_in session.old) (store_in session.new) }
    ensures ready { OnOk result (IsReady session.new) }
{
    loop {
        match import.next() {
            Ok(Some(command)) => answer(session, &command, output)?,
            Ok(None) => return Ok(()),
            Err(error) => return Err(import_stop(error)),
        }
    }
}

/// Asks and answers the commands of an import, up to its end or to what stops it.
pub fn answer_import<K: Sink, D: Disk>(
    alloc: Global,
    session: &mut Session<D>,
    bytes: &[u8],
    output: &mut K,
) -> Result<(), Stop>
    requires ready { IsReady session.old }
    ensures answered { OnOk result (HasAnsweredTo (book_in session.old)
        (output_at K.Sink output.old) (output_at K.Sink output.new) (book_in session.new)
        (import_in bytes.now) at_end) }
    ensures stops { IfErr result (EndsImport (book_in session.old)
        (output_at K.Sink output.old) (output_at K.Sink output.new)
        (entries_of (store_in session.new)) (import_in bytes.now)) }
    ensures goes { Goes D.Disk result (store_in session.old) (store_in session.new) }
    ensures ready { OnOk result (IsReady session.new) }
{
    match ImportReader::new(alloc, bytes) {
        Ok(mut import) => answer_records(session, &mut import, output),
        Err(error) => Err(import_stop(error)),
    }
}

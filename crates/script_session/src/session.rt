use crate::lane_log::LaneLog;
use crate::writing::write_whole;
use batch_reports::TEXT_ROOM;
use book_store::{OneCaller, Store};
use book_words::Name;
use disk_core::{Disk, Sink};
use lane_worker::Lane;
use script_events::{SCRIPT, ask_command, compose_answer, compose_summary, work_lane};
use script_lines::{Command, Line};
use std::alloc::Global;
use store_runs::{Stop, keep_snapshot};

/// How a run of a script stopped, the store that it leaves, and what is told of its lanes.
#[derive(Drop)]
pub struct ScriptEnd<D: Disk> {
    pub stop: Stop,
    pub store: Store<D>,
    pub log: LaneLog,
}

/// A book on a disk whose answers go out one by one, room for the text of an answer, and what is
/// told of lanes.
#[derive(Drop)]
pub struct Session<D: Disk> {
    caller: OneCaller<D>,
    text: Vec<u8>,
    log: LaneLog,
}

impl<D: Disk> Session<D> {
    ghost use Rattle.std.specs.Prelude.{◌≡◌, ◌≤◌, ℕ, List, [], ◌∷◌, true, length, OnOk, IfOk, IfErr};
    ghost use Rattle.script_lines.specs.declared.command.Line.TheVariants as line;
    ghost use Rattle.script_lines.specs.Script.{is_good};
    ghost use Rattle.book_store.specs.Stores.{entries_of, held_of, IsSound};
    ghost use Rattle.store_runs.specs.Runs.{Goes, RunGoes};
    ghost use Rattle.text_streams.specs.Streams.{output_at, WroteAll, IsCutIn};
    ghost use Rattle.store_runs.specs.declared.stop.Stop.TheVariants as stop;
    ghost use Rattle.script_session.specs.Sessions.{book_in, store_in, log_in, IsReady};
    ghost use Rattle.script_session.specs.Outside.{outside_at, nothing_told};
    ghost use Rattle.script_session.specs.Ends.{HasAnswered, StopsAtLine, EndsAtSummary};
    ghost use Rattle.script_events.specs.Scripts.{IsHandedIn};

    /// A session over a store, or the store where there is no memory for it.
    pub fn new(alloc: Global, store: Store<D>) -> Result<Session<D>, Store<D>>
        requires sound { IsSound D.Disk store }
        ensures store { IfOk result (λ session. store_in session ≡ store) }
        ensures log { IfOk result (λ session. log_in session ≡ nothing_told) }
        ensures ready { IfOk result IsReady }
        ensures back { IfErr result (λ back. back ≡ store) }
    {
        let Ok(text) = Vec::with_capacity(alloc, TEXT_ROOM) else {
            return Err(store);
        };
        Ok(Session {
            caller: OneCaller::new(store, SCRIPT),
            text,
            log: LaneLog::new(alloc),
        })
    }

    /// The end of a run that stopped so.
    pub fn stop(self, stop: Stop) -> ScriptEnd<D>
        ensures stop { result.stop ≡ stop }
        ensures store { result.store ≡ store_in self }
        ensures log { result.log.told ≡ log_in self }
    {
        ScriptEnd {
            stop,
            store: self.caller.back(),
            log: self.log,
        }
    }

    /// Asks a command and writes its answer, before anything else is asked. The lanes stand still.
    pub fn answer<K: Sink, L: Lane>(
        &mut self,
        command: &Command,
        output: &mut K,
    ) -> Result<(), Stop>
        requires ready { IsReady self.old }
        ensures answered { (lanes : List L) → OnOk result (HasAnswered (book_in self.old)
            (outside_at K.Sink L.Cell L.Gate output.old lanes (log_in self.old))
            (outside_at K.Sink L.Cell L.Gate output.new lanes (log_in self.new))
            (book_in self.new) (line.Asks command.now ∷ [])) }
        ensures stops { (lanes : List L) (number : ℕ) → IfErr result (StopsAtLine (book_in self.old)
            (outside_at K.Sink L.Cell L.Gate output.old lanes (log_in self.old))
            (outside_at K.Sink L.Cell L.Gate output.new lanes (log_in self.new))
            (entries_of (store_in self.new)) [] number (line.Asks command.now)) }
        ensures goes { Goes D.Disk result (store_in self.old) (store_in self.new) }
        ensures ready { OnOk result (IsReady self.new) }
    {
        let answer = ask_command(&mut self.caller, command)?;
        compose_answer(&answer, &mut self.text);
        write_whole(output, &self.text)
    }

    // Says the line of a lane; where it is cut, it isn't said again.
    fn say_line<K: Sink>(&mut self, output: &mut K) -> Result<(), Stop>
        ensures wrote { OnOk result (WroteAll (output_at K.Sink output.old)
            (output_at K.Sink output.new) self.old.log.told.unsaid) }
        ensures cut { IfErr result (λ how. (how ≡ stop.WriteFault)
            × IsCutIn (output_at K.Sink output.old) (output_at K.Sink output.new) []
            self.old.log.told.unsaid) }
        ensures said { log_in self.new ≡ record (log_in self.old) { unsaid = [] } }
        ensures caller { self.new.caller ≡ self.old.caller }
        ensures text { self.new.text ≡ self.old.text }
    {
        let written = write_whole(output, self.log.unsaid());
        self.log.clear();
        written
    }

    /// Works the lane of a number for a batch, and writes its line before anything else is asked.
    /// Where the work stops the run, its line is still to be said. Room to tell how the work ends
    /// is taken before it begins.
    pub fn work<K: Sink, L: Lane>(
        &mut self,
        number: u8,
        batch: Name,
        output: &mut K,
        lanes: &mut [L],
    ) -> Result<(), Stop>
        requires ready { IsReady self.old }
        requires least { 1 ≤ number }
        requires most { number ≤ length lanes.old }
        ensures answered { OnOk result (HasAnswered (book_in self.old)
            (outside_at K.Sink L.Cell L.Gate output.old lanes.old (log_in self.old))
            (outside_at K.Sink L.Cell L.Gate output.new lanes.new (log_in self.new))
            (book_in self.new) (line.Works number batch ∷ [])) }
        ensures stops { (place : ℕ) → IfErr result (StopsAtLine (book_in self.old)
            (outside_at K.Sink L.Cell L.Gate output.old lanes.old (log_in self.old))
            (outside_at K.Sink L.Cell L.Gate output.new lanes.new (log_in self.new))
            (entries_of (store_in self.new)) [] place (line.Works number batch)) }
        ensures goes { Goes D.Disk result (store_in self.old) (store_in self.new) }
        ensures ready { OnOk result (IsReady self.new) }
    {
        let Ok(()) = self.log.reserve() else {
            return Err(Stop::NoMemory);
        };
        let lane = &mut lanes[usize::from(number) - 1];
        let worked = work_lane(&mut self.caller, lane, number, batch);
        self.log.add(number, worked.end);
        worked.step?;
        self.say_line(output)
    }

    /// Does what the line of a number says: a command is answered, a lane is worked, and a bad line
    /// stops the run.
    pub fn handle_line<K: Sink, L: Lane>(
        &mut self,
        line: &Line,
        number: u64,
        output: &mut K,
        lanes: &mut [L],
    ) -> Result<(), Stop>
        requires ready { IsReady self.old }
        requires handed_in { IsHandedIn (length lanes.old) line.now }
        ensures good { OnOk result (is_good line.now ≡ true) }
        ensures answered { OnOk result (HasAnswered (book_in self.old)
            (outside_at K.Sink L.Cell L.Gate output.old lanes.old (log_in self.old))
            (outside_at K.Sink L.Cell L.Gate output.new lanes.new (log_in self.new))
            (book_in self.new) (line.now ∷ [])) }
        ensures stops { IfErr result (StopsAtLine (book_in self.old)
            (outside_at K.Sink L.Cell L.Gate output.old lanes.old (log_in self.old))
            (outside_at K.Sink L.Cell L.Gate output.new lanes.new (log_in self.new))
            (entries_of (store_in self.new)) [] number line.now) }
        ensures goes { Goes D.Disk result (store_in self.old) (store_in self.new) }
        ensures ready { OnOk result (IsReady self.new) }
    {
        match line {
            Line::Nothing => Ok(()),
            Line::Asks(command) => self.answer::<K, L>(command, output),
            Line::Works { lane, batch } => self.work(*lane, *batch, output, lanes),
            Line::Bad => Err(Stop::BadLine(number)),
        }
    }

    /// Ends a run whose script was read and answered to its end: where rows were added, a snapshot
    /// of the book is kept first; then comes the summary of the list as it stands.
    pub fn finish<K: Sink>(self, output: &mut K) -> ScriptEnd<D>
        requires ready { IsReady self }
        ensures ends { EndsAtSummary (held_of (store_in self)) (output_at K.Sink output.old)
            (output_at K.Sink output.new) (entries_of (store_in self)) result.stop }
        ensures same { entries_of result.store ≡ entries_of (store_in self) }
        ensures log { result.log.told ≡ log_in self }
        ensures goes { RunGoes D.Disk result.stop (store_in self) result.store }
    {
        let Session {
            caller,
            mut text,
            log,
        } = self;
        let mut store = caller.back();
        match summarize(&mut store, &mut text, output) {
            Ok(()) => ScriptEnd {
                stop: Stop::Finished,
                store,
                log,
            },
            Err(stop) => ScriptEnd { stop, store, log },
        }
    }
}

ghost use Rattle.std.specs.Prelude.{◌≡◌, ◌≤◌, [], OnOk, IfErr, vec_capacity};
ghost use Rattle.book_words.specs.Views.{summary};
ghost use Rattle.batch_reports.specs.Texts.{summary_text};
ghost use Rattle.book_store.specs.Stores.{entries_of, held_of, IsSound};
ghost use Rattle.text_streams.specs.Streams.{output_at, WroteAll};
ghost use Rattle.store_runs.specs.Runs.{Goes, LeavesSnapshot};
ghost use Rattle.script_session.specs.Ends.{StopsAtSummary};

// Keeps a snapshot of a book to which rows were added, and writes its summary.
fn summarize<D: Disk, K: Sink>(
    store: &mut Store<D>,
    text: &mut Vec<u8>,
    output: &mut K,
) -> Result<(), Stop>
    requires sound { IsSound D.Disk store.old }
    requires room { TEXT_ROOM ≤ vec_capacity text.old }
    ensures wrote { OnOk result (WroteAll (output_at K.Sink output.old)
        (output_at K.Sink output.new) (summary_text (summary (entries_of store.old)))) }
    ensures stops { IfErr result (StopsAtSummary (held_of store.old) (output_at K.Sink output.old)
        (output_at K.Sink output.new) (entries_of store.old) []) }
    ensures same { entries_of store.new ≡ entries_of store.old }
    ensures goes { Goes D.Disk result store.old store.new }
    ensures snapshot { OnOk result (LeavesSnapshot D.Disk store.new) }
{
    keep_snapshot(store)?;
    compose_summary(store.book(), text);
    write_whole(output, text)
}

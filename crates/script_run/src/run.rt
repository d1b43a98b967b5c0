ghost use Rattle.std.specs.Prelude.{◌≡◌, ◌≤◌, length};
ghost use Rattle.hall_limits.specs.declared.TheConstants.{MAX_LANE};
ghost use Rattle.script_events.specs.Scripts.{every_command};

use book_store::Store;
use disk_core::{Disk, Sink};
use lane_worker::Lane;
use script_lines::{Allowed, Feed, TooLong, split_line};
use script_session::Session;
use std::alloc::Global;
use store_runs::Stop;

// A script may have every command, and set the lanes to work that are handed in.
fn every_command<L>(lanes: &[L]) -> Allowed
    requires { length lanes.now ≤ MAX_LANE }
    ensures { result ≡ every_command (length lanes.now) }
{
    Allowed {
        questions: true,
        lanes: lanes.len() as u8,
    }
}

/// A run of a script: its book, and the lines that it was given.
#[derive(Drop)]
pub struct Run<D: Disk> {
    pub session: Session<D>,
    pub feed: Feed,
}

impl<D: Disk> Run<D> {
    ghost use Rattle.std.specs.Prelude.{◌≡◌, ◌+◌, ◌<◌, ◌≤◌, ℕ, List, [], ◌∷◌, ◌++◌, length, false, OnOk, IfOk, IfErr};
    ghost use Rattle.script_lines.specs.Lines.{has_end};
    ghost use Rattle.script_lines.specs.Feed.{feed_after};
    ghost use Rattle.book_store.specs.Stores.{entries_of, IsSound};
    ghost use Rattle.store_runs.specs.Books.{BookState};
    ghost use Rattle.store_runs.specs.Runs.{Goes};
    ghost use Rattle.script_session.specs.Sessions.{book_in, store_in, log_in, IsReady};
    ghost use Rattle.script_run.specs.Books.{run_state};
    ghost use Rattle.script_session.specs.Ends.{StopsInScript};
    ghost use Rattle.script_session.specs.Outside.{Outside, outside_at, nothing_told};
    ghost use Rattle.script_run.specs.Reached.{Reached, Steps, IsWholeSoFar};

    /// A run over a store that was given nothing, with room for all that it keeps but the entries
    /// of its book; or the store where there is no memory for it.
    pub fn new(alloc: Global, store: Store<D>) -> Result<Run<D>, Store<D>>
        requires sound { IsSound D.Disk store }
        ensures fed { IfOk result (λ run. run.feed ≡ feed_after []) }
        ensures store { IfOk result (λ run. store_in run.session ≡ store) }
        ensures log { IfOk result (λ run. log_in run.session ≡ nothing_told) }
        ensures ready { IfOk result (λ run. IsReady run.session) }
        ensures back { IfErr result (λ back. back ≡ store) }
    {
        let Ok(feed) = Feed::new(alloc) else {
            return Err(store);
        };
        match Session::new(alloc, store) {
            Ok(session) => Ok(Run { session, feed }),
            Err(store) => Err(store),
        }
    }

    /// Takes a piece of the script: each line that ends in it is answered before the next.
    pub fn take_piece<K: Sink, L: Lane>(
        &mut self,
        piece: &[u8],
        output: &mut K,
        lanes: &mut [L],
    ) -> Result<(), Stop>
        requires few { length lanes.old ≤ MAX_LANE }
        requires room { self.old.feed.ended + length piece.now < u64.MAX }
        requires ready { IsReady self.old.session }
        ensures steps { Steps
            (outside_at K.Sink L.Cell L.Gate output.old lanes.old (log_in self.old.session))
            (outside_at K.Sink L.Cell L.Gate output.new lanes.new (log_in self.new.session))
            (run_state self.old) (run_state self.new) piece.now result }
        ensures goes { Goes D.Disk result (store_in self.old.session) (store_in self.new.session) }
        ensures ready { OnOk result (IsReady self.new.session) }
    {
        let mut rest = piece;
        while let Some((part, after)) = split_line(rest) {
            self.end_line(part, output, lanes)?;
            rest = after;
        }
        self.begin_line(rest)
    }

    // Takes the bytes up to an LF, and does what the line says that they end.
    fn end_line<K: Sink, L: Lane>(
        &mut self,
        part: &[u8],
        output: &mut K,
        lanes: &mut [L],
    ) -> Result<(), Stop>
        requires few { length lanes.old ≤ MAX_LANE }
        requires room { self.old.feed.ended < u64.MAX }
        requires no_end { has_end part.now ≡ false }
        requires ready { IsReady self.old.session }
        ensures steps { Steps
            (outside_at K.Sink L.Cell L.Gate output.old lanes.old (log_in self.old.session))
            (outside_at K.Sink L.Cell L.Gate output.new lanes.new (log_in self.new.session))
            (run_state self.old) (run_state self.new) (part.now ++ 10 ∷ []) result }
        ensures one { self.new.feed.ended ≡ self.old.feed.ended + 1 }
        ensures goes { Goes D.Disk result (store_in self.old.session) (store_in self.new.session) }
        ensures ready { OnOk result (IsReady self.new.session) }
    {
        let number = self.feed.line_number();
        let line = self.feed.end_line(every_command(lanes), part);
        self.session.handle_line(&line, number, output, lanes)
    }

    // Takes more bytes of the line that has begun: one that is longer than any may be is bad at
    // once.
    fn begin_line(&mut self, part: &[u8]) -> Result<(), Stop>
        requires room { self.old.feed.ended < u64.MAX }
        requires no_end { has_end part.now ≡ false }
        ensures steps { (now : Outside) → Steps now now (run_state self.old) (run_state self.new)
            part.now result }
        ensures session { self.new.session ≡ self.old.session }
        ensures goes { Goes D.Disk result (store_in self.old.session) (store_in self.new.session) }
    {
        match self.feed.begin_line(part) {
            Ok(()) => Ok(()),
            Err(TooLong) => Err(Stop::BadLine(self.feed.line_number())),
        }
    }

    /// Does what a last line says that lacks its LF; without one nothing is left to do.
    pub fn finish_line<K: Sink, L: Lane>(
        &mut self,
        output: &mut K,
        lanes: &mut [L],
    ) -> Result<(), Stop>
        requires few { length lanes.old ≤ MAX_LANE }
        requires room { self.old.feed.ended < u64.MAX }
        requires ready { IsReady self.old.session }
        ensures whole { (book : BookState) (before : Outside) (taken : List ℕ)
            → Reached book before
            (outside_at K.Sink L.Cell L.Gate output.old lanes.old (log_in self.old.session))
            taken (run_state self.old)
            → OnOk result (IsWholeSoFar book before
            (outside_at K.Sink L.Cell L.Gate output.new lanes.new (log_in self.new.session))
            taken (book_in self.new.session)) }
        ensures stops { (book : BookState) (before : Outside) (taken : List ℕ)
            → Reached book before
            (outside_at K.Sink L.Cell L.Gate output.old lanes.old (log_in self.old.session))
            taken (run_state self.old)
            → IfErr result (λ stop. StopsInScript book before
            (outside_at K.Sink L.Cell L.Gate output.new lanes.new (log_in self.new.session))
            (entries_of (store_in self.new.session)) stop taken) }
        ensures goes { Goes D.Disk result (store_in self.old.session) (store_in self.new.session) }
        ensures ready { OnOk result (IsReady self.new.session) }
    {
        let line = self.feed.read_last(every_command(lanes));
        let number = self.feed.line_number();
        self.session.handle_line(&line, number, output, lanes)
    }
}

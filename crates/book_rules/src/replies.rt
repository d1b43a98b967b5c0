ghost use Rattle.std.specs.Prelude.{◌≡◌, ◌-◌, None, Some, take, true, is_some};
ghost use Rattle.book_words.specs.declared.act.Ask as asks;
ghost use Rattle.book_words.specs.declared.name.Name as names;
ghost use Rattle.book_words.specs.Acts.{product_of};
ghost use Rattle.book_words.specs.Desks.{repeated_row};
ghost use Rattle.book_words.specs.Refusals.{refusals_of, first_refusal};
ghost use Rattle.book_words.specs.Signals.{recorded_signal};
ghost use Rattle.book_words.specs.Answers.{reply_behind, judged_or_done};
ghost use Rattle.book_rules.specs.Replying.{reply_with};

use book_verdicts::{State, verdict_of};
use book_words::{Act, Reply};
use pack_judge::Signal;

// A weighing is answered by its row and its signal, any other act by its row.
fn tell_row(row: u32, signal: Option<Signal>) -> Reply
    ensures { result ≡ judged_or_done row signal }
{
    match signal {
        Some(signal) => Reply::Judged { row, signal },
        None => Reply::Done { row },
    }
}

// A closing of a batch that is there is answered by the verdict, any other act by its row and its
// signal.
fn tell_act(state: &State, row: u32, act: &Act, signal: Option<Signal>) -> Reply
    requires known { (batch : names.Name) → act.now ≡ Act.Close batch
        → is_some (product_of state.now.entries batch) ≡ true }
    ensures { result ≡ reply_with state.now.entries row act.now signal }
{
    match act {
        Act::Close { batch } => Reply::Closed {
            row,
            verdict: verdict_of(state, batch),
        },
        _ => tell_row(row, signal),
    }
}

/// The reply to a new act that no rule refuses, with the signal that it gets.
pub fn reply_new(state: &State, act: &Act, signal: Option<Signal>) -> Reply
    requires free { first_refusal (refusals_of state.now.entries act.now) ≡ None }
    requires signal { signal ≡ recorded_signal state.now.entries act.now }
    ensures { result ≡ reply_behind state.now.entries act.now }
{
    tell_act(state, state.len() + 1, act, signal)
}

/// The reply to a repeat: that of its row, however long ago that was.
pub fn reply_again(state: &State, row: u32, act: &Act) -> Reply
    requires { (ask : asks.Ask) × (repeated_row state.now.entries ask act.now ≡ Some row) }
    ensures { result ≡ reply_behind (take (row - 1) state.now.entries) act.now }
{
    let Some(entry) = state.entry(row) else {
        unreachable!()
    };
    tell_act(state, row, act, entry.signal)
}

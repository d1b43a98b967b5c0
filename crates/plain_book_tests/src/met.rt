//! What was answered so far, counted.

use annex_tables::Mode;
use book_words::{Act, Answered, Ask, Fails, Reply, Verdict, Want};
use pack_judge::{Cause, Signal};

/// Where the kinds of answers are counted: a refusal at its number, from 1 on, and then signals
/// (Pass, and the rejects but for a full population: held, inadequate, allowance).
const SIGNALS: usize = 36;

/// Empty, released, withheld.
pub const VERDICTS: usize = 40;

/// Of the withheld: contents, mean, average, allowance, inadequate.
const FAILS: usize = 43;

/// Answers to questions: sheet, pack, lane, sample, summary, rows, shipment,
/// packs.
const VIEWS: usize = 48;

/// Repeats: of a closing, and of another act.
const REPEATS: usize = 56;

/// Draws that were accepted: of packs that are kept, that are destroyed, and second ones.
pub const DRAWS: usize = 58;

// A place behind all kinds, and so the number of places.
const NOWHERE: usize = 61;

/// How often each kind of answer came.
#[derive(Clone, Copy)]
pub struct Met {
    pub counts: [u32; 61],
}

fn place_of_signal(signal: &Signal) -> usize {
    match signal {
        Signal::Pass => SIGNALS,
        Signal::Reject(Cause::Held) => 37,
        Signal::Reject(Cause::Inadequate) => 38,
        Signal::Reject(Cause::Allowance) => 39,
        Signal::Reject(Cause::Full) => NOWHERE,
    }
}

fn place_of_draw(act: &Act) -> usize {
    match act {
        Act::Draw { mode, .. } if *mode == Mode::Keep => DRAWS,
        Act::Draw { .. } => 59,
        Act::DrawSecond { .. } => 60,
        _ => NOWHERE,
    }
}

fn place_of_view(reply: &Reply) -> usize {
    match reply {
        Reply::SheetIs(_) => VIEWS,
        Reply::PackIs(_) => 49,
        Reply::LaneIs(_) => 50,
        Reply::SampleIs(_) => 51,
        Reply::SummaryIs(_) => 52,
        Reply::RowsAre(_) => 53,
        Reply::ShipmentIs(_) => 54,
        Reply::PacksAre(_) => 55,
        _ => NOWHERE,
    }
}

impl Met {
    /// Nothing was answered yet.
    pub fn nothing() -> Met {
        Met { counts: [0; 61] }
    }

    // Counts one at a place; behind the end nothing.
    fn count(&mut self, place: usize) {
        if place < 61 {
            self.counts[place] = self.counts[place].saturating_add(1);
        }
    }

    fn note_fails(&mut self, fails: &Fails) {
        let parts = [
            fails.contents,
            fails.mean,
            fails.average,
            fails.allowance,
            fails.inadequate,
        ];
        for place in 0..5usize {
            if parts[place] {
                self.count(FAILS + place);
            }
        }
    }

    // The reply to an act that made a new row.
    fn note_new(&mut self, act: &Act, reply: &Reply) {
        self.count(place_of_draw(act));
        match reply {
            Reply::Judged { signal, .. } => self.count(place_of_signal(signal)),
            Reply::Closed { verdict, .. } => match verdict {
                Verdict::Empty => self.count(VERDICTS),
                Verdict::Released => self.count(41),
                Verdict::Withheld(fails) => {
                    self.count(42);
                    self.note_fails(fails);
                }
            },
            _ => {}
        }
    }

    /// Notes what an ask over so many rows is answered.
    pub fn note_answered(&mut self, rows: u32, ask: &Ask, answered: &Answered) {
        match &ask.want {
            Want::Question(_) => self.count(place_of_view(&answered.reply)),
            Want::Act(_) if answered.at == rows => match answered.reply {
                Reply::Closed { .. } => self.count(REPEATS),
                _ => self.count(57),
            },
            Want::Act(act) => self.note_new(act, &answered.reply),
        }
    }

    /// Notes the number of a refusal.
    pub fn note_refused(&mut self, number: u8) {
        self.count(usize::from(number));
    }

    /// The place of a kind that didn't come.
    pub fn missing(&self) -> Option<usize> {
        for place in 1..61usize {
            if self.counts[place] == 0 {
                return Some(place);
            }
        }
        None
    }
}

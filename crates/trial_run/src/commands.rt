ghost use Rattle.std.specs.Prelude.{◌≡◌};
ghost use Rattle.trial_run.specs.TrialScripts.{hall_command, head_commands, open_commands, gross_by, weighing, end_commands, close_commands};

use crate::names::product_name;
use crate::word::gross_by;
use annex_tables::Mode;
use book_words::{Name, Unit};
use script_lines::{Command, Verb};

/// The day of a trial, 2025-03-03, in days since 1970-01-01.
pub const TRIAL_DAY: i32 = 20_150;

/// The nominal quantity of the product, in mg.
pub const TRIAL_NOMINAL: i64 = 250_000;

/// The tare of the product, in mg.
pub const TRIAL_TARE: i64 = 10_000;

/// The least gross of a pack, in mg. Its net is then 4 g below the nominal quantity and 5 g above
/// the least that passes, so that every pack passes.
pub const LEAST_GROSS: u32 = 256_000;

/// How many grosses there are, from the least on, each mg one.
pub const GROSSES: u32 = 10_001;

/// The packs of a batch; the last batch has the rest.
pub const BATCH_PACKS: u32 = 600;

/// The lanes that weigh, 1 to this one, in turn.
pub const LANES: u32 = 3;

/// A command of the hall's own.
pub fn hall_command(verb: Verb) -> Command
    ensures { result ≡ hall_command verb }
{
    Command {
        desk: 0,
        request: 0,
        verb,
    }
}

/// The commands that come first: the day, the product and its tare.
pub fn head_commands() -> [Command; 3]
    ensures { result ≡ head_commands }
{
    let name = product_name();
    [
        hall_command(Verb::Day { day: TRIAL_DAY }),
        hall_command(Verb::Product {
            name,
            nominal: TRIAL_NOMINAL,
            unit: Unit::Mass,
        }),
        hall_command(Verb::Tare {
            product: name,
            day: TRIAL_DAY,
            tare: TRIAL_TARE,
        }),
    ]
}

/// The commands that open a batch and start its lanes.
pub fn open_commands(batch: Name) -> [Command; 4]
    ensures { result ≡ open_commands batch }
{
    [
        hall_command(Verb::Open {
            batch,
            product: product_name(),
            density: 0,
        }),
        hall_command(Verb::Start { lane: 1, batch }),
        hall_command(Verb::Start { lane: 2, batch }),
        hall_command(Verb::Start { lane: 3, batch }),
    ]
}

/// The weighing of the pack at a place of its batch, from 0, by its word. The lanes weigh in turn.
pub fn weighing(place: u32, word: u64) -> Command
    ensures { result ≡ weighing place (gross_by word) }
{
    hall_command(Verb::Weigh {
        lane: (place % LANES) as u8 + 1,
        gross: gross_by(word),
        prior: None,
    })
}

/// The commands that stop the lanes, end a batch and draw its sample by a word.
pub fn end_commands(number: u64, batch: Name) -> [Command; 5]
    ensures { result ≡ end_commands number batch }
{
    [
        hall_command(Verb::Stop {
            lane: 1,
            prior: None,
        }),
        hall_command(Verb::Stop {
            lane: 2,
            prior: None,
        }),
        hall_command(Verb::Stop {
            lane: 3,
            prior: None,
        }),
        hall_command(Verb::End { batch }),
        hall_command(Verb::Draw {
            batch,
            mode: Mode::Keep,
            word: number,
        }),
    ]
}

/// The command that closes a batch.
pub fn close_commands(batch: Name) -> [Command; 1]
    ensures { result ≡ close_commands batch }
{
    [hall_command(Verb::Close { batch })]
}

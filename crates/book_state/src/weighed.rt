ghost use Rattle.std.specs.Prelude.{◌≡◌, List};
ghost use Rattle.book_words.specs.declared.act.Entry as entry;
ghost use Rattle.book_words.specs.Acts.{lane_batch, newest_day};
ghost use Rattle.book_words.specs.Readings.{tare_of_reading};
ghost use Rattle.book_words.specs.Answers.{IsLegal};
ghost use Rattle.book_index.specs.Listed.{IsIndexOf};
ghost use Rattle.book_packs.specs.Stand.{IsPacksOf};
ghost use Rattle.book_state.specs.Prepared as prepared;

use book_index::Index;
use book_packs::{Packs, Weighing};
use book_words::{Act, Entry};

/// The tare in mg of the batch that a lane has, on the newest day.
pub fn lane_tare(index: &Index, packs: &Packs, lane: u8) -> Option<i64>
    ensures { (entries : List entry.Entry)
        → IsIndexOf entries index.now → IsPacksOf entries packs.now → IsLegal entries
        → result ≡ tare_of_reading entries (lane_batch entries lane) (newest_day entries) }
{
    let terms = index.lane_terms(lane)?;
    let day = index.day()?;
    packs.tare(terms.product, day)
}

/// The weighing of a row, where its act is one and its batch, its day and its signal are there.
pub fn row_weighing(
    entry: &Entry,
    row: u32,
    batch: Option<u32>,
    day: Option<i32>,
    tare: Option<i64>,
) -> Option<Weighing>
    ensures { result ≡ prepared.row_weighing entry.now row batch day tare }
{
    let batch = batch?;
    let day = day?;
    let signal = entry.signal?;
    match &entry.act {
        Act::Weigh { lane, gross, prior } => Some(Weighing {
            lane: *lane,
            prior: *prior,
            number: row,
            batch,
            day,
            gross: *gross,
            tare: tare.unwrap_or(0),
            signal,
        }),
        _ => None,
    }
}

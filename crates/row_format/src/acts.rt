ghost use Rattle.std.specs.Prelude.{◌≡◌, ◌+◌, ◌≤◌, length, None};
ghost use Rattle.row_format.specs.Reading.{IsRowOf, row_act, ended, act_at, new_day_at, put_product_at, put_tare_at, open_batch_at, start_lane_at, weigh_at, stop_lane_at, void_at, end_run_at, draw_at, measure_at, draw_second_at, close_at};

use crate::codes::{Kind, mode_at, prior_at, signal_at, unit_at};
use crate::fields::{
    day_at, density_at, gross_at, lane_at, name_at, nominal_at, tare_at, zeros_at,
};
use crate::places::ACT_PLACE;
use crate::types::RowFault;
use book_words::Act;
use hall_units::{get_u32, get_u64};
use pack_judge::Signal;

/// The act of a row, and the signal of its gate where the act is a weighing.
#[derive(Clone, Copy)]
pub struct RowAct {
    pub act: Act,
    pub signal: Option<Signal>,
}

/// The act and the signal of a row of this kind, where names have so many bytes.
pub fn act_at(kind: Kind, bytes: &[u8], width: usize) -> Result<RowAct, RowFault>
    requires { IsRowOf width bytes.now }
    ensures { result ≡ act_at kind width ACT_PLACE bytes.now }
{
    match kind {
        Kind::NewDay => new_day_at(bytes),
        Kind::PutProduct => put_product_at(bytes, width),
        Kind::PutTare => put_tare_at(bytes, width),
        Kind::OpenBatch => open_batch_at(bytes, width),
        Kind::StartLane => start_lane_at(bytes, width),
        Kind::Weigh => weigh_at(bytes),
        Kind::StopLane => stop_lane_at(bytes),
        Kind::Void => void_at(bytes),
        Kind::EndRun => end_run_at(bytes, width),
        Kind::Draw => draw_at(bytes, width),
        Kind::Measure => measure_at(bytes),
        Kind::DrawSecond => draw_second_at(bytes, width),
        Kind::Close => close_at(bytes, width),
    }
}

// An act that has no signal, where zeros alone stand behind its fields.
#[tactic(auto, unfolding(crate::specs::Reading::ended))]
fn ended(bytes: &[u8], place: usize, act: Act) -> Result<RowAct, RowFault>
    requires { place ≤ length bytes.now }
    ensures { result ≡ ended (row_act act None) place bytes.now }
{
    zeros_at(bytes, place, bytes.len() - place)?;
    Ok(RowAct { act, signal: None })
}

// A new day.
fn new_day_at(bytes: &[u8]) -> Result<RowAct, RowFault>
    requires { ACT_PLACE + 12 ≤ length bytes.now }
    ensures { result ≡ new_day_at ACT_PLACE bytes.now }
{
    let day = day_at(bytes, ACT_PLACE)?;
    ended(bytes, ACT_PLACE + 4, Act::NewDay { day })
}

// A product.
fn put_product_at(bytes: &[u8], width: usize) -> Result<RowAct, RowFault>
    requires { IsRowOf width bytes.now }
    ensures { result ≡ put_product_at width ACT_PLACE bytes.now }
{
    let name = name_at(bytes, ACT_PLACE, width)?;
    let behind = ACT_PLACE + (1 + width);
    let nominal = nominal_at(bytes, behind)?;
    let unit = unit_at(bytes, behind + 8)?;
    ended(
        bytes,
        behind + 8 + 1,
        Act::PutProduct {
            name,
            nominal,
            unit,
        },
    )
}

// A tare.
fn put_tare_at(bytes: &[u8], width: usize) -> Result<RowAct, RowFault>
    requires { IsRowOf width bytes.now }
    ensures { result ≡ put_tare_at width ACT_PLACE bytes.now }
{
    let product = name_at(bytes, ACT_PLACE, width)?;
    let behind = ACT_PLACE + (1 + width);
    let day = day_at(bytes, behind)?;
    let tare = tare_at(bytes, behind + 4)?;
    ended(bytes, behind + 4 + 4, Act::PutTare { product, day, tare })
}

// A batch that begins.
fn open_batch_at(bytes: &[u8], width: usize) -> Result<RowAct, RowFault>
    requires { IsRowOf width bytes.now }
    ensures { result ≡ open_batch_at width ACT_PLACE bytes.now }
{
    let batch = name_at(bytes, ACT_PLACE, width)?;
    let behind = ACT_PLACE + (1 + width);
    let product = name_at(bytes, behind, width)?;
    let density = density_at(bytes, behind + (1 + width))?;
    ended(
        bytes,
        behind + (1 + width) + 4,
        Act::OpenBatch {
            batch,
            product,
            density,
        },
    )
}

// A lane that starts.
fn start_lane_at(bytes: &[u8], width: usize) -> Result<RowAct, RowFault>
    requires { IsRowOf width bytes.now }
    ensures { result ≡ start_lane_at width ACT_PLACE bytes.now }
{
    let lane = lane_at(bytes, ACT_PLACE)?;
    let batch = name_at(bytes, ACT_PLACE + 1, width)?;
    ended(
        bytes,
        ACT_PLACE + 1 + (1 + width),
        Act::StartLane { lane, batch },
    )
}

// A weighing, with its signal.
#[tactic(auto, unfolding(crate::specs::Reading::ended))]
fn weigh_at(bytes: &[u8]) -> Result<RowAct, RowFault>
    requires { ACT_PLACE + 12 ≤ length bytes.now }
    ensures { result ≡ weigh_at ACT_PLACE bytes.now }
{
    let lane = lane_at(bytes, ACT_PLACE)?;
    let gross = gross_at(bytes, ACT_PLACE + 1)?;
    let prior = prior_at(bytes, ACT_PLACE + 1 + 4)?;
    let signal = signal_at(bytes, ACT_PLACE + 1 + 4 + 1)?;
    let end = ACT_PLACE + 1 + 4 + 1 + 1;
    zeros_at(bytes, end, bytes.len() - end)?;
    Ok(RowAct {
        act: Act::Weigh { lane, gross, prior },
        signal: Some(signal),
    })
}

// A lane that stops.
fn stop_lane_at(bytes: &[u8]) -> Result<RowAct, RowFault>
    requires { ACT_PLACE + 12 ≤ length bytes.now }
    ensures { result ≡ stop_lane_at ACT_PLACE bytes.now }
{
    let lane = lane_at(bytes, ACT_PLACE)?;
    let prior = prior_at(bytes, ACT_PLACE + 1)?;
    ended(bytes, ACT_PLACE + 1 + 1, Act::StopLane { lane, prior })
}

// A pack that is taken back.
fn void_at(bytes: &[u8]) -> Result<RowAct, RowFault>
    requires { ACT_PLACE + 12 ≤ length bytes.now }
    ensures { result ≡ void_at ACT_PLACE bytes.now }
{
    let pack = get_u32(bytes, ACT_PLACE);
    ended(bytes, ACT_PLACE + 4, Act::Void { pack })
}

// The end of a batch's run.
fn end_run_at(bytes: &[u8], width: usize) -> Result<RowAct, RowFault>
    requires { IsRowOf width bytes.now }
    ensures { result ≡ end_run_at width ACT_PLACE bytes.now }
{
    let batch = name_at(bytes, ACT_PLACE, width)?;
    ended(bytes, ACT_PLACE + (1 + width), Act::EndRun { batch })
}

// The first sample of a batch.
fn draw_at(bytes: &[u8], width: usize) -> Result<RowAct, RowFault>
    requires { IsRowOf width bytes.now }
    ensures { result ≡ draw_at width ACT_PLACE bytes.now }
{
    let batch = name_at(bytes, ACT_PLACE, width)?;
    let behind = ACT_PLACE + (1 + width);
    let mode = mode_at(bytes, behind)?;
    let word = get_u64(bytes, behind + 1);
    ended(bytes, behind + 1 + 8, Act::Draw { batch, mode, word })
}

// A measured pack.
fn measure_at(bytes: &[u8]) -> Result<RowAct, RowFault>
    requires { ACT_PLACE + 12 ≤ length bytes.now }
    ensures { result ≡ measure_at ACT_PLACE bytes.now }
{
    let pack = get_u32(bytes, ACT_PLACE);
    let gross = gross_at(bytes, ACT_PLACE + 4)?;
    let empty = tare_at(bytes, ACT_PLACE + 4 + 4)?;
    ended(
        bytes,
        ACT_PLACE + 4 + 4 + 4,
        Act::Measure { pack, gross, empty },
    )
}

// The second sample of a batch.
fn draw_second_at(bytes: &[u8], width: usize) -> Result<RowAct, RowFault>
    requires { IsRowOf width bytes.now }
    ensures { result ≡ draw_second_at width ACT_PLACE bytes.now }
{
    let batch = name_at(bytes, ACT_PLACE, width)?;
    let behind = ACT_PLACE + (1 + width);
    let word = get_u64(bytes, behind);
    ended(bytes, behind + 8, Act::DrawSecond { batch, word })
}

// A batch's end.
fn close_at(bytes: &[u8], width: usize) -> Result<RowAct, RowFault>
    requires { IsRowOf width bytes.now }
    ensures { result ≡ close_at width ACT_PLACE bytes.now }
{
    let batch = name_at(bytes, ACT_PLACE, width)?;
    ended(bytes, ACT_PLACE + (1 + width), Act::Close { batch })
}

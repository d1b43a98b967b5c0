ghost use Rattle.std.specs.Prelude.{◌≡◌, ◌<◌, ◌^◌, [], ◌∷◌, ◌++◌, length};
ghost use Rattle.row_format.specs.Spelling.{four, eight, name_field, four_field, eight_field, prior_code, signal_code, mode_code, unit_code, kind_code, fields_of};
ghost use Rattle.row_format.specs.Allowed.{IsActAllowed, IsGross, FitsAct};

use crate::buffer::RowBuffer;
use annex_tables::Mode;
use book_words::{Act, Name, Prior, Unit};
use hall_limits::NAME_BYTES;
use pack_judge::{Cause, Signal};

// The bytes of a row before the fields of its kind.
const HEAD_BYTES: usize = 14;

/// The kind of a row.
pub(crate) fn kind_code(act: &Act) -> u8
    ensures { result ≡ kind_code act.now }
{
    match act {
        Act::NewDay { .. } => 1,
        Act::PutProduct { .. } => 2,
        Act::PutTare { .. } => 3,
        Act::OpenBatch { .. } => 4,
        Act::StartLane { .. } => 5,
        Act::Weigh { .. } => 6,
        Act::StopLane { .. } => 7,
        Act::Void { .. } => 8,
        Act::EndRun { .. } => 9,
        Act::Draw { .. } => 10,
        Act::Measure { .. } => 11,
        Act::DrawSecond { .. } => 12,
        Act::Close { .. } => 13,
    }
}

/// Adds the fields of an act after the head of its row.
pub(crate) fn push_fields(row: &mut RowBuffer, act: &Act, signal: &Option<Signal>)
    requires head { length row.old ≡ HEAD_BYTES }
    requires allowed { IsActAllowed NAME_BYTES act.now }
    ensures fields { row.new ≡ row.old ++ fields_of NAME_BYTES act.now signal.now }
    ensures fits { FitsAct act.now }
{
    match act {
        Act::NewDay { day } => row.push(&day.unsigned_abs().to_le_bytes()),
        Act::PutProduct {
            name,
            nominal,
            unit,
        } => push_product(row, name, nominal, unit),
        Act::PutTare { product, day, tare } => push_tare(row, product, day, tare),
        Act::OpenBatch {
            batch,
            product,
            density,
        } => push_batch(row, batch, product, *density),
        Act::StartLane { lane, batch } => push_start(row, *lane, batch),
        Act::Weigh { lane, gross, prior } => push_weighing(row, *lane, gross, prior, signal),
        Act::StopLane { lane, prior } => row.push(&[*lane, prior_code(prior)]),
        Act::Void { pack } => push_pack(row, *pack),
        Act::Draw { batch, mode, word } => push_draw(row, batch, mode, *word),
        Act::Measure { pack, gross, empty } => push_measurement(row, *pack, gross, empty),
        Act::DrawSecond { batch, word } => push_second(row, batch, *word),
        Act::EndRun { batch } | Act::Close { batch } => row.push_name(batch),
    }
}

// A product: its name, the nominal quantity and the unit.
fn push_product(row: &mut RowBuffer, name: &Name, nominal: &i64, unit: &Unit)
    requires { length row.old ≡ HEAD_BYTES }
    ensures { row.new ≡ row.old
        ++ (name_field NAME_BYTES name.now ++ eight_field nominal.now ++ unit_code unit.now ∷ []) }
{
    row.push_name(name);
    row.push(&nominal.unsigned_abs().to_le_bytes());
    row.push(&[unit_code(unit)]);
}

// A tare: the product, the day from which on it holds, and the mass.
fn push_tare(row: &mut RowBuffer, product: &Name, day: &i32, tare: &i64)
    requires head { length row.old ≡ HEAD_BYTES }
    requires range { IsGross tare.now }
    ensures { row.new ≡ row.old
        ++ (name_field NAME_BYTES product.now ++ four_field day.now ++ four_field tare.now) }
{
    row.push_name(product);
    row.push(&day.unsigned_abs().to_le_bytes());
    row.push_mass(tare);
}

// A batch that is opened: its name, the product and the density.
fn push_batch(row: &mut RowBuffer, batch: &Name, product: &Name, density: u32)
    requires { length row.old ≡ HEAD_BYTES }
    ensures { row.new ≡ row.old
        ++ (name_field NAME_BYTES batch.now ++ name_field NAME_BYTES product.now ++ four density) }
{
    row.push_name(batch);
    row.push_name(product);
    row.push(&density.to_le_bytes());
}

// The start of a lane for a batch.
fn push_start(row: &mut RowBuffer, lane: u8, batch: &Name)
    requires { length row.old ≡ HEAD_BYTES }
    ensures { row.new ≡ row.old ++ (lane ∷ name_field NAME_BYTES batch.now) }
{
    row.push(&[lane]);
    row.push_name(batch);
}

// A weighing: the lane, the gross, what is said of the gate before, and the signal.
fn push_weighing(row: &mut RowBuffer, lane: u8, gross: &i64, prior: &Prior, signal: &Option<Signal>)
    requires head { length row.old ≡ HEAD_BYTES }
    requires range { IsGross gross.now }
    ensures { row.new ≡ row.old
        ++ (lane ∷ four_field gross.now ++ prior_code prior.now ∷ signal_code signal.now ∷ []) }
{
    row.push(&[lane]);
    row.push_mass(gross);
    row.push(&[prior_code(prior), signal_code(signal)]);
}

// The number of a pack.
fn push_pack(row: &mut RowBuffer, pack: u32)
    requires { length row.old ≡ HEAD_BYTES }
    ensures fields { row.new ≡ row.old ++ four pack }
    ensures fits { pack < 2 ^ 32 }
{
    row.push(&pack.to_le_bytes());
}

// The first sample of a batch: its mode and its word.
fn push_draw(row: &mut RowBuffer, batch: &Name, mode: &Mode, word: u64)
    requires { length row.old ≡ HEAD_BYTES }
    ensures fields { row.new ≡ row.old
        ++ (name_field NAME_BYTES batch.now ++ mode_code mode.now ∷ eight word) }
    ensures fits { word < 2 ^ 64 }
{
    row.push_name(batch);
    row.push(&[mode_code(mode)]);
    row.push(&word.to_le_bytes());
}

// A measured pack: its number, the gross, and the mass of the empty pack.
fn push_measurement(row: &mut RowBuffer, pack: u32, gross: &i64, empty: &i64)
    requires head { length row.old ≡ HEAD_BYTES }
    requires gross { IsGross gross.now }
    requires empty { IsGross empty.now }
    ensures fields { row.new
        ≡ row.old ++ (four pack ++ four_field gross.now ++ four_field empty.now) }
    ensures fits { pack < 2 ^ 32 }
{
    push_pack(row, pack);
    row.push_mass(gross);
    row.push_mass(empty);
}

// The second sample of a batch: its word.
fn push_second(row: &mut RowBuffer, batch: &Name, word: u64)
    requires { length row.old ≡ HEAD_BYTES }
    ensures fields { row.new ≡ row.old ++ (name_field NAME_BYTES batch.now ++ eight word) }
    ensures fits { word < 2 ^ 64 }
{
    row.push_name(batch);
    row.push(&word.to_le_bytes());
}

// The code of what is said of a gate.
fn prior_code(prior: &Prior) -> u8
    ensures { result ≡ prior_code prior.now }
{
    match prior {
        Prior::Nothing => 0,
        Prior::Opened => 1,
        Prior::Stayed => 2,
        Prior::Unknown => 3,
    }
}

// The code of a signal.
fn signal_code(signal: &Option<Signal>) -> u8
    ensures { result ≡ signal_code signal.now }
{
    match signal {
        None | Some(Signal::Pass) => 0,
        Some(Signal::Reject(Cause::Held)) => 1,
        Some(Signal::Reject(Cause::Full)) => 2,
        Some(Signal::Reject(Cause::Inadequate)) => 3,
        Some(Signal::Reject(Cause::Allowance)) => 4,
    }
}

// The code of what becomes of the packs of a test.
fn mode_code(mode: &Mode) -> u8
    ensures { result ≡ mode_code mode.now }
{
    match mode {
        Mode::Keep => 1,
        Mode::Destroy => 2,
    }
}

// The code of a unit.
fn unit_code(unit: &Unit) -> u8
    ensures { result ≡ unit_code unit.now }
{
    match unit {
        Unit::Mass => 0,
        Unit::Volume => 1,
    }
}

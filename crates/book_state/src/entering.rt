ghost use Rattle.std.specs.Prelude.{◌≡◌, ◌+◌, ◌<◌, ◌≤◌, ℕ, List, [], ◌∷◌, ◌++◌, Some, true, is_some};
ghost use Rattle.std.specs.Option.{unwrap_or};
ghost use Rattle.annex_tables.specs.declared.types.Mode as modes;
ghost use Rattle.book_words.specs.declared.name.Name as names;
ghost use Rattle.book_words.specs.declared.act.Entry as rows;
ghost use Rattle.book_words.specs.declared.act.Act.TheVariants as act;
ghost use Rattle.book_words.specs.Classes as classes;
ghost use Rattle.book_index.specs.Listed.{IsIndexOf};
ghost use Rattle.book_packs.specs.Stand.{IsPacksOf};
ghost use Rattle.book_packs.specs.Entering.{IsNext, IsTarePut, MayPutTare, batch_drawn};
ghost use Rattle.book_samples.specs.Kept.{IsSamplesOf};
ghost use Rattle.book_state.specs.Entering.{EntersPacks, EntersSamples};
ghost use Rattle.book_state.specs.Lanes.{IsSeen};
ghost use Rattle.book_state.specs.Prepared.{drawn_by};
ghost use Rattle.book_state.specs.Known.{lane_weighed};

use crate::drawn::Drawn;
use crate::types::LaneNow;
use crate::weighed::row_weighing;
use batch_sums::Steps;
use book_index::Index;
use book_packs::{Packs, limits_by_density};
use book_samples::{Sample, Samples};
use book_words::{Act, Entry, Name, Unit};
use pack_judge::DatedTare;
use reference_test::UNIT_DENSITY;
use sample_draw::Picks;
use std::marker::Brand;
use std::sync::ledger::{Blank, Ledger};

/// Records in the packs what the next entry of a list says. It takes no memory.
pub fn enter_packs(
    packs: &mut Packs,
    index: &Index,
    entries: &[Entry],
    entry: &Entry,
    seen: &LaneNow,
    drawn: &Drawn,
)
    requires room { 0 < packs.old.spare }
    requires index { IsIndexOf entries.now index.now }
    requires packs { IsPacksOf entries.now packs.old }
    requires next { IsNext entries.now entry.now }
    requires seen { IsSeen entries.now entry.now.act seen.now }
    requires drawn { drawn.now ≡ drawn_by entries.now entry.now.act }
    ensures kept { IsPacksOf (entries.now ++ entry.now ∷ []) packs.new }
    ensures spare { packs.old.spare ≤ packs.new.spare + 1 }
{
    match &entry.act {
        Act::Weigh { .. } => weigh(packs, index, entries, entry, seen),
        Act::StopLane { lane, prior } => packs.stop(*lane, *prior),
        Act::Void { pack } => packs.void(*pack),
        Act::PutTare { product, day, tare } => {
            let (day, tare) = (*day, *tare);
            put_tare(packs, index, product, &DatedTare { day, tare })
        }
        Act::OpenBatch {
            product,
            density,
            ..
        } => open_batch(packs, index, product, *density),
        Act::Draw { batch, .. } | Act::DrawSecond { batch, .. } => {
            draw(packs, index, batch, drawn)
        }
        Act::NewDay { .. }
        | Act::PutProduct { .. }
        | Act::StartLane { .. }
        | Act::EndRun { .. }
        | Act::Measure { .. }
        | Act::Close { .. } => {}
    }
}

// Takes down a weighing of a lane.
fn weigh(packs: &mut Packs, index: &Index, entries: &[Entry], entry: &Entry, seen: &LaneNow)
    requires act { is_some (lane_weighed entry.now.act) ≡ true }
    requires room { 0 < packs.old.spare }
    requires index { IsIndexOf entries.now index.now }
    requires packs { IsPacksOf entries.now packs.old }
    requires next { IsNext entries.now entry.now }
    requires seen { IsSeen entries.now entry.now.act seen.now }
    ensures kept { IsPacksOf (entries.now ++ entry.now ∷ []) packs.new }
    ensures spare { packs.old.spare ≤ packs.new.spare + 1 }
{
    let row = entries.len() as u32 + 1;
    let Some(weighing) = row_weighing(entry, row, seen.batch, index.day(), seen.tare) else {
        unreachable!()
    };
    packs.weigh(&weighing);
}

// Takes down a tare of a product.
fn put_tare(packs: &mut Packs, index: &Index, product: &Name, dated: &DatedTare)
    requires room { 0 < packs.old.spare }
    requires next { (entries : List rows.Entry) × (entry : rows.Entry)
        × EntersPacks index.now packs.old entries entry
        × (entry.act ≡ act.PutTare product.now dated.now.day dated.now.tare) }
    ensures kept { (entries : List rows.Entry) (entry : rows.Entry)
        → EntersPacks index.now packs.old entries entry
        → entry.act ≡ act.PutTare product.now dated.now.day dated.now.tare
        → IsPacksOf (entries ++ entry ∷ []) packs.new }
    ensures spare { packs.old.spare ≤ packs.new.spare + 1 }
{
    let Some(number) = index.product_number(product) else {
        unreachable!()
    };
    put_counted::<Brand>(packs, number, dated, Blank::new(1));
}

// Takes down a tare of the product of a number, and counts its steps.
fn put_counted<L: Ledger>(packs: &mut Packs, number: u32, dated: &DatedTare, blank: Blank)
    requires name { blank.name ≡ L.name }
    requires parts { blank.parts ≡ L.parts }
    requires some { 0 < blank.parts }
    requires room { 0 < packs.old.spare }
    requires next { MayPutTare packs.old number dated.now.day dated.now.tare }
    ensures kept { (entries : List rows.Entry) (entry : rows.Entry) → IsPacksOf entries packs.old
        → IsTarePut entries entry number dated.now.day dated.now.tare
        → IsPacksOf (entries ++ entry ∷ []) packs.new }
    ensures spare { packs.old.spare ≤ packs.new.spare + 1 }
{
    let mut steps: Steps<L> = Steps::new(blank);
    packs.put_tare(number, dated.day, dated.tare, &mut steps);
}

// Takes down that a batch of a product is opened.
fn open_batch(packs: &mut Packs, index: &Index, product: &Name, density: u32)
    requires room { 0 < packs.old.spare }
    requires next { (entries : List rows.Entry) × (entry : rows.Entry) × (batch : names.Name)
        × EntersPacks index.now packs.old entries entry
        × (entry.act ≡ act.OpenBatch batch product.now density) }
    ensures kept { (entries : List rows.Entry) (entry : rows.Entry) (batch : names.Name)
        → EntersPacks index.now packs.old entries entry
        → entry.act ≡ act.OpenBatch batch product.now density
        → IsPacksOf (entries ++ entry ∷ []) packs.new }
    ensures spare { packs.old.spare ≤ packs.new.spare + 1 }
{
    let Some(number) = index.product_number(product) else {
        unreachable!()
    };
    let Some(terms) = index.product(product) else {
        unreachable!()
    };
    let limits = limits_by_density(density_by_unit(terms.unit, density), terms.nominal);
    packs.open_batch(number, &limits);
}

// The density that counts for goods of a unit, in mg a litre.
fn density_by_unit(unit: Unit, recorded: u32) -> u32
    ensures { result ≡ classes.density_by_unit (Some unit) recorded }
{
    match unit {
        Unit::Mass => UNIT_DENSITY,
        Unit::Volume => recorded,
    }
}

// Takes down the packs that are drawn from a batch.
fn draw(packs: &mut Packs, index: &Index, batch: &Name, drawn: &Drawn)
    requires next { (entries : List rows.Entry) × (entry : rows.Entry)
        × EntersPacks index.now packs.old entries entry
        × (batch_drawn entry.act ≡ Some batch.now)
        × (drawn.now ≡ drawn_by entries entry.act) }
    ensures kept { (entries : List rows.Entry) (entry : rows.Entry)
        → EntersPacks index.now packs.old entries entry
        → batch_drawn entry.act ≡ Some batch.now
        → drawn.now ≡ drawn_by entries entry.act
        → IsPacksOf (entries ++ entry ∷ []) packs.new }
    ensures spare { packs.old.spare ≤ packs.new.spare + 1 }
{
    let Some(number) = index.batch_number(batch) else {
        unreachable!()
    };
    packs.draw(number, drawn.picks());
}

/// Takes down in the samples what the next entry of a list says. It takes no memory.
pub fn enter_samples(samples: &mut Samples, index: &Index, entry: &Entry, drawn: Drawn)
    requires room { 0 < samples.old.spare }
    requires next { (entries : List rows.Entry)
        × EntersSamples index.now samples.old entries entry.now
        × (drawn ≡ drawn_by entries entry.now.act) }
    ensures kept { (entries : List rows.Entry)
        → EntersSamples index.now samples.old entries entry.now
        → drawn ≡ drawn_by entries entry.now.act
        → IsSamplesOf (entries ++ entry.now ∷ []) samples.new }
    ensures spare { samples.old.spare ≤ samples.new.spare + 1 }
{
    let Drawn { first, second } = drawn;
    match &entry.act {
        Act::OpenBatch { .. } => samples.open_batch(),
        Act::Draw { batch, .. } => enter_first(samples, index, batch, first),
        Act::DrawSecond { batch, .. } => enter_second(samples, index, batch, second),
        Act::Measure { pack, gross, empty } => samples.measure(*pack, *gross, *empty),
        Act::NewDay { .. }
        | Act::PutProduct { .. }
        | Act::PutTare { .. }
        | Act::StartLane { .. }
        | Act::Weigh { .. }
        | Act::StopLane { .. }
        | Act::Void { .. }
        | Act::EndRun { .. }
        | Act::Close { .. } => {}
    }
}

// Takes down the first sample of a batch.
fn enter_first(samples: &mut Samples, index: &Index, batch: &Name, first: Option<Sample>)
    requires next { (entries : List rows.Entry) × (entry : rows.Entry)
        × (mode : modes.Mode) × (word : ℕ)
        × EntersSamples index.now samples.old entries entry
        × (entry.act ≡ act.Draw batch.now mode word)
        × (first ≡ (drawn_by entries entry.act).first) }
    ensures kept { (entries : List rows.Entry) (entry : rows.Entry)
        (mode : modes.Mode) (word : ℕ)
        → EntersSamples index.now samples.old entries entry
        → entry.act ≡ act.Draw batch.now mode word
        → first ≡ (drawn_by entries entry.act).first
        → IsSamplesOf (entries ++ entry ∷ []) samples.new }
    ensures spare { samples.old.spare ≤ samples.new.spare }
{
    let Some(number) = index.batch_number(batch) else {
        unreachable!()
    };
    let Some(sample) = first else { unreachable!() };
    samples.enter_first(number, sample);
}

// Takes down the second sample of a batch.
fn enter_second(samples: &mut Samples, index: &Index, batch: &Name, second: Option<Picks>)
    requires next { (entries : List rows.Entry) × (entry : rows.Entry) × (word : ℕ)
        × EntersSamples index.now samples.old entries entry
        × (entry.act ≡ act.DrawSecond batch.now word)
        × (unwrap_or second [] ≡ (drawn_by entries entry.act).second) }
    ensures kept { (entries : List rows.Entry) (entry : rows.Entry) (word : ℕ)
        → EntersSamples index.now samples.old entries entry
        → entry.act ≡ act.DrawSecond batch.now word
        → unwrap_or second [] ≡ (drawn_by entries entry.act).second
        → IsSamplesOf (entries ++ entry ∷ []) samples.new }
    ensures spare { samples.old.spare ≤ samples.new.spare }
{
    let Some(number) = index.batch_number(batch) else {
        unreachable!()
    };
    let Some(picks) = second else { unreachable!() };
    samples.enter_second(number, picks);
}

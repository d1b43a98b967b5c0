ghost use Rattle.std.specs.Prelude.{◌≡◌};
ghost use Rattle.serde_json.specs.View.{view};
ghost use Rattle.office_wire.specs.Acts.{act_by, act_of, ask_of, day_act, product_act, product_ml_act, tare_act, open_act, open_at_act, void_act, end_act, draw_act, measure_act, second_act, close_act};

use crate::members::{
    count_at, day_at, desk_at, empty_at, mass_at, mode_at, name_at, number_at, text_at,
};
use book_words::{Act, Ask, Unit, Want};
use serde_json::Value;

/// What a desk asks for; `None` where the members aren't those of an act of a desk.
pub fn ask_of(json: &Value) -> Option<Ask>
    ensures { result ≡ ask_of (view json.now) }
{
    let desk = desk_at(json)?;
    let request = count_at(json, "request")?;
    let act = act_of(json)?;
    Some(Ask {
        desk,
        request,
        want: Want::Act(act),
    })
}

// The act.
fn act_of(json: &Value) -> Option<Act>
    ensures { result ≡ act_of (view json.now) }
{
    let word = text_at(json, "act")?;
    act_by(word, json)
}

// The act of a word and the other members.
fn act_by(word: &[u8], json: &Value) -> Option<Act>
    ensures { result ≡ act_by word.now (view json.now) }
{
    if word == b"day".as_slice() {
        day_act(json)
    } else if word == b"product".as_slice() {
        product_act(json)
    } else if word == b"product_ml".as_slice() {
        product_ml_act(json)
    } else if word == b"tare".as_slice() {
        tare_act(json)
    } else if word == b"open".as_slice() {
        open_act(json)
    } else if word == b"open_at".as_slice() {
        open_at_act(json)
    } else if word == b"void".as_slice() {
        void_act(json)
    } else if word == b"end".as_slice() {
        end_act(json)
    } else if word == b"draw".as_slice() {
        draw_act(json)
    } else if word == b"measure".as_slice() {
        measure_act(json)
    } else if word == b"second".as_slice() {
        second_act(json)
    } else if word == b"close".as_slice() {
        close_act(json)
    } else {
        None
    }
}

// The members of `day`.
fn day_act(json: &Value) -> Option<Act>
    ensures { result ≡ day_act (view json.now) }
{
    let day = day_at(json)?;
    Some(Act::NewDay { day })
}

// The members of `product`: goods by mass.
fn product_act(json: &Value) -> Option<Act>
    ensures { result ≡ product_act (view json.now) }
{
    let name = name_at(json, "name")?;
    let nominal = mass_at(json, "nominal")?;
    Some(Act::PutProduct {
        name,
        nominal,
        unit: Unit::Mass,
    })
}

// The members of `product_ml`: goods by volume.
fn product_ml_act(json: &Value) -> Option<Act>
    ensures { result ≡ product_ml_act (view json.now) }
{
    let name = name_at(json, "name")?;
    let nominal = mass_at(json, "nominal")?;
    Some(Act::PutProduct {
        name,
        nominal,
        unit: Unit::Volume,
    })
}

// The members of `tare`.
fn tare_act(json: &Value) -> Option<Act>
    ensures { result ≡ tare_act (view json.now) }
{
    let product = name_at(json, "product")?;
    let day = day_at(json)?;
    let tare = mass_at(json, "tare")?;
    Some(Act::PutTare { product, day, tare })
}

// The members of `open`: a batch of goods by mass.
fn open_act(json: &Value) -> Option<Act>
    ensures { result ≡ open_act (view json.now) }
{
    let batch = name_at(json, "batch")?;
    let product = name_at(json, "product")?;
    Some(Act::OpenBatch {
        batch,
        product,
        density: 0,
    })
}

// The members of `open_at`: a batch of goods by volume.
fn open_at_act(json: &Value) -> Option<Act>
    ensures { result ≡ open_at_act (view json.now) }
{
    let batch = name_at(json, "batch")?;
    let product = name_at(json, "product")?;
    let density = count_at(json, "density")?;
    Some(Act::OpenBatch {
        batch,
        product,
        density,
    })
}

// The members of `void`.
fn void_act(json: &Value) -> Option<Act>
    ensures { result ≡ void_act (view json.now) }
{
    let pack = count_at(json, "pack")?;
    Some(Act::Void { pack })
}

// The members of `end`.
fn end_act(json: &Value) -> Option<Act>
    ensures { result ≡ end_act (view json.now) }
{
    let batch = name_at(json, "batch")?;
    Some(Act::EndRun { batch })
}

// The members of `draw`.
fn draw_act(json: &Value) -> Option<Act>
    ensures { result ≡ draw_act (view json.now) }
{
    let batch = name_at(json, "batch")?;
    let mode = mode_at(json)?;
    let word = number_at(json, "word")?;
    Some(Act::Draw { batch, mode, word })
}

// The members of `measure`.
fn measure_act(json: &Value) -> Option<Act>
    ensures { result ≡ measure_act (view json.now) }
{
    let pack = count_at(json, "pack")?;
    let gross = mass_at(json, "gross")?;
    let empty = empty_at(json)?;
    Some(Act::Measure { pack, gross, empty })
}

// The members of `second`.
fn second_act(json: &Value) -> Option<Act>
    ensures { result ≡ second_act (view json.now) }
{
    let batch = name_at(json, "batch")?;
    let word = number_at(json, "word")?;
    Some(Act::DrawSecond { batch, word })
}

// The members of `close`.
fn close_act(json: &Value) -> Option<Act>
    ensures { result ≡ close_act (view json.now) }
{
    let batch = name_at(json, "batch")?;
    Some(Act::Close { batch })
}

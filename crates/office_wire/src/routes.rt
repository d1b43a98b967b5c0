ghost use Rattle.std.specs.Prelude.{◌≡◌};
ghost use Rattle.office_wire.specs.Routes.{path_of, sheet_route, sample_route, pack_route, lane_route, row_count, rows_route, shipment_route, packs_route, route_of};
ghost use Rattle.office_wire.specs.Spots.{spot_route};

use crate::types::Route;
use book_words::{Name, Question};
use hall_units::read_bounded;
use office_routes::{Routes, Spot};

/// The greatest number of digits of a number.
const NUMBER_DIGITS: usize = 20;

/// What is found at the target of a request, if anything.
pub fn route_of(routes: &Routes, target: &str) -> Option<Route>
    ensures { result ≡ route_of target.now }
{
    let (spot, text, more) = routes.find(path_of(target))?;
    spot_route(spot, text.as_bytes(), more.as_bytes())
}

// The path of a target.
fn path_of(target: &str) -> &str
    ensures { result.now ≡ path_of target.now }
{
    match target.split_once('?') {
        Some((path, _)) => path,
        None => target,
    }
}

// What a spot is with the texts of its parameters.
fn spot_route(spot: Spot, text: &[u8], more: &[u8]) -> Option<Route>
    ensures { result ≡ spot_route spot text.now more.now }
{
    match spot {
        Spot::Acts => Some(Route::Acts),
        Spot::Summary => Some(Route::Question(Question::Summary)),
        Spot::Sheet => sheet_route(text),
        Spot::Sample => sample_route(text),
        Spot::Pack => pack_route(text),
        Spot::Lane => lane_route(text),
        Spot::Rows => rows_route(text),
        Spot::Shipment => shipment_route(text),
        Spot::Packs => packs_route(text, more),
    }
}

// `/batches/{name}`.
fn sheet_route(name: &[u8]) -> Option<Route>
    ensures { result ≡ sheet_route name.now }
{
    let batch = Name::new(name)?;
    Some(Route::Question(Question::Sheet { batch }))
}

// `/batches/{name}/sample`.
fn sample_route(name: &[u8]) -> Option<Route>
    ensures { result ≡ sample_route name.now }
{
    let batch = Name::new(name)?;
    Some(Route::Question(Question::Sample { batch }))
}

// `/packs/{number}`.
fn pack_route(number: &[u8]) -> Option<Route>
    ensures { result ≡ pack_route number.now }
{
    let pack = read_bounded(NUMBER_DIGITS, u64::from(u32::MAX), number)?;
    Some(Route::Question(Question::Pack { pack: pack as u32 }))
}

// `/lanes/{number}`.
fn lane_route(number: &[u8]) -> Option<Route>
    ensures { result ≡ lane_route number.now }
{
    let lane = read_bounded(NUMBER_DIGITS, u64::from(u8::MAX), number)?;
    Some(Route::Question(Question::Lane { lane: lane as u8 }))
}

// A number of rows, or of a pack.
fn row_count(number: &[u8]) -> Option<u32>
    ensures { result ≡ row_count number.now }
{
    let after = read_bounded(NUMBER_DIGITS, u64::from(u32::MAX), number)?;
    Some(after as u32)
}

// `/acts/{number}`.
fn rows_route(number: &[u8]) -> Option<Route>
    ensures { result ≡ rows_route number.now }
{
    let after = row_count(number)?;
    Some(Route::Question(Question::Rows { after }))
}

// `/rows/{number}`.
fn shipment_route(number: &[u8]) -> Option<Route>
    ensures { result ≡ shipment_route number.now }
{
    let after = row_count(number)?;
    Some(Route::Question(Question::Shipment { after }))
}

// `/batches/{name}/packs/{number}`.
fn packs_route(name: &[u8], number: &[u8]) -> Option<Route>
    ensures { result ≡ packs_route name.now number.now }
{
    let batch = Name::new(name)?;
    let after = row_count(number)?;
    Some(Route::Question(Question::Packs { batch, after }))
}

ghost use Rattle.std.specs.Prelude.{◌≡◌, true, pos, IfSome};
ghost use Rattle.book_words.specs.Refusals.{is_within};
ghost use Rattle.paper_form.specs.Papers.{is_row};
ghost use Rattle.paper_form.specs.Lines.{number_in, row_in, mass_in, density_in, unit_in, mode_in};

use annex_tables::Mode;
use book_words::Unit;
use hall_limits::{MAX_DENSITY, MAX_ROWS};
use hall_units::{read_bounded, read_grams};

// The greatest number of digits of a number.
const NUMBER_DIGITS: usize = 20;

/// A field as the row of a book.
pub fn read_row(field: &[u8]) -> Option<u32>
    ensures value { result ≡ row_in field.now }
    ensures range { IfSome result (λ row. is_row row ≡ true) }
{
    let row = read_bounded(NUMBER_DIGITS, u64::from(MAX_ROWS), field)?;
    if row == 0 {
        return None;
    }
    Some(row as u32)
}

/// A field as a mass in mg, up to this one.
pub fn read_mass(greatest: &i64, field: &[u8]) -> Option<i64>
    ensures value { result ≡ mass_in greatest.now field.now }
    ensures range { IfSome result (λ mass. is_within (pos 0) greatest.now mass ≡ true) }
{
    let mass = read_grams(field).ok()?;
    if mass > *greatest {
        return None;
    }
    Some(mass)
}

/// A field as a density: grams a litre there, mg a litre in the answer.
pub fn read_density(field: &[u8]) -> Option<u32>
    ensures { result ≡ density_in field.now }
{
    let density = read_grams(field).ok()?;
    if density > i64::from(MAX_DENSITY) {
        return None;
    }
    Some(density as u32)
}

/// A field as the unit of a quantity.
pub fn read_unit(field: &[u8]) -> Option<Unit>
    ensures { result ≡ unit_in field.now }
{
    if field == b"g".as_slice() {
        Some(Unit::Mass)
    } else if field == b"ml".as_slice() {
        Some(Unit::Volume)
    } else {
        None
    }
}

/// A field as what becomes of the packs of a sample.
pub fn read_mode(field: &[u8]) -> Option<Mode>
    ensures { result ≡ mode_in field.now }
{
    if field == b"keep".as_slice() {
        Some(Mode::Keep)
    } else if field == b"destroy".as_slice() {
        Some(Mode::Destroy)
    } else {
        None
    }
}

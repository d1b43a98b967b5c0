ghost use Rattle.std.specs.Prelude.{◌≡◌, codes, option_map};
ghost use Rattle.serde_json.specs.View.{view};
ghost use Rattle.office_wire.specs.Acts.{text_at, number_at, mass_at, desk_at, count_at, name_at, day_at, mode_in, mode_at, empty_at};

use annex_tables::Mode;
use book_words::Name;
use hall_units::read_day;
use serde_json::Value;

/// A member that is a text.
pub fn text_at<'v>(json: &'v Value, key: &str) -> Option<&'v [u8]>
    ensures { option_map (λ text. text.now) result ≡ text_at key.now (view json.now) }
{
    let text = json.get(key)?.as_str()?;
    Some(text.as_bytes())
}

/// A member that is a whole number, not negative.
pub fn number_at(json: &Value, key: &str) -> Option<u64>
    ensures { result ≡ number_at key.now (view json.now) }
{
    json.get(key)?.as_u64()
}

/// A member that is a mass in mg, or a volume in microlitres.
pub fn mass_at(json: &Value, key: &str) -> Option<i64>
    ensures { result ≡ mass_at key.now (view json.now) }
{
    json.get(key)?.as_i64()
}

/// The number of a desk, 1 to 65 535.
pub fn desk_at(json: &Value) -> Option<u16>
    ensures { result ≡ desk_at (view json.now) }
{
    let desk = number_at(json, "desk")?;
    if desk == 0 || desk > u64::from(u16::MAX) {
        return None;
    }
    Some(desk as u16)
}

/// A member that is a whole number, 0 to 4 294 967 295.
pub fn count_at(json: &Value, key: &str) -> Option<u32>
    ensures { result ≡ count_at key.now (view json.now) }
{
    let number = number_at(json, key)?;
    if number > u64::from(u32::MAX) {
        return None;
    }
    Some(number as u32)
}

/// A name.
pub fn name_at(json: &Value, key: &str) -> Option<Name>
    ensures { result ≡ name_at key.now (view json.now) }
{
    let text = text_at(json, key)?;
    Name::new(text)
}

/// The day.
pub fn day_at(json: &Value) -> Option<i32>
    ensures { result ≡ day_at (view json.now) }
{
    let text = text_at(json, "day")?;
    read_day(text).ok()
}

/// What becomes of the packs of a sample.
pub fn mode_at(json: &Value) -> Option<Mode>
    ensures { result ≡ mode_at (view json.now) }
{
    let word = text_at(json, "mode")?;
    mode_in(word)
}

// What becomes of the packs of a sample, by its word.
fn mode_in(word: &[u8]) -> Option<Mode>
    ensures { result ≡ mode_in word.now }
{
    if word == b"keep".as_slice() {
        Some(Mode::Keep)
    } else if word == b"destroy".as_slice() {
        Some(Mode::Destroy)
    } else {
        None
    }
}

/// The mass of an empty pack in mg, 0 where it isn't told.
pub fn empty_at(json: &Value) -> Option<i64>
    ensures { result ≡ empty_at (view json.now) }
{
    if json.get("empty").is_none() {
        return Some(0);
    }
    mass_at(json, "empty")
}

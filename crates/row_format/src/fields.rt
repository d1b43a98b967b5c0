ghost use Rattle.std.specs.Prelude.{◌≡◌, ◌+◌, ◌-◌, ◌*◌, ◌^◌, ◌<◌, ◌≤◌, false, length, IfOk};
ghost use Rattle.row_format.specs.Reading.{has_number, can_begin, wrong_from, number_in, zeros_at, name_at, day_at, gross_at, tare_at, nominal_at, density_at, lane_at, gate_at, row_number_at};

use crate::types::RowFault;
use annex_tables::{MAX_NOMINAL, MIN_NOMINAL};
use book_snapshot::{NUMBER_PLACE, OPEN};
use book_words::Name;
use hall_limits::{MAX_DAY, MAX_DENSITY, MAX_GROSS, MAX_LANE, MAX_TARE, MIN_DENSITY, NAME_BYTES};
use hall_units::{get_u32, get_u64};

/// The numbers that a field may hold: those from the least to the greatest, and 0 where `zero` is
/// set.
#[derive(Clone, Copy)]
pub struct Numbers {
    pub zero: bool,
    pub least: u64,
    pub greatest: u64,
}

impl Numbers {
    /// The numbers from one to another.
    pub fn between(least: u64, greatest: u64) -> Numbers
        ensures { (result.zero ≡ false) × (result.least ≡ least) × (result.greatest ≡ greatest) }
    {
        Numbers {
            zero: false,
            least,
            greatest,
        }
    }

    // Whether the number is one of them.
    fn has(&self, number: u64) -> bool
        ensures { result ≡ has_number self.now number }
    {
        self.zero && number == 0 || self.least <= number && number <= self.greatest
    }

    // Whether one of them has this low part, which is what the modulus leaves of it.
    fn can_begin(&self, low: u64, modulus: u64) -> bool
        requires least { self.now.least < 2 ^ 32 }
        requires low { low < modulus }
        requires modulus { modulus ≤ 256 ^ 7 }
        ensures { result ≡ can_begin self.now low modulus }
    {
        let near = self.least - self.least % modulus + low;
        self.zero && low == 0
            || self.least <= near && near <= self.greatest
            || near + modulus <= self.greatest
    }
}

// How many bytes of a number, its little end first, are right before the first that is wrong.
fn right_bytes(number: u64, size: usize, numbers: &Numbers) -> usize
    requires least { numbers.now.least < 2 ^ 32 }
    requires size { (1 ≤ size) × (size ≤ 8) }
    ensures { result ≡ wrong_from numbers.now number 1 0 (size - 1) }
{
    let mut modulus = 1;
    for count in 0..size - 1 {
        modulus *= 256;
        if !numbers.can_begin(number % modulus, modulus) {
            return count;
        }
    }
    size - 1
}

/// The number that was read at a place, where a field of so many bytes may hold it.
pub fn checked(number: u64, size: usize, place: usize, numbers: &Numbers) -> Result<u64, RowFault>
    requires least { numbers.now.least < 2 ^ 32 }
    requires size { (1 ≤ size) × (size ≤ 8) }
    requires place { place + size < 2 ^ 64 }
    ensures value { result ≡ number_in numbers.now size place number }
    ensures bound { IfOk result (λ number. number ≤ numbers.now.greatest) }
{
    if numbers.has(number) {
        Ok(number)
    } else {
        Err(RowFault {
            place: place + right_bytes(number, size, numbers),
        })
    }
}

/// Zeros from a place on.
pub fn zeros_at(bytes: &[u8], place: usize, count: usize) -> Result<(), RowFault>
    requires { place + count ≤ length bytes.now }
    ensures { result ≡ zeros_at count place bytes.now }
{
    for (behind, byte) in bytes[place..place + count].iter().enumerate() {
        if *byte != 0 {
            return Err(RowFault {
                place: place + behind,
            });
        }
    }
    Ok(())
}

/// The name at a place, where names have so many bytes.
#[tactic(auto, unfolding(crate::specs::Reading::name_at))]
pub fn name_at(bytes: &[u8], place: usize, width: usize) -> Result<Name, RowFault>
    requires width { width ≤ NAME_BYTES }
    requires inside { place + (1 + width) ≤ length bytes.now }
    ensures { result ≡ name_at width place bytes.now }
{
    let numbers = Numbers::between(1, width as u64);
    let len = checked(u64::from(bytes[place]), 1, place, &numbers)? as usize;
    zeros_at(bytes, place + 1 + len, width - len)?;
    Ok(Name::new(&bytes[place + 1..place + 1 + len]).unwrap())
}

/// The open gate of a row.
#[tactic(auto, unfolding(crate::specs::Reading::gate_at))]
pub fn gate_at(bytes: &[u8]) -> Result<u64, RowFault>
    requires { 1 ≤ length bytes.now }
    ensures { result ≡ gate_at 0 bytes.now }
{
    let gates = Numbers::between(u64::from(OPEN), u64::from(OPEN));
    checked(u64::from(bytes[0]), 1, 0, &gates)
}

/// The number of a row, which is this one.
#[tactic(auto, unfolding(crate::specs::Reading::row_number_at))]
pub fn row_number_at(bytes: &[u8], number: u32) -> Result<u64, RowFault>
    requires { NUMBER_PLACE + 4 ≤ length bytes.now }
    ensures { result ≡ row_number_at number NUMBER_PLACE bytes.now }
{
    let numbers = Numbers::between(u64::from(number), u64::from(number));
    let read = get_u32(bytes, NUMBER_PLACE);
    checked(u64::from(read), 4, NUMBER_PLACE, &numbers)
}

/// The day at a place.
#[tactic(auto, unfolding(crate::specs::Reading::day_at))]
pub fn day_at(bytes: &[u8], place: usize) -> Result<i32, RowFault>
    requires { place + 4 ≤ length bytes.now }
    ensures { result ≡ day_at place bytes.now }
{
    let days = Numbers::between(0, MAX_DAY as u64);
    Ok(checked(u64::from(get_u32(bytes, place)), 4, place, &days)? as i32)
}

/// The gross at a place.
#[tactic(auto, unfolding(crate::specs::Reading::gross_at))]
pub fn gross_at(bytes: &[u8], place: usize) -> Result<i64, RowFault>
    requires { place + 4 ≤ length bytes.now }
    ensures { result ≡ gross_at place bytes.now }
{
    let grosses = Numbers::between(0, MAX_GROSS as u64);
    Ok(checked(u64::from(get_u32(bytes, place)), 4, place, &grosses)? as i64)
}

/// The tare, or the mass of an empty pack, at a place.
#[tactic(auto, unfolding(crate::specs::Reading::tare_at))]
pub fn tare_at(bytes: &[u8], place: usize) -> Result<i64, RowFault>
    requires { place + 4 ≤ length bytes.now }
    ensures { result ≡ tare_at place bytes.now }
{
    let tares = Numbers::between(0, MAX_TARE as u64);
    Ok(checked(u64::from(get_u32(bytes, place)), 4, place, &tares)? as i64)
}

/// The nominal quantity at a place.
#[tactic(auto, unfolding(crate::specs::Reading::nominal_at))]
pub fn nominal_at(bytes: &[u8], place: usize) -> Result<i64, RowFault>
    requires { place + 8 ≤ length bytes.now }
    ensures { result ≡ nominal_at place bytes.now }
{
    let nominals = Numbers::between(MIN_NOMINAL as u64, MAX_NOMINAL as u64);
    Ok(checked(get_u64(bytes, place), 8, place, &nominals)? as i64)
}

/// The density at a place: 0, or that of goods by volume.
#[tactic(auto, unfolding(crate::specs::Reading::density_at))]
pub fn density_at(bytes: &[u8], place: usize) -> Result<u32, RowFault>
    requires { place + 4 ≤ length bytes.now }
    ensures { result ≡ density_at place bytes.now }
{
    let densities = Numbers {
        zero: true,
        least: u64::from(MIN_DENSITY),
        greatest: u64::from(MAX_DENSITY),
    };
    Ok(checked(u64::from(get_u32(bytes, place)), 4, place, &densities)? as u32)
}

/// The number of a lane at a place.
#[tactic(auto, unfolding(crate::specs::Reading::lane_at))]
pub fn lane_at(bytes: &[u8], place: usize) -> Result<u8, RowFault>
    requires { place + 1 ≤ length bytes.now }
    ensures { result ≡ lane_at place bytes.now }
{
    let lanes = Numbers::between(1, u64::from(MAX_LANE));
    Ok(checked(u64::from(bytes[place]), 1, place, &lanes)? as u8)
}

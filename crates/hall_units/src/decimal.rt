ghost use Rattle.std.specs.Prelude.{◌≡◌, Some, decimal};
ghost use Rattle.hall_units.specs.Number.{bounded_number};
ghost use Rattle.hall_units.specs.Printing.{Prints};

use crate::push::push_bytes;
use crate::types::NoMemory;
use itoa::Buffer;

/// No decimal text of a number of 128 bits has more bytes.
pub const MAX_DECIMAL: usize = 40;

/// No decimal text of a number of 32 bits has more bytes.
pub const MAX_COUNT: usize = 10;

/// No decimal text of a number of 64 bits has more bytes.
pub const MAX_NUMBER: usize = 20;

/// Appends the decimal digits of a number. With room for `MAX_DECIMAL` bytes it takes no memory; a
/// refusal leaves the bytes as they were.
pub fn push_decimal(to: &mut Vec<u8>, number: u128) -> Result<(), NoMemory>
    ensures { Prints to.old to.new result (decimal number) MAX_DECIMAL }
{
    let mut buffer = Buffer::new();
    push_bytes(to, buffer.format(number).as_bytes())?;
    Ok(())
}

/// Appends the decimal digits of a count. With room for `MAX_COUNT` bytes it takes no memory; a
/// refusal leaves the bytes as they were.
pub fn push_count(to: &mut Vec<u8>, count: u32) -> Result<(), NoMemory>
    ensures prints { Prints to.old to.new result (decimal count) MAX_COUNT }
    ensures read_back { bounded_number MAX_COUNT u32.MAX (decimal count) ≡ Some count }
{
    let mut buffer = Buffer::new();
    push_bytes(to, buffer.format(count).as_bytes())?;
    Ok(())
}

/// Appends the decimal digits of a number of 64 bits. With room for `MAX_NUMBER` bytes it takes no
/// memory; a refusal leaves the bytes as they were.
pub fn push_number(to: &mut Vec<u8>, value: u64) -> Result<(), NoMemory>
    ensures prints { Prints to.old to.new result (decimal value) MAX_NUMBER }
    ensures read_back { bounded_number MAX_NUMBER u64.MAX (decimal value) ≡ Some value }
{
    let mut buffer = Buffer::new();
    push_bytes(to, buffer.format(value).as_bytes())?;
    Ok(())
}

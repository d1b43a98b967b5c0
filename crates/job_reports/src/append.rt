ghost use Rattle.std.specs.Prelude.{◌≤◌, ◌++◌, decimal, length};
ghost use Rattle.batch_reports.specs.Appending.{HasRoom, Appended};

use hall_units::{MAX_COUNT, push_bytes, push_count};

/// The most bytes of a label.
pub const MAX_LABEL: usize = 8;

/// The most bytes of a label and a count.
pub const MAX_NUMBERED: usize = MAX_LABEL + MAX_COUNT;

/// Appends bytes.
pub fn append(to: &mut Vec<u8>, bytes: &[u8])
    requires { HasRoom to.old (length bytes.now) }
    ensures { Appended to.old to.new bytes.now (length bytes.now) }
{
    push_bytes(to, bytes).unwrap();
}

// Appends a count in decimal digits.
fn append_count(to: &mut Vec<u8>, count: u32)
    requires { HasRoom to.old MAX_COUNT }
    ensures { Appended to.old to.new (decimal count) MAX_COUNT }
{
    push_count(to, count).unwrap();
}

/// Appends a label and a count.
pub fn append_numbered(to: &mut Vec<u8>, label: &[u8], count: u32)
    requires room { HasRoom to.old MAX_NUMBERED }
    requires short { length label.now ≤ MAX_LABEL }
    ensures { Appended to.old to.new (label.now ++ decimal count) MAX_NUMBERED }
{
    append(to, label);
    append_count(to, count);
}

ghost use Rattle.std.specs.Prelude.{◌≡◌, true, IfSome};
ghost use Rattle.std.specs.Option.{option_map_or};
ghost use Rattle.paper_form.specs.Papers.{is_weighed_in_range};
ghost use Rattle.paper_form.specs.Ranges.{is_line_in_range};
ghost use Rattle.paper_form.specs.Lines.{fields_left, weighed_in, weighed_or_not, first_line, second_line};

use crate::fields::{labelled, last_labelled, next_field, only_field};
use crate::types::{Line, Pick, Weighed};
use crate::values::{read_mass, read_row};
use hall_limits::{MAX_GROSS, MAX_TARE};

// `gross G empty G`.
fn read_weighed(left: &[u8]) -> Option<Weighed>
    ensures value { result ≡ weighed_in (fields_left left.now) }
    ensures range { IfSome result (λ weighed. is_weighed_in_range weighed ≡ true) }
{
    let (gross, left) = labelled(b"gross", left)?;
    let empty = last_labelled(b"empty", left)?;
    let gross = read_mass(&MAX_GROSS, gross)?;
    let empty = read_mass(&MAX_TARE, empty)?;
    Some(Weighed { gross, empty })
}

// `gross G empty G`, or `unmeasured`.
fn read_weighed_or_not(left: &[u8]) -> Option<Option<Weighed>>
    ensures value { result ≡ weighed_or_not (fields_left left.now) }
    ensures range { IfSome result
        (λ weighed. option_map_or is_weighed_in_range weighed true ≡ true) }
{
    match only_field(left) {
        Some(field) if field == b"unmeasured".as_slice() => Some(None),
        Some(_) => None,
        None => Some(Some(read_weighed(left)?)),
    }
}

/// `first N gross G empty G`, without its first word, as the others.
pub fn read_first(left: &[u8]) -> Option<Line>
    ensures value { result ≡ first_line (fields_left left.now) }
    ensures range { IfSome result (λ line. is_line_in_range line ≡ true) }
{
    let (number, left) = next_field(left)?;
    let pack = read_row(number)?;
    let weighed = read_weighed(left)?;
    Some(Line::First(Pick {
        pack,
        weighed: Some(weighed),
    }))
}

/// `second N gross G empty G`, or `second N unmeasured`.
pub fn read_second(left: &[u8]) -> Option<Line>
    ensures value { result ≡ second_line (fields_left left.now) }
    ensures range { IfSome result (λ line. is_line_in_range line ≡ true) }
{
    let (number, left) = next_field(left)?;
    let pack = read_row(number)?;
    let weighed = read_weighed_or_not(left)?;
    Some(Line::Second(Pick { pack, weighed }))
}

ghost use Rattle.std.specs.Prelude.{◌≡◌, ◌<◌, ◌≤◌, [], ◌∷◌, false, length, None, Some, IfSome, MatchOption};
ghost use Rattle.std.specs.List.{slice_split, position_or_len};
ghost use Rattle.paper_form.specs.Papers.{is_blank, is_line_end};
ghost use Rattle.paper_form.specs.Lines.{fields_left, is_over, is_one_field, value_with, only_value};

use memchr::memchr;

/// The bytes before the first LF and those behind it; `None` exactly where there is no LF.
pub fn split_line(bytes: &[u8]) -> Option<(&[u8], &[u8])>
    ensures pieces { MatchOption result
        (slice_split is_line_end bytes.now ≡ bytes.now ∷ [])
        (λ pair. slice_split is_line_end bytes.now
        ≡ pair.0.now ∷ slice_split is_line_end pair.1.now) }
    ensures shorter { IfSome result (λ pair. length pair.1.now < length bytes.now) }
{
    let Some(end) = memchr(b'\n', bytes) else {
        return None;
    };
    let (line, rest) = bytes.split_at(end);
    Some((line, &rest[1..]))
}

// The number of bytes before the first blank.
fn length_of_field(text: &[u8]) -> usize
    ensures value { result ≡ position_or_len is_blank text.now }
    ensures within { result ≤ length text.now }
{
    text.iter().take_while(|byte| **byte != b' ').count()
}

/// The first field of a line, and what is left of the line behind it.
pub fn first_field(text: &[u8]) -> (&[u8], &[u8])
    ensures { slice_split is_blank text.now ≡ result.0.now ∷ fields_left result.1.now }
{
    text.split_at(length_of_field(text))
}

/// The next field of what is left of a line, where there is one, and what is left behind it.
pub fn next_field(left: &[u8]) -> Option<(&[u8], &[u8])>
    ensures { MatchOption result (fields_left left.now ≡ [])
        (λ pair. fields_left left.now ≡ pair.0.now ∷ fields_left pair.1.now) }
{
    let (_, text) = left.split_first()?;
    Some(first_field(text))
}

/// Whether nothing is left of a line.
pub fn is_over(left: &[u8]) -> bool
    ensures { result ≡ is_over (fields_left left.now) }
{
    left.is_empty()
}

/// The only field of what is left of a line, where there is just one.
pub fn only_field(left: &[u8]) -> Option<&[u8]>
    ensures { MatchOption result (is_one_field (fields_left left.now) ≡ false)
        (λ field. fields_left left.now ≡ field.now ∷ []) }
{
    let (field, left) = next_field(left)?;
    if next_field(left).is_some() {
        return None;
    }
    Some(field)
}

/// The field behind this label, where the two are next, and what is left behind them.
pub fn labelled<'a>(label: &[u8], left: &'a [u8]) -> Option<(&'a [u8], &'a [u8])>
    ensures { MatchOption result (value_with label.now (fields_left left.now) ≡ None)
        (λ pair. value_with label.now (fields_left left.now)
        ≡ Some (record { value = pair.0.now; left = fields_left pair.1.now })) }
{
    let (field, left) = next_field(left)?;
    let (value, left) = next_field(left)?;
    if field != label {
        return None;
    }
    Some((value, left))
}

/// The field behind this label, where only the two are left.
pub fn last_labelled<'a>(label: &[u8], left: &'a [u8]) -> Option<&'a [u8]>
    ensures { MatchOption result (only_value label.now (fields_left left.now) ≡ None)
        (λ value. only_value label.now (fields_left left.now) ≡ Some value.now) }
{
    let (value, left) = labelled(label, left)?;
    if !is_over(left) {
        return None;
    }
    Some(value)
}

ghost use Rattle.std.specs.Prelude.{◌≡◌, ◌<◌, ◌≤◌, true, false, length, take, IfOk, OnErr};
ghost use Rattle.text_streams.specs.Streams.{input_at};
ghost use Rattle.standby_hall.specs.Rows.{TakesUpTo, FailsWithin};

use disk_core::{Failed, Source};

/// Reads into a buffer until it is full or the input ends, and answers how many bytes these are.
pub(crate) fn fill<S: Source>(input: &mut S, into: &mut [u8]) -> Result<usize, Failed>
    requires unended { S.ended input.old ≡ false }
    ensures size { length into.new ≡ length into.old }
    ensures bound { IfOk result (λ count. count ≤ length into.old) }
    ensures taken { IfOk result (λ count. TakesUpTo (input_at S.Source input.old)
        (input_at S.Source input.new) (length into.old) (take count into.new)) }
    ensures unended { IfOk result (λ count. count ≡ length into.old
        → S.ended input.new ≡ false) }
    ensures ended { IfOk result (λ count. count < length into.old
        → S.ended input.new ≡ true) }
    ensures failed { OnErr result (FailsWithin (input_at S.Source input.old)
        (input_at S.Source input.new) (length into.old)) }
{
    let mut count = 0;
    while count < into.len() {
        let more = input.read(&mut into[count..])?;
        if more == 0 {
            return Ok(count);
        }
        count += more;
    }
    Ok(count)
}

ghost use Rattle.std.specs.Prelude.{[], ◌++◌, decimal, OnOk, OnErr};
ghost use Rattle.text_streams.specs.Streams.{output_at, WroteAll, IsCutIn};

use disk_core::{Partly, Sink, write_all};
use itoa::Buffer;

/// Writes a text; it takes no memory.
pub fn write_text<K: Sink>(output: &mut K, text: &[u8]) -> Result<(), Partly>
    ensures wrote { OnOk result (WroteAll (output_at K.Sink output.old)
        (output_at K.Sink output.new) text.now) }
    ensures cut { OnErr result (IsCutIn (output_at K.Sink output.old)
        (output_at K.Sink output.new) [] text.now) }
{
    write_all(output, text)?;
    Ok(())
}

// Writes a number and the text behind it.
fn write_number<K: Sink>(output: &mut K, number: u64, back: &[u8]) -> Result<(), Partly>
    ensures wrote { OnOk result (WroteAll (output_at K.Sink output.old)
        (output_at K.Sink output.new) (decimal number ++ back.now)) }
    ensures cut { OnErr result (IsCutIn (output_at K.Sink output.old)
        (output_at K.Sink output.new) [] (decimal number ++ back.now)) }
{
    let mut buffer = Buffer::new();
    write_text(output, buffer.format(number).as_bytes())?;
    write_text(output, back)?;
    Ok(())
}

/// Writes a text, a number and another text; it takes no memory.
pub fn write_numbered<K: Sink>(
    output: &mut K,
    front: &[u8],
    number: u64,
    back: &[u8],
) -> Result<(), Partly>
    ensures wrote { OnOk result (WroteAll (output_at K.Sink output.old)
        (output_at K.Sink output.new) (front.now ++ (decimal number ++ back.now))) }
    ensures cut { OnErr result (IsCutIn (output_at K.Sink output.old)
        (output_at K.Sink output.new) [] (front.now ++ (decimal number ++ back.now))) }
{
    write_text(output, front)?;
    write_number(output, number, back)?;
    Ok(())
}

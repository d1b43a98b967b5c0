ghost use Rattle.std.specs.Prelude.{◌≡◌, [], OnOk, IfErr};
ghost use Rattle.store_runs.specs.declared.stop.Stop.TheVariants as stop;
ghost use Rattle.text_streams.specs.Streams.{output_at, WroteAll, IsCutIn};

use disk_core::Sink;
use store_runs::Stop;
use text_streams::write_text;

/// Writes a whole text; where it is cut, a run stops.
pub fn write_whole<K: Sink>(output: &mut K, text: &[u8]) -> Result<(), Stop>
    ensures wrote { OnOk result (WroteAll (output_at K.Sink output.old)
        (output_at K.Sink output.new) text.now) }
    ensures cut { IfErr result (λ how. (how ≡ stop.WriteFault)
        × IsCutIn (output_at K.Sink output.old) (output_at K.Sink output.new) [] text.now) }
{
    match write_text(output, text) {
        Ok(()) => Ok(()),
        Err(_) => Err(Stop::WriteFault),
    }
}

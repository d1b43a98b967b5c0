ghost use Rattle.std.specs.Prelude.{◌≡◌, ◌∷◌, IfOk, map};
ghost use Rattle.std.specs.List.{All};
ghost use Rattle.csv.specs.Reading.{AreRecords, default_config, strip_bom};
ghost use Rattle.csv.specs.declared.parser.State.TheVariants.{StartRecord};
ghost use Rattle.book_words.specs.Ranges.{IsPackInRange};
ghost use Rattle.pack_register.specs.Register.{column_names, columns, register_text};

use crate::list::PackList;
use crate::writer::RegisterWriter;
use book_words::PackView;
use std::alloc::{AllocError, Global};

/// Memory that was wanted could not be had.
pub type NoMemory = AllocError;

/// The register of these packs: the header, and the record of each in their order. The kit's `csv`
/// reads back the names of the columns and what stands in them.
pub fn register(alloc: Global, packs: &PackList) -> Result<Vec<u8>, NoMemory>
    requires { All IsPackInRange packs.now }
    ensures text { IfOk result (λ text. text.items ≡ register_text packs.now) }
    ensures reads_back { IfOk result (λ text. AreRecords default_config StartRecord
        (strip_bom text.items) (column_names ∷ map columns packs.now)) }
{
    let text = write_register(alloc, packs.as_slice())?;
    Ok(text)
}

// Writes the header and the record of each pack.
fn write_register(alloc: Global, packs: &[PackView]) -> Result<Vec<u8>, NoMemory>
    requires { All IsPackInRange packs.now }
    ensures { IfOk result (λ text. text.items ≡ register_text packs.now) }
{
    let mut register = RegisterWriter::new(alloc, packs.len())?;
    for pack in packs {
        register.push(pack)?;
    }
    let text = register.finish()?;
    Ok(text)
}

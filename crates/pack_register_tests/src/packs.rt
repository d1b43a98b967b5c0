ghost use Rattle.std.specs.Prelude.{IfSome};
ghost use Rattle.book_words.specs.Ranges.{IsPackInRange};

use book_words::{Name, PackView};
use hall_limits::{MAX_DAY, MAX_GROSS, MAX_TARE};
use pack_judge::{Class, Pile, Signal};
use pack_register::{PackList, register};
use std::alloc::{AllocError, Global};

/// The header of a register.
pub const HEADER: &[u8] = b"pack,batch,product,lane,day,gross,net,class,signal,pile\n";

/// What was weighed: the number, the names of batch and product, the lane, the day, the gross and
/// the net in mg.
pub type Weighed = (u32, &'static [u8], &'static [u8], u8, i32, i64, i64);

/// What the pack was found to be.
pub type Found = (Class, Signal, Pile);

/// The pack, where its names, its day and its masses are in their ranges.
pub fn pack_of(weighed: &Weighed, found: Found) -> Option<PackView>
    ensures { IfSome result IsPackInRange }
{
    let (pack, batch, product, lane, day, gross, net) = *weighed;
    let (class, signal, pile) = found;
    let batch = Name::new(batch)?;
    let product = Name::new(product)?;
    if day < 0 || day > MAX_DAY {
        return None;
    }
    if gross < 0 || gross > MAX_GROSS || net < -MAX_TARE || net > MAX_GROSS {
        return None;
    }
    Some(PackView {
        pack,
        batch,
        product,
        lane,
        day,
        gross,
        net,
        class,
        signal,
        pile,
    })
}

/// The register of a pack that is listed twice.
pub fn register_twice(alloc: Global, pack: &PackView) -> Result<Vec<u8>, AllocError>
    requires { IsPackInRange pack.now }
{
    let packs = Vec::from_slice(alloc, &[*pack, *pack])?;
    register(alloc, &PackList::from(packs))
}

/// What stands behind the header of a register, where it is there.
pub fn behind_header(text: &[u8]) -> Option<&[u8]> {
    text.strip_prefix(HEADER)
}

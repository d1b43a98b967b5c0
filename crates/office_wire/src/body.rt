ghost use Rattle.std.specs.Prelude.{◌≡◌, IfOk};
ghost use Rattle.office_wire.specs.Acts.{desk_ask};

use crate::acts::ask_of;
use book_words::Ask;
use serde_json::{Category, Value};
use std::alloc::{AllocError, Global};

/// What the body of a request asks for; `None` where it isn't an act of a desk. The error is want
/// of memory.
pub fn desk_ask(alloc: Global, body: &[u8]) -> Result<Option<Ask>, AllocError>
    ensures { IfOk result (λ ask. ask ≡ desk_ask body.now) }
{
    let Ok(text) = str::from_utf8(body) else {
        return Ok(None);
    };
    match Value::from_str(alloc, text) {
        Ok(json) => Ok(ask_of(&json)),
        Err(error) if error.classify() == Category::Memory => Err(AllocError),
        Err(_) => Ok(None),
    }
}

ghost use Rattle.std.specs.Prelude.{◌≤◌, IfOk, vec_capacity};
ghost use Rattle.office_responses.specs.declared.replies.TheConstants.{REPLY_ROOM};

use crate::held::Held;
use office_responses::REPLY_ROOM;
use office_wire::Routes;
use std::alloc::{AllocError, Global};

/// The room of a door: its routes, and room for the bytes that it reads and for a response.
#[derive(Drop)]
pub(crate) struct Buffers {
    pub routes: Routes,
    pub held: Held,
    pub reply: Vec<u8>,
}

/// Takes that room.
pub(crate) fn take_room(alloc: Global) -> Result<Buffers, AllocError>
    ensures { IfOk result (λ buffers. REPLY_ROOM ≤ vec_capacity buffers.reply) }
{
    Ok(Buffers {
        routes: Routes::new(alloc)?,
        held: Held::new(alloc)?,
        reply: Vec::with_capacity(alloc, REPLY_ROOM)?,
    })
}

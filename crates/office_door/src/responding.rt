ghost use Rattle.std.specs.Prelude.{◌≡◌, ◌≤◌, vec_capacity};
ghost use Rattle.office_responses.specs.declared.replies.TheConstants.{REPLY_ROOM};
ghost use Rattle.office_door.specs.Steps.{Responds};

use book_words::{AskError, Caller};
use office_responses::{bad_into, reply_into};
use office_wire::OfficeAsk;

/// Answers a request: asks the caller, where the request asks something, and makes the response.
pub(crate) fn respond<C: Caller>(caller: &mut C, told: &OfficeAsk, last: bool, reply: &mut Vec<u8>)
    requires room { REPLY_ROOM ≤ vec_capacity reply.old }
    ensures responds { Responds (C.later caller.old caller.new) (C.known caller.old)
        (C.known caller.new) told.now last reply.new.items }
    ensures room { vec_capacity reply.new ≡ vec_capacity reply.old }
{
    reply.clear();
    match told {
        OfficeAsk::Ask(ask) => reply_into(&caller.ask(ask), last, reply),
        OfficeAsk::Bad(bad) => bad_into(bad, last, reply),
        OfficeAsk::NoMemory => reply_into(&Err(AskError::NoMemory), last, reply),
    }
}

ghost use Rattle.std.specs.Prelude.{◌≡◌, ◌≤◌, length};
ghost use Rattle.batch_reports.specs.Appending.{HasRoom, Appended};
ghost use Rattle.office_responses.specs.Responses.{answer_media, reply_head, reply_response, bad_status, bad_word, bad_extra, bad_head, bad_response, IsBookAnswer};

use crate::bodies::{MAX_FAULT, push_bad, push_reply};
use crate::heads::put_head;
use crate::types::{Extra, Head, Media, Status};
use book_words::{Answered, AskError, Reply};
use office_wire::Bad;

/// No response has more bytes: a text of the book, of 32 768 bytes at most, and a head.
pub const REPLY_ROOM: usize = 33_280;

/// Appends the response to what the book answers a desk; `last` says that the connection ends
/// behind it. It takes no memory.
pub fn reply_into(answer: &Result<Answered, AskError>, last: bool, to: &mut Vec<u8>)
    requires room { HasRoom to.old REPLY_ROOM }
    requires given { IsBookAnswer answer.now }
    ensures { Appended to.old to.new (reply_response answer.now last) REPLY_ROOM }
{
    let start = to.len();
    push_reply(to, answer);
    put_head(to, start, &reply_head(answer, last));
}

/// Appends the response to a request whose form is at fault; `last` says that the connection ends
/// behind it. It takes no memory.
pub fn bad_into(bad: &Bad, last: bool, to: &mut Vec<u8>)
    requires { HasRoom to.old REPLY_ROOM }
    ensures { Appended to.old to.new (bad_response bad.now last) REPLY_ROOM }
{
    let start = to.len();
    push_bad(to, bad_word(bad));
    put_head(to, start, &bad_head(bad, last));
}

// The head of the response to what the book answers.
fn reply_head(answer: &Result<Answered, AskError>, last: bool) -> Head
    ensures { result ≡ reply_head answer.now last }
{
    match answer {
        Ok(answered) => Head {
            status: Status::Ok,
            media: answer_media(&answered.reply),
            extra: Extra::BookRow { at: answered.at },
            last,
        },
        Err(AskError::Refused(refused)) => Head {
            status: Status::Conflict,
            media: Media::Json,
            extra: Extra::BookRow { at: refused.at },
            last,
        },
        Err(AskError::DiskFault) => Head {
            status: Status::InternalServerError,
            media: Media::Json,
            extra: Extra::Nothing,
            last,
        },
        Err(AskError::NoMemory) => Head {
            status: Status::ServiceUnavailable,
            media: Media::Json,
            extra: Extra::Nothing,
            last,
        },
    }
}

// The type of the body of an answer.
fn answer_media(reply: &Reply) -> Media
    ensures { result ≡ answer_media reply.now }
{
    match reply {
        Reply::Done { .. } | Reply::Closed { .. } => Media::Json,
        Reply::ShipmentIs(_) => Media::Octets,
        _ => Media::Plain,
    }
}

// The head of the response to a fault.
fn bad_head(bad: &Bad, last: bool) -> Head
    ensures { result ≡ bad_head bad.now last }
{
    Head {
        status: bad_status(bad),
        media: Media::Json,
        extra: bad_extra(bad),
        last,
    }
}

// The status of a fault.
fn bad_status(bad: &Bad) -> Status
    ensures { result ≡ bad_status bad.now }
{
    match bad {
        Bad::Head | Bad::Length | Bad::Short | Bad::Body => Status::BadRequest,
        Bad::Coding | Bad::NoLength => Status::LengthRequired,
        Bad::Large => Status::PayloadTooLarge,
        Bad::Path => Status::NotFound,
        Bad::Method { .. } => Status::MethodNotAllowed,
    }
}

// The line for a fault.
fn bad_extra(bad: &Bad) -> Extra
    ensures { result ≡ bad_extra bad.now }
{
    match bad {
        Bad::Method { post } => Extra::Allow { post: *post },
        _ => Extra::Nothing,
    }
}

// The word for a fault.
fn bad_word(bad: &Bad) -> &'static [u8]
    ensures text { result.now ≡ bad_word bad.now }
    ensures short { length result.now ≤ MAX_FAULT }
{
    match bad {
        Bad::Head => b"head",
        Bad::Coding => b"coding",
        Bad::Length => b"length",
        Bad::Large => b"large",
        Bad::Short => b"short",
        Bad::Path => b"path",
        Bad::Method { .. } => b"method",
        Bad::NoLength => b"nolength",
        Bad::Body => b"body",
    }
}

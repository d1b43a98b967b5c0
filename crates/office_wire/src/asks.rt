ghost use Rattle.std.specs.Prelude.{◌≡◌, ℕ, List, Option, Some};
ghost use Rattle.office_wire.specs.declared.types.Route.TheVariants as route;
ghost use Rattle.office_wire.specs.Frames.{question_ask, act_ask, office_ask, MayTell};

use crate::body::desk_ask;
use crate::methods::is_method;
use crate::types::{Bad, OfficeAsk, Route};
use book_words::{Ask, Question, Want};
use http::Method;
use std::alloc::Global;

/// What is asked at a route by a method, with the length of the body where one is given. It takes
/// memory for an act alone.
pub fn office_ask(
    alloc: Global,
    route: Option<Route>,
    method: &[u8],
    given: Option<usize>,
    body: &[u8],
) -> OfficeAsk
    ensures { MayTell (office_ask route method.now given body.now) result }
{
    let Some(route) = route else {
        return OfficeAsk::Bad(Bad::Path);
    };
    match route {
        Route::Acts => posted_ask(alloc, method, given, body),
        Route::Question(question) => got_ask(alloc, method, question),
    }
}

// What is asked where acts are posted.
fn posted_ask(alloc: Global, method: &[u8], given: Option<usize>, body: &[u8]) -> OfficeAsk
    ensures { MayTell (office_ask (Some route.Acts) method.now given body.now) result }
{
    if is_method(alloc, method, &Method::POST) {
        act_ask(alloc, given, body)
    } else {
        OfficeAsk::Bad(Bad::Method { post: true })
    }
}

// What is asked where the answer to a question is got.
fn got_ask(alloc: Global, method: &[u8], question: Question) -> OfficeAsk
    ensures { (given : Option ℕ) (body : List ℕ)
        → result ≡ office_ask (Some (route.Question question)) method.now given body }
{
    if is_method(alloc, method, &Method::GET) {
        OfficeAsk::Ask(question_ask(question))
    } else {
        OfficeAsk::Bad(Bad::Method { post: false })
    }
}

// A question as desk 0, request 0.
fn question_ask(question: Question) -> Ask
    ensures { result ≡ question_ask question }
{
    Ask {
        desk: 0,
        request: 0,
        want: Want::Question(question),
    }
}

// What an act asks.
fn act_ask(alloc: Global, given: Option<usize>, body: &[u8]) -> OfficeAsk
    ensures { MayTell (act_ask given body.now) result }
{
    if given.is_none() {
        return OfficeAsk::Bad(Bad::NoLength);
    }
    match desk_ask(alloc, body) {
        Ok(Some(ask)) => OfficeAsk::Ask(ask),
        Ok(None) => OfficeAsk::Bad(Bad::Body),
        Err(_) => OfficeAsk::NoMemory,
    }
}

ghost use Rattle.std.specs.Prelude.{◌≡◌, ◌∷◌, ◌==◌, [], true, false, None, ℕ, List};
ghost use Rattle.book_words.specs.declared.act.Entry as rows;
ghost use Rattle.book_words.specs.Desks.{same_act, is_lane_act, is_desk, is_desk_right, is_row_of, last_request, repeated_row, desk_number, request_old, request_reused, request_gap, newest_row, Row};
ghost use Rattle.book_words.specs.Refusals.{first_refusal};

use book_verdicts::State;
use book_words::{Act, Ask, Entry, Refusal};
use hall_limits::{MAX_DESK, MIN_DESK};
use std::marker::Model;

/// The newest row of a desk.
#[derive(Clone, Copy)]
struct DeskRow {
    number: u32,
    entry: Entry,
}

impl Model for DeskRow {
    ghost use Rattle.book_words.specs.Desks as desks;

    ghost Value = { desks.Row };

    ghost view = { λ r. record { number = r.number; entry = r.entry } };

    ghost inverse = { λ r. record { number = r.number; entry = r.entry } };
}

// Whether two acts are the same, in all that they say.
fn is_same_act(a: &Act, b: &Act) -> bool
    ensures { result ≡ same_act a.now b.now }
{
    a == b
}

// Whether no desk may ask for an act: it is one of a lane.
fn is_lane_act(act: &Act) -> bool
    ensures { result ≡ is_lane_act act.now }
{
    match act {
        Act::StartLane { .. } | Act::Weigh { .. } | Act::StopLane { .. } => true,
        _ => false,
    }
}

// Whether a number is that of a desk.
fn is_desk(desk: u16) -> bool
    ensures { result ≡ is_desk desk }
{
    MIN_DESK <= desk && desk <= MAX_DESK
}

// Whether an act may be asked by the desk, with its request.
fn is_desk_right(ask: &Ask, act: &Act) -> bool
    ensures { result ≡ is_desk_right ask.now act.now }
{
    if ask.desk == 0 {
        ask.request == 0
    } else {
        is_desk(ask.desk) && !is_lane_act(act)
    }
}

/// The number isn't that of a desk, an act of a lane comes from a desk, or a request comes without
/// a desk.
pub fn desk_number(ask: &Ask, act: &Act) -> Option<Refusal>
    ensures { result ≡ desk_number ask.now act.now }
{
    if is_desk_right(ask, act) {
        None
    } else {
        Some(Refusal::DeskNumber)
    }
}

// The newest row of a desk.
fn newest_row(state: &State, desk: u16) -> Option<DeskRow>
    requires { is_desk desk ≡ true }
    ensures { result ≡ newest_row state.now.entries desk }
{
    let number = state.newest_row(desk)?;
    let entry = state.entry(number)?;
    Some(DeskRow { number, entry })
}

// The number of the request of a desk's newest row; 0 where there is none.
fn last_request(newest: &Option<DeskRow>) -> u32
    ensures { (entries : List rows.Entry) (desk : ℕ) → newest.now ≡ newest_row entries desk
        → result ≡ last_request entries desk }
{
    match newest {
        Some(row) => row.entry.request,
        None => 0,
    }
}

/// The row that an ask repeats, where it does.
pub fn repeated_row(state: &State, ask: &Ask, act: &Act) -> Option<u32>
    requires right { desk_number ask.now act.now ≡ None }
    ensures { result ≡ repeated_row state.now.entries ask.now act.now }
{
    if ask.request == 0 {
        return None;
    }
    let newest = newest_row(state, ask.desk)?;
    if newest.entry.request == ask.request && is_same_act(&newest.entry.act, act) {
        Some(newest.number)
    } else {
        None
    }
}

// The request is 0, or before the newest one of the desk, whose number is `last`.
fn request_old(last: u32, ask: &Ask) -> Option<Refusal>
    requires given { (ask.now.desk == 0) ≡ false }
    ensures { (entries : List rows.Entry) → last ≡ last_request entries ask.now.desk
        → result ≡ request_old entries ask.now }
{
    if ask.request == 0 || ask.request < last {
        Some(Refusal::RequestOld { last })
    } else {
        None
    }
}

// The newest request of the desk has this number, and another act.
fn request_reused(newest: &Option<DeskRow>, ask: &Ask, act: &Act) -> Option<Refusal>
    requires given { (ask.now.desk == 0) ≡ false }
    ensures { (entries : List rows.Entry) → newest.now ≡ newest_row entries ask.now.desk
        → result ≡ request_reused entries ask.now act.now }
{
    if ask.request == 0 {
        return None;
    }
    let Some(newest) = newest else {
        return None;
    };
    if newest.entry.request == ask.request && !is_same_act(&newest.entry.act, act) {
        Some(Refusal::RequestReused { row: newest.number })
    } else {
        None
    }
}

// The request isn't the one after the newest of the desk, whose number is `last`.
fn request_gap(last: u32, ask: &Ask) -> Option<Refusal>
    requires given { (ask.now.desk == 0) ≡ false }
    ensures { (entries : List rows.Entry) → last ≡ last_request entries ask.now.desk
        → result ≡ request_gap entries ask.now }
{
    if u64::from(ask.request) > u64::from(last) + 1 {
        Some(Refusal::RequestGap { last })
    } else {
        None
    }
}

/// The request of a desk is refused: it is old, reused, or leaves a gap.
pub fn refuse_request(state: &State, ask: &Ask, act: &Act) -> Option<Refusal>
    requires right { desk_number ask.now act.now ≡ None }
    ensures { result ≡ first_refusal (request_old state.now.entries ask.now
        ∷ request_reused state.now.entries ask.now act.now
        ∷ request_gap state.now.entries ask.now ∷ []) }
{
    if ask.desk == 0 {
        return None;
    }
    let newest = newest_row(state, ask.desk);
    let last = last_request(&newest);
    request_old(last, ask)
        .or(request_reused(&newest, ask, act))
        .or(request_gap(last, ask))
}

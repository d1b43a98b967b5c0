ghost use Rattle.std.specs.Prelude.{◌≡◌, OnOk, OnErr, IfOk, IfErr};
ghost use Rattle.book_words.specs.declared.act.Act.TheVariants as act;
ghost use Rattle.book_words.specs.declared.act.Want.TheVariants as want;
ghost use Rattle.store_runs.specs.Books.{stored_book};
ghost use Rattle.store_runs.specs.Runs.{Goes};
ghost use Rattle.script_events.specs.Asking.{prior_at, want_at, ask_at, exchange_at, IsTold};
ghost use Rattle.script_events.specs.Transcript.{after_command};
ghost use Rattle.script_events.specs.Unanswered.{MayStay, step_of};

use book_words::{
    Act, Answered, Ask, AskError, Caller, Name, Prior, Question, Refused, Unit, Want,
};
use disk_core::Disk;
use script_lines::{Command, Verb};
use store_runs::{Book, Offer, OneCaller, Stop};

/// The number that the entries of a script bear.
pub const SCRIPT: u16 = 0;

/// Why a command isn't answered.
#[derive(Clone, Copy)]
pub enum Unanswered {
    /// The disk failed at this ask: nothing is acknowledged.
    DiskFault(Ask),
    /// There is no memory for it: nothing was done.
    NoMemory,
}

impl From<Unanswered> for Stop {
    ghost use Rattle.std.specs.Prelude.{◌≡◌};
    ghost use Rattle.script_events.specs.Unanswered.{unanswered_stop};

    ghost from_gives = { λ why stop. stop ≡ unanswered_stop why };

    fn from(why: Unanswered) -> Stop {
        match why {
            Unanswered::DiskFault(ask) => Stop::DiskFault(Offer::Asked { by: SCRIPT, ask }),
            Unanswered::NoMemory => Stop::NoMemory,
        }
    }
}

// What the gate did: as the command says it, and else as it follows from the book.
fn prior_at(book: &Book, lane: u8, prior: Option<Prior>) -> Prior
    ensures { result ≡ prior_at book.now.entries lane prior }
{
    match prior {
        Some(prior) => prior,
        None if book.unsettled(lane).is_some() => Prior::Opened,
        None => Prior::Nothing,
    }
}

// A product by mass or by volume.
fn product_of(name: Name, nominal: i64, unit: Unit) -> Want
    ensures { result ≡ want.Act (act.PutProduct name nominal unit) }
{
    Want::Act(Act::PutProduct {
        name,
        nominal,
        unit,
    })
}

// The weighing of a pack on a lane, with what the gate did before it.
fn weigh_at(book: &Book, lane: u8, gross: i64, prior: Option<Prior>) -> Want
    ensures { result
        ≡ want.Act (act.Weigh lane gross (prior_at book.now.entries lane prior)) }
{
    Want::Act(Act::Weigh {
        lane,
        gross,
        prior: prior_at(book, lane, prior),
    })
}

// The stop of a lane, with what the gate did before it.
fn stop_want(book: &Book, lane: u8, prior: Option<Prior>) -> Want
    ensures { result ≡ want.Act (act.StopLane lane (prior_at book.now.entries lane prior)) }
{
    Want::Act(Act::StopLane {
        lane,
        prior: prior_at(book, lane, prior),
    })
}

// What a verb wants of the book.
fn want_at(book: &Book, verb: Verb) -> Want
    ensures { result ≡ want_at book.now.entries verb }
{
    match verb {
        Verb::Day { day } => Want::Act(Act::NewDay { day }),
        Verb::Product {
            name,
            nominal,
            unit,
        } => product_of(name, nominal, unit),
        Verb::Tare { product, day, tare } => Want::Act(Act::PutTare { product, day, tare }),
        Verb::Open {
            batch,
            product,
            density,
        } => Want::Act(Act::OpenBatch {
            batch,
            product,
            density,
        }),
        Verb::Start { lane, batch } => Want::Act(Act::StartLane { lane, batch }),
        Verb::Weigh { lane, gross, prior } => weigh_at(book, lane, gross, prior),
        Verb::Stop { lane, prior } => stop_want(book, lane, prior),
        Verb::Void { pack } => Want::Act(Act::Void { pack }),
        Verb::End { batch } => Want::Act(Act::EndRun { batch }),
        Verb::Draw { batch, mode, word } => Want::Act(Act::Draw { batch, mode, word }),
        Verb::Measure { pack, gross, empty } => Want::Act(Act::Measure { pack, gross, empty }),
        Verb::Second { batch, word } => Want::Act(Act::DrawSecond { batch, word }),
        Verb::Close { batch } => Want::Act(Act::Close { batch }),
        Verb::Sheet { batch } => Want::Question(Question::Sheet { batch }),
        Verb::Pack { pack } => Want::Question(Question::Pack { pack }),
        Verb::Lane { lane } => Want::Question(Question::Lane { lane }),
        Verb::Sample { batch } => Want::Question(Question::Sample { batch }),
        Verb::Summary => Want::Question(Question::Summary),
        Verb::Acts { after } => Want::Question(Question::Rows { after }),
        Verb::Packs { batch, after } => Want::Question(Question::Packs { batch, after }),
    }
}

/// What a command asks the book as it stands.
pub fn ask_at(book: &Book, command: &Command) -> Ask
    ensures { result ≡ ask_at book.now.entries command.now }
{
    Ask {
        desk: command.desk,
        request: command.request,
        want: want_at(book, command.verb),
    }
}

/// Asks a command as a script does, at the book as it stands, and gives the book's answer. Where
/// the disk fails or there is no memory, nothing is entered. Nothing is printed.
pub fn ask_command<D: Disk>(
    caller: &mut OneCaller<D>,
    command: &Command,
) -> Result<Result<Answered, Refused>, Unanswered>
    requires calm { caller.old.faults ≡ 0 }
    ensures answer { IfOk result (λ answer.
        answer ≡ (exchange_at (stored_book caller.old.store) command.now).answer) }
    ensures told { IfOk result IsTold }
    ensures after { OnOk result (stored_book caller.new.store
        ≡ after_command (stored_book caller.old.store) command.now) }
    ensures same { OnErr result (stored_book caller.new.store ≡ stored_book caller.old.store) }
    ensures may { IfErr result (MayStay (exchange_at (stored_book caller.old.store) command.now)) }
    ensures goes { Goes D.Disk (step_of result) caller.old.store caller.new.store }
    ensures calm { OnOk result (caller.new.faults ≡ 0) }
{
    caller.turn(SCRIPT);
    let ask = ask_at(caller.store().book(), command);
    match caller.ask(&ask) {
        Ok(answered) => Ok(Ok(answered)),
        Err(AskError::Refused(refused)) => Ok(Err(refused)),
        Err(AskError::DiskFault) => Err(Unanswered::DiskFault(ask)),
        Err(AskError::NoMemory) => Err(Unanswered::NoMemory),
    }
}

ghost use Rattle.std.specs.Prelude.{◌≡◌, ◌↔◌, ◌≤◌, true, false};
ghost use Rattle.tcp_door.specs.declared.manners.Patience.TheVariants.{Ended, Lost};
ghost use Rattle.tcp_door.specs.Silences.{is_unwanted};

use crate::openings::Opening;

/// How long a client that has asked nothing keeps the door from another that asks, in ms: one that
/// works on has asked by then, and who waits isn't kept for longer than one notices.
const YIELDS: u64 = 1_000;

/// How long it keeps the door otherwise, in ms: so long most clients and fronts keep a link.
const SILENCE: u64 = 60_000;

/// How long a request may take from its first byte to its last, in ms. One has at most 12 288 bytes,
/// which a slow link brings in a second.
const REQUEST: u64 = 10_000;

/// How long a response may wait for its client to take it, in ms. One has at most 4 096 bytes, for
/// which a link has room of its own.
const RESPONSE: u64 = 10_000;

/// For how long a door that is asked to end still takes what its clients ask, in ms; so they are
/// answered, and the door ends within a second.
const ENDS: u64 = 200;

/// For how long one to a scale does, and for how long after an acknowledgement: one that it didn't
/// get is asked for again by then.
const SCALE_ENDS: u64 = 500;

/// For how long a door waits for its clients, in ms.
#[derive(Clone, Copy, PartialEq, Eq)]
pub struct Manners {
    /// A client has its turn once it has sent so much.
    pub opening: Opening,
    /// A client that has asked nothing for so long is left as soon as another asks.
    pub yields: u64,
    /// It is left after so long in any case; where there is none, in no other.
    pub silence: Option<u64>,
    /// A request that isn't whole so long after its first byte is lost.
    pub request: u64,
    /// A response that isn't taken for so long is lost.
    pub response: u64,
    /// A door that is asked to end takes what is asked for so long.
    pub ends: u64,
    /// Then, too, a client is waited for since it was answered for so long.
    pub lingers: u64,
}

/// What becomes of a client that is waited for.
#[derive(Clone, Copy, PartialEq, Eq)]
pub enum Patience {
    /// It is waited for on.
    Waits,
    /// It was silent between requests: that is the connection's end.
    Ended,
    /// It was too slow within a request: its link is lost.
    Lost,
}

impl Manners {
    /// Those of an office, whose clients ask and are answered.
    pub const OFFICE: Manners = Manners {
        opening: Opening::Head,
        yields: YIELDS,
        silence: Some(SILENCE),
        request: REQUEST,
        response: RESPONSE,
        ends: ENDS,
        lingers: 0,
    };

    /// Those of a line to a scale, which may be silent between two packs for as long as it likes. One
    /// that has gone without a word is left when it speaks on another connection.
    pub const SCALE: Manners = Manners {
        opening: Opening::Line,
        yields: YIELDS,
        silence: None,
        request: REQUEST,
        response: RESPONSE,
        ends: SCALE_ENDS,
        lingers: SCALE_ENDS,
    };

    /// What becomes of a client that is waited for since so many ms: within a request since its first
    /// byte, else since it was answered or admitted. Tells whether another asks by then.
    pub fn patience(&self, in_request: bool, waited: u64, another_asks: bool) -> Patience
        ensures lost { (result ≡ Lost) ↔ (in_request ≡ true × self.now.request ≤ waited) }
        ensures ended { (result ≡ Ended)
            ↔ (in_request ≡ false × is_unwanted self.now waited another_asks ≡ true) }
    {
        match in_request {
            true if self.request <= waited => Patience::Lost,
            false if self.is_unwanted(waited, another_asks) => Patience::Ended,
            _ => Patience::Waits,
        }
    }

    /// Whether a client that has asked nothing for so many ms is left, where another asks and where
    /// none does.
    pub fn is_unwanted(&self, waited: u64, another_asks: bool) -> bool
        ensures { result ≡ is_unwanted self.now waited another_asks }
    {
        let is_silent = match self.silence {
            Some(silence) => silence <= waited,
            None => false,
        };
        is_silent || another_asks && self.yields <= waited
    }
}

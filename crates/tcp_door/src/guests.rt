use crate::links::{prepare, wait_on};
use crate::manners::Manners;
use crate::openings::Opening;
use std::alloc::Global;
use std::io;
use std::io::{ErrorKind, Read};
use std::net::TcpStream;

/// How many connections may wait at a door for their turn. So 32 doors with all that wait and all
/// that leave have fewer than the 1 024 descriptors that a program usually may.
pub(crate) const MAX_GUESTS: usize = 20;

/// How many bytes are read at once, and how often: together a head and more.
const PIECE: usize = 4_096;

const PIECES: u32 = 3;

/// What a connection has done that isn't served yet.
#[derive(Clone, Copy, PartialEq, Eq)]
enum Standing {
    /// It has sent nothing.
    Silent,
    /// It has sent a part of what it asks.
    Speaking,
    /// It has asked, or sends no more, or it had its time.
    Asking,
    /// It was closed or cut before its first byte.
    Gone,
}

/// A connection whose turn has come.
#[derive(Drop)]
pub(crate) struct Turn {
    pub link: TcpStream,
    /// What was read of it.
    pub heard: Vec<u8>,
    /// Whether it had its time to ask, and hasn't.
    pub is_late: bool,
}

/// A connection that isn't served yet. No call on it waits.
#[derive(Drop)]
struct Guest {
    link: TcpStream,
    /// Since when it is there, or else since its first byte.
    since: u64,
    heard: Vec<u8>,
    standing: Standing,
    is_late: bool,
}

impl Guest {
    /// A connection that came at this moment.
    fn seat(alloc: Global, link: TcpStream, now: u64) -> io::Result<Guest> {
        prepare(&link)?;
        link.set_nonblocking(true)?;
        Ok(Guest {
            link,
            since: now,
            heard: Vec::new(alloc),
            standing: Standing::Silent,
            is_late: false,
        })
    }

    // What it has done when its link ended, or was cut.
    fn at_end(&self) -> Standing {
        if self.heard.is_empty() {
            Standing::Gone
        } else {
            Standing::Asking
        }
    }

    // Takes in what it has sent. For want of memory it is closed.
    fn take_in(&mut self, piece: &[u8], opening: Opening, now: u64) {
        if self.heard.is_empty() {
            self.since = now;
        }
        self.standing = match self.heard.extend_from_slice(piece) {
            Err(_) => Standing::Gone,
            Ok(()) if opening.is_whole(&self.heard) => Standing::Asking,
            Ok(()) => Standing::Speaking,
        };
    }

    // Reads the next of what it has sent. Where there is no memory for that it is read in its turn.
    fn read_on(&mut self, opening: Opening, now: u64) {
        let mut piece = [0; PIECE];
        if self.heard.reserve(PIECE).is_err() {
            self.standing = Standing::Asking;
            return;
        }
        if let Ok(count) = self.link.read(&mut piece) {
            self.take_in(&piece[..count], opening, now);
        }
    }

    // Hears what it has sent, until it has asked.
    fn hear(&mut self, opening: Opening, now: u64) {
        for _piece in 0..PIECES {
            if self.standing == Standing::Asking || self.standing == Standing::Gone {
                return;
            }
            match self.link.peek(&mut [0]) {
                Ok(count) if count > 0 => self.read_on(opening, now),
                Err(error) if error.kind() == ErrorKind::WouldBlock => return,
                _ => self.standing = self.at_end(),
            }
        }
    }

    // Looks at what it has done.
    fn look(&mut self, manners: &Manners, now: u64) {
        self.hear(manners.opening, now);
        let waited = now.saturating_sub(self.since);
        if self.standing == Standing::Speaking && manners.request <= waited {
            self.standing = Standing::Asking;
            self.is_late = true;
        }
    }

    // Whether it stays, where another waits for its place and where none does.
    fn may_stay(&self, manners: &Manners, now: u64, is_full: bool) -> bool {
        match self.standing {
            Standing::Silent | Standing::Speaking => {
                !manners.is_unwanted(now.saturating_sub(self.since), is_full)
            }
            Standing::Asking => true,
            Standing::Gone => false,
        }
    }

    // Its turn has come: calls on it wait.
    fn admit(self) -> Option<Turn> {
        let Guest {
            link,
            heard,
            is_late,
            ..
        } = self;
        link.set_nonblocking(false).ok()?;
        Some(Turn {
            link,
            heard,
            is_late,
        })
    }
}

/// The connections that wait at a door, in the order in which they came. One has its turn once it
/// has asked; one that goes before its first byte was never there.
#[derive(Drop)]
pub(crate) struct Guests {
    all: Vec<Guest>,
    alloc: Global,
}

impl Guests {
    /// Nobody. It takes its room, or else as they come.
    pub fn new(alloc: Global) -> Self {
        Guests {
            all: match Vec::with_capacity(alloc, MAX_GUESTS) {
                Ok(all) => all,
                Err(_) => Vec::new(alloc),
            },
            alloc,
        }
    }

    /// Whether nobody waits.
    pub fn is_empty(&self) -> bool {
        self.all.is_empty()
    }

    /// Whether there is room for one more.
    pub fn has_room(&self) -> bool {
        self.all.len() < MAX_GUESTS
    }

    /// Takes a connection in that came at this moment. One that can't be set or for which there is
    /// no memory is closed.
    pub fn seat(&mut self, link: TcpStream, now: u64) {
        if let Ok(guest) = Guest::seat(self.alloc, link, now) {
            let _ = self.all.push(guest);
        }
    }

    /// Looks at all of them, and lets those go that went or are unwanted.
    pub fn look(&mut self, manners: &Manners, now: u64, is_full: bool) {
        for guest in self.all.iter_mut() {
            guest.look(manners, now);
        }
        self.all
            .retain(|guest| guest.may_stay(manners, now, is_full));
    }

    /// Whether one has asked.
    pub fn ask(&self) -> bool {
        self.all
            .iter()
            .any(|guest| guest.standing == Standing::Asking)
    }

    /// Takes the first out that has asked.
    pub fn next(&mut self) -> Option<Turn> {
        let place = self
            .all
            .iter()
            .position(|guest| guest.standing == Standing::Asking)?;
        self.all.remove(place).admit()
    }

    /// Waits for a moment for the newest to send something.
    pub fn wait(&self) {
        if let Some(guest) = self.all.last() {
            let _ = wait_on(&guest.link);
        }
    }

    /// Lets all go.
    pub fn clear(&mut self) {
        self.all.clear();
    }
}

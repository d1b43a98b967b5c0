use crate::links::wait_on;
use std::alloc::Global;
use std::io::{ErrorKind, Read};
use std::net::{Shutdown, TcpStream};

/// How many connections that were left are read on, at most; then the oldest is closed.
const MAX_LEAVERS: usize = 6;

/// For how long a connection that was left is read on, in ms: so long a slow one may take to send
/// what nobody waits for.
const LEAVING: u64 = 60_000;

/// For how long it may be silent, in ms: what its client had sent by then has come.
const LAST_SILENCE: u64 = 1_000;

/// How many pieces of 4 096 bytes are read at once.
const PIECES: u32 = 16;

/// A connection that was left, and whose client may still send.
#[derive(Drop)]
struct Leaver {
    link: TcpStream,
    since: u64,
    heard: u64,
    is_gone: bool,
}

impl Leaver {
    // Reads what has come, and passes it over.
    fn read_on(&mut self, now: u64) {
        let mut unread = [0; 4096];
        for _piece in 0..PIECES {
            match self.link.read(&mut unread) {
                Ok(count) if count > 0 => self.heard = now,
                Err(error) if error.kind() == ErrorKind::WouldBlock => break,
                _ => self.is_gone = true,
            }
        }
    }

    // Whether it is read on.
    fn may_stay(&self, now: u64) -> bool {
        let is_late = LEAVING <= now.saturating_sub(self.since);
        let is_silent = LAST_SILENCE <= now.saturating_sub(self.heard);
        !self.is_gone && !is_late && !is_silent
    }
}

/// The connections that a door has left, whose clients may still send. What they send is read and
/// passed over: the system cuts a link that is closed with bytes unread, and its client may then
/// lose its last response. Nobody waits for them meanwhile.
#[derive(Drop)]
pub(crate) struct Leavers(Vec<Leaver>);

impl Leavers {
    /// Nobody. It takes its room, or else as they come.
    pub fn new(alloc: Global) -> Self {
        Leavers(match Vec::with_capacity(alloc, MAX_LEAVERS) {
            Ok(all) => all,
            Err(_) => Vec::new(alloc),
        })
    }

    /// Whether nobody is leaving.
    pub fn is_empty(&self) -> bool {
        self.0.is_empty()
    }

    /// Leaves a connection at this moment: its client is told the end.
    pub fn leave(&mut self, link: TcpStream, now: u64) {
        if link.shutdown(Shutdown::Write).is_err() || link.set_nonblocking(true).is_err() {
            return;
        }
        if self.0.len() >= MAX_LEAVERS {
            self.0.remove(0);
        }
        let _ = self.0.push(Leaver {
            link,
            since: now,
            heard: now,
            is_gone: false,
        });
    }

    /// Reads on, until they close their links, or are silent for a second; a minute at most.
    pub fn read_on(&mut self, now: u64) {
        for leaver in self.0.iter_mut() {
            leaver.read_on(now);
        }
        self.0.retain(|leaver| leaver.may_stay(now));
    }

    /// Waits for a moment for the one that left last.
    pub fn wait(&self) {
        if let Some(leaver) = self.0.last() {
            let _ = wait_on(&leaver.link);
        }
    }
}

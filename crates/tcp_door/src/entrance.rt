ghost use Rattle.std.specs.Prelude.{◌≡◌, ◌<◌, ◌≤◌, true, length, IfOk, IsNone};

use crate::accepting::{Accepted, accept_from};
use crate::guests::{Guests, MAX_GUESTS, Turn};
use crate::leavers::Leavers;
use crate::links::{LOOK, receive_from, send_to};
use crate::manners::{Manners, Patience};
use crate::moments::moment;
use disk_core::Failed;
use libc::net::{POLLIN, poll};
use libc::types::pollfd;
use std::alloc::Global;
use std::io;
use std::io::Eprint;
use std::net::{Ipv4Addr, Net, TcpListener, TcpStream};
use std::os::fd::AsRawFd;
use std::thread::sleep;
use std::time::{Clock, Duration};
use stop_file::{LOOK as STOP_LOOK, StopFile};

// For how long a door that is asked to end reads on those that were left, in ms.
const LAST_LEAVE: u64 = 200;

// No bytes.
const NOTHING: &[u8] = &[];

/// A connection that is served.
#[derive(Drop)]
pub(crate) struct Visit {
    link: TcpStream,
    /// What was read of it before it had its turn, and how many bytes of that were taken.
    heard: Vec<u8>,
    taken: usize,
    /// Whether it had its time to ask then, and hasn't.
    is_late: bool,
    /// Since when its client is waited for: since the first byte of its request, or else since it
    /// was admitted or answered.
    since: u64,
    /// Since when a response waits to be taken, of which it has taken a part.
    answering: Option<u64>,
    /// Whether it closed its link, or cut it.
    is_over: bool,
}

impl Visit {
    // A connection whose turn comes at this moment.
    fn begin(turn: Turn, now: u64) -> Visit {
        let Turn {
            link,
            heard,
            is_late,
        } = turn;
        Visit {
            link,
            heard,
            taken: 0,
            is_late,
            since: now,
            answering: None,
            is_over: false,
        }
    }

    // Takes the next of the bytes that were read before, and tells how many they are.
    fn take(&mut self, into: &mut [u8]) -> usize
        ensures bound { result ≤ length into.new }
    {
        let left = self.heard.get(self.taken..).unwrap_or(NOTHING);
        let count = left.len().min(into.len());
        into[..count].copy_from_slice(&left[..count]);
        self.taken = self.taken.saturating_add(count);
        count
    }
}

/// A port at which connections come, and those that don't have their turn yet or have had it.
pub(crate) struct Entrance<R: Clock + Eprint + Drop> {
    rt: R,
    listener: TcpListener,
    manners: Manners,
    guests: Guests,
    leavers: Leavers,
    /// Whether nobody could be accepted at the last try.
    is_stuck: bool,
    /// Whether that was told.
    is_told: bool,
    /// Since when somebody is seen to ask that the door end.
    ending: Option<u64>,
    /// When a client was answered last.
    answered: Option<u64>,
}

// By hand, so that letting one go is one call, where a derived drop is spelled at each exit.
impl<R: Clock + Eprint + Drop> Drop for Entrance<R> {
    fn drop(self) {
        let Self {
            rt: _,
            listener: _,
            manners: _,
            guests: _,
            leavers: _,
            is_stuck: _,
            is_told: _,
            ending: _,
            answered: _,
        } = self;
    }
}

/// Listens at a port of 127.0.0.1.
pub(crate) fn open_entrance<
    R: Clock + Eprint + Net<Listener = TcpListener, Stream = TcpStream> + Drop,
>(alloc: Global, rt: R, port: u16, manners: Manners) -> io::Result<Entrance<R>> {
    let listener = TcpListener::bind(&rt, (Ipv4Addr::LOCALHOST, port))?;
    listener.set_nonblocking(true)?;
    Ok(Entrance {
        rt,
        listener,
        manners,
        guests: Guests::new(alloc),
        leavers: Leavers::new(alloc),
        is_stuck: false,
        is_told: false,
        ending: None,
        answered: None,
    })
}

impl<R: Clock + Eprint + Drop> Entrance<R> {
    /// The port, where the system tells it.
    pub fn port(&self) -> Option<u16> {
        let address = self.listener.local_addr().ok()?;
        Some(address.port())
    }

    // Tells once why nobody can be accepted.
    fn tell(&mut self, error: &io::Error) {
        if !self.is_told {
            self.is_told = true;
            let port = self.port().unwrap_or(0);
            let _ = eprintln!(self.rt;
                "hall: port {port} waits, it can't take a connection: {error}"
            );
        }
    }

    // Does what is to be done with who came, or didn't. Says whether another may be there.
    fn take_in(&mut self, accepted: Accepted, now: u64) -> bool {
        self.is_stuck = false;
        match accepted {
            Accepted::Link(link) => self.guests.seat(link, now),
            Accepted::Nobody => return false,
            Accepted::Passed => {}
            Accepted::Later(error) => {
                self.is_stuck = true;
                self.tell(&error);
                return false;
            }
        }
        true
    }

    // Accepts who waits at the port, as far as there is room.
    fn accept_all(&mut self, now: u64) -> Result<(), Failed> {
        for _guest in 0..MAX_GUESTS {
            if !self.guests.has_room() {
                break;
            }
            let accepted = accept_from(&self.listener)?;
            if !self.take_in(accepted, now) {
                break;
            }
        }
        Ok(())
    }

    // Looks at who is there: accepts, lets go, reads on.
    fn look(&mut self) -> Result<(), Failed> {
        let now = moment(&self.rt)?;
        self.accept_all(now)?;
        let is_full = self.is_stuck || !self.guests.has_room();
        self.guests.look(&self.manners, now, is_full);
        self.leavers.read_on(now);
        Ok(())
    }

    // Whether somebody asks that the door end.
    fn is_asked_to_end(&mut self, stop: &StopFile, now: u64) -> bool
        ensures { result ≡ true → stop.now ≡ true }
    {
        let is_asked = stop.is_there();
        if is_asked && self.ending.is_none() {
            self.ending = Some(now);
        }
        is_asked
    }

    // Whether the time is over, in a door that is asked to end, in which clients may ask.
    fn is_over(&self, now: u64) -> bool {
        match self.ending {
            Some(since) => self.manners.ends <= now.saturating_sub(since),
            None => false,
        }
    }

    // Whether who was answered last may still ask for that again.
    fn lingers(&self, now: u64) -> bool {
        match self.answered {
            Some(answered) => now.saturating_sub(answered) < self.manners.lingers,
            None => false,
        }
    }

    // Waits for a moment for somebody to do something; where nobody is there, until somebody comes.
    fn wait(&mut self, stop: &StopFile) -> Result<(), Failed> {
        if self.is_stuck {
            sleep(&self.rt, Duration::from_millis(LOOK));
        } else if !self.guests.is_empty() {
            self.guests.wait();
        } else if !self.leavers.is_empty() {
            self.leavers.wait();
        } else if stop.may_come() {
            self.await_moment();
        } else {
            self.await_one()?;
        }
        Ok(())
    }

    // Waits for a moment until a connection comes.
    fn await_moment(&self) {
        let comes = pollfd {
            fd: self.listener.as_raw_fd(),
            events: POLLIN,
            revents: 0,
        };
        let _ = poll(&mut [comes], STOP_LOOK);
    }

    // Waits until a connection comes.
    fn await_one(&mut self) -> Result<(), Failed> {
        if self.listener.set_nonblocking(false).is_err() {
            return Err(Failed);
        }
        let accepted = accept_from(&self.listener);
        if self.listener.set_nonblocking(true).is_err() {
            return Err(Failed);
        }
        let accepted = accepted?;
        let now = moment(&self.rt)?;
        self.take_in(accepted, now);
        Ok(())
    }

    // The next connection of those there that has asked, where the time to ask isn't over.
    fn next(&mut self, now: u64) -> Option<Turn> {
        if self.is_over(now) {
            return None;
        }
        self.guests.next()
    }

    /// Waits for the next connection: the first of those there that has asked. None where somebody
    /// asks that the door end, and nobody else has asked.
    pub fn admit(&mut self, stop: &StopFile) -> Result<Option<Visit>, Failed>
        ensures { IfOk result (λ visit. IsNone visit → stop.now ≡ true) }
    {
        for _turn in 0..u64::MAX {
            self.look()?;
            let now = moment(&self.rt)?;
            if let Some(turn) = self.next(now) {
                return Ok(Some(Visit::begin(turn, now)));
            }
            if self.is_asked_to_end(stop, now) && !self.lingers(now) {
                return Ok(None);
            }
            self.wait(stop)?;
        }
        Err(Failed)
    }

    /// Leaves a connection. What its client still sends is read on, unless it has ended it.
    pub fn leave(&mut self, visit: Visit) {
        if visit.is_over {
            return;
        }
        if let Ok(now) = moment(&self.rt) {
            self.leavers.leave(visit.link, now);
        }
    }

    /// Lets all go: nobody is served any more. Those that were left are read on for as long as ever,
    /// or for a moment where somebody asks that the door end.
    pub fn close(&mut self) {
        self.guests.clear();
        let Ok(began) = moment(&self.rt) else { return };
        for _turn in 0..u64::MAX {
            let Ok(now) = moment(&self.rt) else { return };
            self.leavers.read_on(now);
            let is_over = self.ending.is_some() && LAST_LEAVE <= now.saturating_sub(began);
            if is_over || self.leavers.is_empty() {
                return;
            }
            self.leavers.wait();
        }
    }

    // Whether a client that has sent nothing for so long is waited for on; else it has ended, where
    // its link isn't lost.
    fn waits(&mut self, in_request: bool, waited: u64) -> Result<bool, Failed> {
        let another_asks = !in_request
            && self.manners.yields <= waited
            && self.look().is_ok()
            && self.guests.ask();
        match self.manners.patience(in_request, waited, another_asks) {
            Patience::Waits => Ok(true),
            Patience::Ended => Ok(false),
            Patience::Lost => Err(Failed),
        }
    }

    // Takes so many bytes of a client that came at this moment. A request that they don't make whole
    // in time is lost.
    fn hear(
        &self,
        visit: &mut Visit,
        in_request: bool,
        now: u64,
        count: usize,
    ) -> Result<usize, Failed>
        ensures { IfOk result (λ heard. heard ≡ count) }
    {
        if !in_request {
            visit.since = now;
        } else if self.manners.request <= now.saturating_sub(visit.since) {
            return Err(Failed);
        }
        visit.is_over = count == 0;
        Ok(count)
    }

    // Whether a client that has sent nothing for so long is left since somebody asks that the door
    // end.
    fn is_left(&mut self, stop: &StopFile, in_request: bool, now: u64, waited: u64) -> bool {
        if !self.is_asked_to_end(stop, now) {
            return false;
        }
        if in_request {
            self.is_over(now)
        } else {
            self.manners.lingers <= waited
        }
    }

    // Whether a client may ask no more: the time for that is over.
    fn may_not_ask(&mut self, stop: &StopFile, in_request: bool) -> Result<bool, Failed> {
        if in_request || !stop.may_come() {
            return Ok(false);
        }
        let now = moment(&self.rt)?;
        Ok(self.is_asked_to_end(stop, now) && self.is_over(now))
    }

    /// Reads the next bytes of a client, and tells how many they are; none at its end, which comes
    /// also where it is silent for too long between requests, and where somebody asks that the door
    /// end. It fails where the link is lost, and where a request takes too long.
    pub fn receive(
        &mut self,
        visit: &mut Visit,
        stop: &StopFile,
        in_request: bool,
        into: &mut [u8],
    ) -> Result<usize, Failed>
        ensures bound { IfOk result (λ count. count ≤ length into.new) }
    {
        if visit.is_late {
            return Err(Failed);
        }
        let early = visit.take(into);
        if early > 0 {
            return self.hear(visit, in_request, moment(&self.rt)?, early);
        }
        if self.may_not_ask(stop, in_request)? {
            return Ok(0);
        }
        for _turn in 0..u64::MAX {
            let tried = receive_from(&mut &visit.link, in_request, into)?;
            let now = moment(&self.rt)?;
            self.leavers.read_on(now);
            let waited = now.saturating_sub(visit.since);
            match tried {
                Some(count) => return self.hear(visit, in_request, now, count),
                None if self.is_left(stop, in_request, now, waited) => return Ok(0),
                None if self.waits(in_request, waited)? => {}
                None => return Ok(0),
            }
        }
        Err(Failed)
    }

    /// Writes the beginning of a response, at least a byte. It fails where the link is lost, and where
    /// the client doesn't take the response for too long.
    pub fn send(&mut self, visit: &mut Visit, bytes: &[u8]) -> Result<usize, Failed>
        ensures bound { IfOk result (λ count. count ≤ length bytes.now) }
        ensures some { IfOk result (λ count. 0 < length bytes.now → 0 < count) }
    {
        for _turn in 0..u64::MAX {
            let now = moment(&self.rt)?;
            let since = visit.answering.unwrap_or(now);
            visit.answering = Some(since);
            if self.manners.response <= now.saturating_sub(since) {
                break;
            }
            if let Some(count) = send_to(&visit.link, bytes)? {
                visit.since = now;
                self.answered = Some(now);
                if count == bytes.len() {
                    visit.answering = None;
                }
                return Ok(count);
            }
        }
        Err(Failed)
    }
}

use crate::admission::admit;
use crate::entrance::{Entrance, Visit, open_entrance};
use crate::manners::Manners;
use device_facts::counted_once_more;
use disk_core::{Door, Failed, Sink, Source};
use std::alloc::Global;
use std::io;
use std::io::Eprint;
use std::marker::Model;
use std::net::{Net, TcpListener, TcpStream};
use std::time::Clock;
use stop_file::StopFile;

/// A door over TCP, which listens on 127.0.0.1. It tells no bytes, only its faults: what the
/// system's calls do is trusted. A door that doesn't listen fails at each call.
///
/// A connection has its turn once it has asked, as its manners say, or sends no more, in the order of
/// coming among those; one that is closed before its first byte is none. The manners also say for how
/// long a client is waited for. Between requests one that is silent for too long has ended its
/// connection. From the first byte read since the last write on it is within a request: where that
/// takes too long, or the response isn't taken, the call fails.
///
/// Where somebody asks that it end, it takes what clients have asked by then, for as long as its
/// manners say; then there is no next connection.
pub struct TcpDoor<R: Clock + Eprint + Drop> {
    entrance: io::Result<Entrance<R>>,
    asked_port: u16,
    stop: StopFile,
    has_stopped: bool,
    visit: Option<Visit>,
    awaited: u32,
    in_request: bool,
    ended: bool,
    faults: u64,
    missed: u64,
}

// By hand, so that letting one go is one call, where a derived drop is spelled at each exit.
impl<R: Clock + Eprint + Drop> Drop for TcpDoor<R> {
    fn drop(self) {
        let Self {
            entrance: _,
            asked_port: _,
            stop: _,
            has_stopped: _,
            visit: _,
            awaited: _,
            in_request: _,
            ended: _,
            faults: _,
            missed: _,
        } = self;
    }
}

impl<R: Clock + Eprint + Drop> Model for TcpDoor<R> {
    ghost use Rattle.std.specs.Prelude.{is_ok, is_some};
    ghost use Rattle.tcp_door.specs.OpenDoors.{OpenDoor};

    ghost Value = { OpenDoor };

    ghost view = { λ d. record {
      listens = is_ok d.entrance;
      asked_port = d.asked_port;
      may_stop = d.stop;
      has_stopped = d.has_stopped;
      awaited = d.awaited;
      is_present = is_some d.visit;
      in_request = d.in_request;
      ended = d.ended;
      faults = d.faults;
      missed = d.missed;
    } };
}

impl<R: Clock + Eprint + Net<Listener = TcpListener, Stream = TcpStream> + Drop> TcpDoor<R> {
    ghost use Rattle.std.specs.Prelude.{◌≡◌, false};
    ghost use Rattle.tcp_door.specs.OpenDoors.{OpenDoor};

    /// Listens at this port for so many connections, which are served one after another, with these
    /// manners, until the file is there by which somebody asks that it end. At port 0 the system picks
    /// a port. Where the port can't be had the door doesn't listen. It takes room for those who wait,
    /// and where there is none takes it as they come.
    pub fn listen(
        alloc: Global,
        rt: R,
        port: u16,
        connections: u32,
        manners: Manners,
        stop: StopFile,
    ) -> Self
        ensures { result ≡ record {
          listens = result.listens;
          asked_port = port;
          may_stop = stop;
          has_stopped = false;
          awaited = connections;
          is_present = false;
          in_request = false;
          ended = false;
          faults = 0;
          missed = 0;
        } }
    {
        TcpDoor {
            entrance: open_entrance(alloc, rt, port, manners),
            asked_port: port,
            stop,
            has_stopped: false,
            visit: None,
            awaited: connections,
            in_request: false,
            ended: false,
            faults: 0,
            missed: 0,
        }
    }
}

impl<R: Clock + Eprint + Drop> TcpDoor<R> {
    ghost use Rattle.std.specs.Prelude.{◌≡◌, ◌↔◌, ◌<◌, ◌≤◌, true, false, length, IsNone, IsErr, IfOk, Ok};

    /// Why the door doesn't listen; none where it does.
    pub fn listen_error(&self) -> Option<&io::Error>
        ensures { IsNone result ↔ (self.now.listens ≡ true) }
    {
        self.entrance.as_ref().err()
    }

    /// The port at which it listens, where it does and the system tells it.
    pub fn port(&self) -> Option<u16>
        ensures { self.now.listens ≡ false → IsNone result }
    {
        self.entrance.as_ref().ok()?.port()
    }

    /// Whether the end of the present connection was given.
    pub fn has_ended(&self) -> bool
        ensures { result ≡ self.now.ended }
    {
        self.ended
    }

    // Reads from the present connection; where none is present there is nothing to read.
    fn receive(&mut self, into: &mut [u8]) -> Result<usize, Failed>
        ensures closed { self.old.listens ≡ false → IsErr result }
        ensures absent { self.old.listens ≡ true → self.old.is_present ≡ false → result ≡ Ok 0 }
        ensures bound { IfOk result (λ count. count ≤ length into.new) }
        ensures kept { self.new ≡ self.old }
    {
        let Ok(entrance) = &mut self.entrance else {
            return Err(Failed);
        };
        let Some(visit) = &mut self.visit else {
            return Ok(0);
        };
        let count = entrance.receive(visit, &self.stop, self.in_request, into)?;
        Ok(count)
    }

    // Writes to the present connection; where none is present nothing can be written.
    fn send(&mut self, bytes: &[u8]) -> Result<usize, Failed>
        ensures closed { self.old.listens ≡ false → IsErr result }
        ensures absent { self.old.is_present ≡ false → 0 < length bytes.now → IsErr result }
        ensures bound { IfOk result (λ count. count ≤ length bytes.now) }
        ensures some { IfOk result (λ count. 0 < length bytes.now → 0 < count) }
        ensures kept { self.new ≡ self.old }
    {
        let Ok(entrance) = &mut self.entrance else {
            return Err(Failed);
        };
        let Some(visit) = &mut self.visit else {
            return if bytes.is_empty() { Ok(0) } else { Err(Failed) };
        };
        let count = entrance.send(visit, bytes)?;
        Ok(count)
    }
}

impl<R: Clock + Eprint + Drop> Source for TcpDoor<R> {
    ghost use Rattle.std.specs.Prelude.{◌≡◌, ◌≤◌, ◌||◌, true, false, length, None, IfOk, IsErr, Ok, refl};
    ghost use Rattle.std.proofs.Common.{◌∙◌};
    ghost use Rattle.device_facts.specs.Count.{CountsFault};
    ghost use Rattle.disk_core.specs.Streams.{gave_end};
    ghost use Rattle.tcp_door.specs.OpenDoors.{moved_some};

    ghost left = { λ d. None };

    ghost ended = { λ d. d.ended };

    ghost faults = { λ d. d.faults };

    ghost keeps_rest = { λ old new. new.missed ≡ old.missed };

    ghost frame = { record { none = λ d. refl; both = λ a b c first second. second ∙ first } };

    fn read(&mut self, into: &mut [u8]) -> Result<usize, Failed>
        requires { self.old.ended ≡ false }
        ensures closed { self.old.listens ≡ false → IsErr result }
        ensures absent { self.old.listens ≡ true → self.old.is_present ≡ false → result ≡ Ok 0 }
        ensures bound { IfOk result (λ count. count ≤ length into.new) }
        ensures end { self.new.ended ≡ gave_end result into.new }
        ensures request { self.new.in_request ≡ (self.old.in_request || moved_some result) }
        ensures cause { CountsFault self.old.faults self.new.faults result }
        ensures rest { self.new.missed ≡ self.old.missed }
        ensures kept { (self.new.listens ≡ self.old.listens)
            × (self.new.asked_port ≡ self.old.asked_port)
            × (self.new.awaited ≡ self.old.awaited)
            × (self.new.is_present ≡ self.old.is_present)
            × (self.new.may_stop ≡ self.old.may_stop)
            × (self.new.has_stopped ≡ self.old.has_stopped) }
    {
        let count = self.receive(into);
        match count {
            Ok(count) => {
                self.in_request = self.in_request || count > 0;
                self.ended = count == 0 && !into.is_empty();
            }
            Err(Failed) => self.faults = counted_once_more(self.faults),
        }
        count
    }
}

impl<R: Clock + Eprint + Drop> Sink for TcpDoor<R> {
    ghost use Rattle.std.specs.Prelude.{◌≡◌, ◌<◌, ◌≤◌, ◌&&◌, not, false, length, None, IfOk, IsErr, refl};
    ghost use Rattle.std.proofs.Common.{◌∙◌};
    ghost use Rattle.device_facts.specs.Count.{CountsFault};
    ghost use Rattle.tcp_door.specs.OpenDoors.{moved_some};

    ghost held = { λ d. None };

    ghost faults = { λ d. d.faults };

    ghost keeps_rest = { λ old new. (new.ended ≡ old.ended) × (new.missed ≡ old.missed) };

    ghost frame = { record {
      none = λ d. (refl, refl);
      both = λ a b c first second. (second.0 ∙ first.0, second.1 ∙ first.1);
    } };

    fn write(&mut self, bytes: &[u8]) -> Result<usize, Failed>
        ensures closed { self.old.listens ≡ false → IsErr result }
        ensures absent { self.old.is_present ≡ false → 0 < length bytes.now → IsErr result }
        ensures bound { IfOk result (λ count. count ≤ length bytes.now) }
        ensures some { IfOk result (λ count. 0 < length bytes.now → 0 < count) }
        ensures rest { (self.new.ended ≡ self.old.ended) × (self.new.missed ≡ self.old.missed) }
        ensures request { self.new.in_request ≡ (self.old.in_request && not (moved_some result)) }
        ensures cause { CountsFault self.old.faults self.new.faults result }
        ensures kept { (self.new.listens ≡ self.old.listens)
            × (self.new.asked_port ≡ self.old.asked_port)
            × (self.new.awaited ≡ self.old.awaited)
            × (self.new.is_present ≡ self.old.is_present)
            × (self.new.may_stop ≡ self.old.may_stop)
            × (self.new.has_stopped ≡ self.old.has_stopped) }
    {
        let count = self.send(bytes);
        match count {
            Ok(count) => self.in_request = self.in_request && count == 0,
            Err(Failed) => self.faults = counted_once_more(self.faults),
        }
        count
    }
}

impl<R: Clock + Eprint + Drop> Door for TcpDoor<R> {
    ghost use Rattle.std.specs.Prelude.{◌≡◌, ◌+◌, ◌<◌, ◌↔◌, true, false, None, IfOk, IsOk, IsErr, IsTrue, OnOk, OnErr, refl};
    ghost use Rattle.device_facts.specs.Count.{CountsFault};
    ghost use Rattle.tcp_door.specs.OpenDoors.{one_if};

    ghost connections = { λ d. None };

    ghost missed = { λ d. d.missed };

    ghost source_left = { λ d. refl };

    ghost sink_held = { λ d. refl };

    ghost one_count = { λ d. refl };

    ghost read_adds = { λ old new bytes same parts. refl };

    ghost write_adds = { λ old new bytes same grown. refl };

    ghost write_leaves_end = { λ old new same. same.0 };

    ghost read_misses_none = { λ old new same. same };

    ghost write_misses_none = { λ old new same. same.1 };

    fn next(&mut self) -> Result<bool, Failed>
        ensures closed { self.old.listens ≡ false → IsErr result }
        ensures ends { self.old.listens ≡ true → self.old.awaited ≡ 0 → IsOk result }
        ensures awaited { IfOk result (λ found. IsTrue found
            ↔ ((0 < self.old.awaited) × (self.new.has_stopped ≡ false))) }
        ensures stops { self.old.may_stop ≡ false
            → self.new.has_stopped ≡ self.old.has_stopped }
        ensures may_stop { self.new.may_stop ≡ self.old.may_stop }
        ensures counted { IfOk result (λ found.
            self.new.awaited + one_if found ≡ self.old.awaited) }
        ensures present { IfOk result (λ found. self.new.is_present ≡ found) }
        ensures begins { OnOk result (self.new.ended ≡ false) }
        ensures whole { OnOk result (self.new.in_request ≡ false) }
        ensures stays { OnErr result (self.new.ended ≡ self.old.ended) }
        ensures listens { self.new.listens ≡ self.old.listens }
        ensures asked_port { self.new.asked_port ≡ self.old.asked_port }
        ensures cause { CountsFault self.old.faults self.new.faults result }
        ensures missed { CountsFault self.old.missed self.new.missed result }
    {
        let visit = self.visit.take();
        let Ok(visit) = admit(
            &mut self.entrance,
            &self.stop,
            visit,
            self.awaited,
            &mut self.has_stopped,
        ) else {
            self.faults = counted_once_more(self.faults);
            self.missed = counted_once_more(self.missed);
            return Err(Failed);
        };
        let found = visit.is_some();
        self.awaited -= u32::from(found);
        self.visit = visit;
        self.in_request = false;
        self.ended = false;
        Ok(found)
    }
}

//! A door and its clients, step by step.
use disk_core::{Door, Failed, Sink, Source, write_all};
use std::io::{Read, Write};
use std::net::{Ipv4Addr, Shutdown, TcpStream};
use std::test::Fail;
use std::thread::sleep;
use std::time::{Duration, Instant};
use stop_file::StopFile;
use tcp_door::{Manners, TcpDoor};

/// What is done, and what has to come of it. Clients count from 0, in the order of connecting.
#[derive(Clone, Copy)]
pub enum Step {
    /// One client more connects.
    Connect,
    /// A client sends these bytes.
    Send(usize, &'static [u8]),
    /// A client says that it sends no more.
    Finish(usize),
    /// A client hears these bytes: dots stand behind what comes.
    Hear(usize, &'static [u8; 4]),
    /// The door goes to its next connection, if there is one.
    Next(bool),
    /// The door reads these bytes: dots stand behind what comes.
    Read(&'static [u8; 4]),
    /// The door reads, and its connection is lost.
    Lose,
    /// The door writes these bytes.
    Write(&'static [u8]),
    /// The door's connection has ended, or not.
    Ended(bool),
    /// So many milliseconds pass.
    Pass(u64),
    /// The step before this took so many milliseconds, or more, but less than so many.
    Took(u64, u64),
}

/// A door and its clients.
#[derive(Drop)]
pub struct Play {
    rt: HostRuntime,
    door: TcpDoor<HostRuntime>,
    clients: Vec<TcpStream>,
    took: Duration,
}

impl Play {
    fn connect(&mut self) -> Result<bool, Fail> {
        let port = self.door.port().unwrap_or(0);
        let client = TcpStream::connect(&self.rt, (Ipv4Addr::LOCALHOST, port))?;
        Ok(self.clients.push(client).is_ok())
    }

    fn send(&mut self, client: usize, bytes: &[u8]) -> Result<bool, Fail> {
        let Some(client) = self.clients.get_mut(client) else {
            return Ok(false);
        };
        client.write_all(bytes)?;
        Ok(true)
    }

    fn finish(&mut self, client: usize) -> Result<bool, Fail> {
        let Some(client) = self.clients.get_mut(client) else {
            return Ok(false);
        };
        client.shutdown(Shutdown::Write)?;
        Ok(true)
    }

    fn hear(&mut self, client: usize, bytes: &[u8; 4]) -> Result<bool, Fail> {
        let Some(client) = self.clients.get_mut(client) else {
            return Ok(false);
        };
        let mut into = *b"....";
        let _ = client.read(&mut into)?;
        Ok(into == *bytes)
    }

    // What the door reads, but not past the end.
    fn read(&mut self) -> Option<[u8; 4]> {
        let mut into = *b"....";
        if self.door.has_ended() || self.door.read(&mut into).is_err() {
            return None;
        }
        Some(into)
    }

    fn go(&mut self, step: &Step) -> Result<bool, Fail> {
        match step {
            Step::Connect => self.connect(),
            Step::Send(client, bytes) => self.send(*client, bytes),
            Step::Finish(client) => self.finish(*client),
            Step::Hear(client, bytes) => self.hear(*client, bytes),
            Step::Next(is_there) => Ok(self.door.next() == Ok(*is_there)),
            Step::Read(bytes) => Ok(self.read() == Some(**bytes)),
            Step::Lose => Ok(self.read().is_none()),
            Step::Write(bytes) => Ok(write_all(&mut self.door, bytes).is_ok()),
            Step::Ended(has_ended) => Ok(self.door.has_ended() == *has_ended),
            Step::Pass(time) => {
                sleep(&self.rt, Duration::from_millis(*time));
                Ok(true)
            }
            Step::Took(least, below) => Ok(
                self.took >= Duration::from_millis(*least)
                    && self.took < Duration::from_millis(*below),
            ),
        }
    }
}

/// The place of the first step that doesn't come out so, at a door with these manners to so many
/// connections.
pub fn first_wrong(
    rt: HostRuntime,
    manners: Manners,
    connections: u32,
    steps: &[Step],
) -> Result<Option<usize>, Fail> {
    let mut play = Play {
        rt,
        door: TcpDoor::listen(rt.alloc(), rt, 0, connections, manners, StopFile::none()),
        clients: Vec::new(rt.alloc()),
        took: Duration::ZERO,
    };
    for (place, step) in steps.iter().enumerate() {
        let began = Instant::now(&rt)?;
        if !play.go(step)? {
            return Ok(Some(place));
        }
        play.took = began.elapsed(&rt)?;
    }
    Ok(None)
}

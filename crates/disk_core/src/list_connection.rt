ghost use Rattle.std.specs.Prelude.{◌≡◌, ◌⊎◌, ◌+◌, ◌<◌, ◌≤◌, [], ◌++◌, length, map, take, option_map, option_to_list, vec_len, vec_capacity, vec_items, IsNone, OnOk, OnErr};
ghost use Rattle.disk_core.specs.Doors.{first_connection, behind_first, connection_left, connection_written};
ghost use Rattle.disk_core.specs.ListDoors.{said_on, room_of, unread, unwritten};

use crate::source::fill_front;
use crate::types::{Failed, NoMemory};
use std::alloc::Global;
use std::collections::VecDeque;
use std::marker::Model;

/// A connection of a door in memory.
#[derive(Drop)]
pub(crate) struct ListConnection {
    bytes: Vec<u8>,
    place: usize,
    written: Vec<u8>,
}

impl Model for ListConnection {
    ghost use Rattle.std.specs.Prelude.{◌≤◌, take, drop, vec_len, vec_capacity};
    ghost use Rattle.disk_core.specs.ListDoors.{ConnectionState};

    ghost Value = { ConnectionState };

    ghost view = { λ c. record {
      said = record {
        left = drop c.place c.bytes.items;
        taken = take c.place c.bytes.items;
        written = c.written.items;
      };
      room = vec_capacity c.written;
    } };

    ghost invariant = { λ c. c.place ≤ vec_len c.bytes };
}

impl ListConnection {
    ghost use Rattle.std.specs.Prelude.{◌≡◌, ◌+◌, ◌<◌, ◌≤◌, [], ◌++◌, length, take, OnOk, OnErr};
    ghost use Rattle.disk_core.specs.Doors.{new_connection};
    ghost use Rattle.disk_core.specs.ListDoors.{ConnectionState, unread, unwritten};

    /// A connection that will give these bytes.
    pub(crate) fn new(alloc: Global, bytes: Vec<u8>) -> Self
        ensures { result ≡ record { said = new_connection bytes.items; room = 0 } }
    {
        ListConnection {
            bytes,
            place: 0,
            written: Vec::new(alloc),
        }
    }

    /// The bytes taken from it.
    pub(crate) fn taken(&self) -> &[u8]
        ensures { result.now ≡ self.now.said.taken }
    {
        &self.bytes[..self.place]
    }

    /// The bytes written to it.
    pub(crate) fn written(&self) -> &[u8]
        ensures { result.now ≡ self.now.said.written }
    {
        &self.written
    }

    /// Gives its next bytes into the beginning of a buffer, and tells how many they are.
    pub(crate) fn give(&mut self, into: &mut [u8]) -> usize
        ensures bound { result ≤ length into.new }
        ensures given { self.old.said.left ≡ take result into.new ++ self.new.said.left }
        ensures end { result ≡ 0 → 0 < length into.new → self.new.said.left ≡ [] }
        ensures rest { unread self.new.said ≡ unread self.old.said }
    {
        let count = fill_front(into, &self.bytes[self.place..]);
        self.place += count;
        count
    }

    /// Takes these bytes behind those that were written to it.
    pub(crate) fn write(&mut self, bytes: &[u8]) -> Result<(), NoMemory>
        ensures ok { OnOk result (self.new.said.written ≡ self.old.said.written ++ bytes.now) }
        ensures err { OnErr result (self.new.said ≡ self.old.said) }
        ensures full { OnErr result
            (self.old.room < length self.old.said.written + length bytes.now) }
        ensures rest { unwritten self.new.said ≡ unwritten self.old.said }
    {
        self.written.extend_from_slice(bytes)?;
        Ok(())
    }
}

/// Gives the next bytes of a connection; where there is none it gives none.
pub(crate) fn give_connection(connection: &mut Option<ListConnection>, into: &mut [u8]) -> usize
    ensures bound { result ≤ length into.new }
    ensures given { connection_left (said_on connection.old)
        ≡ take result into.new ++ connection_left (said_on connection.new) }
    ensures end { result ≡ 0 → 0 < length into.new
        → connection_left (said_on connection.new) ≡ [] }
    ensures rest { option_map unread (said_on connection.new)
        ≡ option_map unread (said_on connection.old) }
{
    match connection {
        Some(connection) => connection.give(into),
        None => 0,
    }
}

/// Writes to a connection. It fails where there is none and the bytes aren't empty, and where there
/// is no memory.
pub(crate) fn write_connection(
    connection: &mut Option<ListConnection>,
    bytes: &[u8],
) -> Result<(), Failed>
    ensures ok { OnOk result (connection_written (said_on connection.new)
        ≡ connection_written (said_on connection.old) ++ bytes.now) }
    ensures err { OnErr result (said_on connection.new ≡ said_on connection.old) }
    ensures cause { OnErr result ((IsNone connection.old × (0 < length bytes.now))
        ⊎ (room_of connection.old
        < length (connection_written (said_on connection.old)) + length bytes.now)) }
    ensures rest { option_map unwritten (said_on connection.new)
        ≡ option_map unwritten (said_on connection.old) }
{
    match connection {
        Some(connection) => connection.write(bytes).or(Err(Failed)),
        None if bytes.is_empty() => Ok(()),
        None => Err(Failed),
    }
}

/// Puts a connection, if there is one, behind others, for which there is room.
pub(crate) fn put_behind(past: &mut Vec<ListConnection>, connection: Option<ListConnection>)
    requires room { vec_len past.old < vec_capacity past.old }
    ensures { past.new.items ≡ past.old.items ++ option_to_list connection }
{
    if let Some(connection) = connection {
        past.push_reserved(connection);
    }
}

/// Begins the first connection of those that wait, if one waits.
pub(crate) fn begin_first(alloc: Global, waiting: &mut VecDeque<Vec<u8>>) -> Option<ListConnection>
    ensures first { said_on result ≡ first_connection (map vec_items waiting.old.items) }
    ensures rest { map vec_items waiting.new.items
        ≡ behind_first (map vec_items waiting.old.items) }
{
    let bytes = waiting.pop_front()?;
    Some(ListConnection::new(alloc, bytes))
}

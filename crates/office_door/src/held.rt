use disk_core::{Door, Failed};
use office_wire::{Frame, REQUEST_ROOM, Routes, frame_with_routes};
use std::alloc::{AllocError, Global};
use std::marker::Model;

/// The bytes of a connection that were read and that no request was made of yet, and whether its
/// end was given. Their room is taken once.
#[derive(Drop)]
pub(crate) struct Held {
    buffer: Vec<u8>,
    count: usize,
    ended: bool,
}

impl Model for Held {
    ghost use Rattle.std.specs.Prelude.{◌≡◌, ◌≤◌, length, take};
    ghost use Rattle.office_wire.specs.declared.limits.TheConstants.{REQUEST_ROOM};
    ghost use Rattle.office_door.specs.Steps.{HeldView};

    ghost Value = { HeldView };

    ghost view = { λ h. record { bytes = take h.count h.buffer.items; ended = h.ended } };

    ghost invariant = { λ h. (length h.buffer.items ≡ REQUEST_ROOM) × (h.count ≤ REQUEST_ROOM) };
}

impl Held {
    ghost use Rattle.std.specs.Prelude.{◌≡◌, ◌<◌, ◌≤◌, [], length, drop, false, IfOk, OnOk, OnErr};
    ghost use Rattle.device_facts.specs.Count.{CountsFault};
    ghost use Rattle.office_wire.specs.declared.limits.TheConstants.{REQUEST_ROOM};
    ghost use Rattle.office_wire.specs.Frames.{TellsFrame};
    ghost use Rattle.office_door.specs.Doors.{port};
    ghost use Rattle.office_door.specs.Steps.{HasRead};

    /// No bytes, of a connection whose end wasn't given.
    pub fn new(alloc: Global) -> Result<Held, AllocError>
        ensures { IfOk result (λ held. held ≡ record { bytes = []; ended = false }) }
    {
        Ok(Held {
            buffer: vec![in alloc; 0u8; REQUEST_ROOM]?,
            count: 0,
            ended: false,
        })
    }

    /// Begins a connection: what is held of the one before is gone.
    pub fn clear(&mut self)
        ensures { self.new ≡ record { bytes = []; ended = false } }
    {
        self.count = 0;
        self.ended = false;
    }

    /// What the bytes begin with.
    pub fn frame(&self, routes: &Routes, alloc: Global) -> Frame
        ensures { TellsFrame self.now.bytes self.now.ended result }
    {
        frame_with_routes(routes, alloc, &self.buffer[..self.count], self.ended)
    }

    /// Takes the first so many bytes away.
    pub fn take(&mut self, count: usize)
        requires { count ≤ length self.old.bytes }
        ensures { self.new ≡ record self.old { bytes = drop count self.old.bytes } }
    {
        self.buffer.copy_within(count..self.count, 0);
        self.count -= count;
    }

    /// Reads what the present connection of a door gives, behind the bytes that are held.
    pub fn read_from<O: Door>(&mut self, door: &mut O) -> Result<(), Failed>
        requires unended { O.ended door.old ≡ false }
        requires known { self.old.ended ≡ false }
        requires room { length self.old.bytes < REQUEST_ROOM }
        ensures reads { HasRead (port O.Source O.Door.own door.old)
            (port O.Source O.Door.own door.new) self.old self.new }
        ensures grows { OnOk result (self.new.ended ≡ false
            → length self.old.bytes < length self.new.bytes) }
        ensures unended { OnErr result (self.new ≡ self.old) }
        ensures cause { CountsFault (O.Source.faults door.old) (O.Source.faults door.new) result }
        ensures missed { O.missed door.new ≡ O.missed door.old }
    {
        let count = door.read(&mut self.buffer[self.count..])?;
        self.count += count;
        self.ended = count == 0;
        Ok(())
    }
}

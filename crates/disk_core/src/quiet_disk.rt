use crate::disk::Disk;
use crate::disk_types::DISK_END;
use crate::overwrite::overwrite;
use crate::source::fill_front;
use crate::types::Failed;
use device_facts::counted_once_more;
use std::marker::Model;

/// A disk over a buffer whose capacity is all the room that there is. It takes no memory and keeps
/// no record of its calls: as a disk it tells no bytes, images or moments, and its asked bytes stay
/// 0. It fails exactly at a write that ends past the capacity.
#[derive(Drop)]
pub struct QuietDisk {
    bytes: Vec<u8>,
    capacity: usize,
    faults: u64,
}

impl Model for QuietDisk {
    ghost use Rattle.std.specs.Prelude.{◌≤◌, vec_capacity, vec_len};
    ghost use Rattle.disk_core.specs.QuietDisk.{Room};

    ghost Value = { Room };

    ghost view = { λ d. record {
      bytes = d.bytes.items;
      capacity = d.capacity;
      faults = d.faults;
    } };

    ghost invariant = { λ d. (vec_len d.bytes ≤ d.capacity) × (d.capacity ≤ vec_capacity d.bytes) };
}

impl QuietDisk {
    ghost use Rattle.std.specs.Prelude.{◌≡◌, vec_capacity};
    ghost use Rattle.disk_core.specs.QuietDisk.{Room};

    /// A disk that reads what the vector holds; the vector's capacity is all its room.
    pub fn new(room: Vec<u8>) -> Self
        ensures { result ≡ record { bytes = room.items; capacity = vec_capacity room; faults = 0 } }
    {
        QuietDisk {
            capacity: room.capacity(),
            bytes: room,
            faults: 0,
        }
    }

    /// The bytes as they are read.
    pub fn bytes(&self) -> &[u8]
        ensures { result.now ≡ self.now.bytes }
    {
        &self.bytes
    }
}

impl Disk for QuietDisk {
    ghost use Rattle.std.specs.Prelude.{◌≡◌, ◌↔◌, ◌+◌, ◌-◌, ◌<◌, ◌≤◌, min, length, take, drop, IsOk, IsErr, IfOk, OnOk};
    ghost use Rattle.device_facts.specs.Count.{CountsFault};
    ghost use Rattle.device_facts.specs.Known.{TellsAsBefore};
    ghost use Rattle.disk_core.specs.Disk.{WhereTold, Writes, Elapses, overwritten};
    ghost use Rattle.disk_core.specs.QuietDisk.{never_asked};
    ghost use Rattle.disk_core.specs.Untold.{untold, NoImage, NoMoment, told_nothing};

    ghost reads = { λ d. untold };

    ghost image = { λ d. NoImage };

    ghost time = { λ d. 0 };

    ghost since = { λ d. NoMoment };

    ghost faults = { λ d. d.faults };

    ghost asked = { never_asked };

    ghost reads_image = { λ d bytes told. told_nothing bytes told };

    ghost counts_now = { λ d t c le is. is };

    ghost only_now = { λ d c is. is };

    fn len(&mut self) -> Result<u64, Failed>
        ensures never_fails { IsOk result }
        ensures length { IfOk result (λ count. count ≡ length self.old.bytes) }
        ensures same { self.new ≡ self.old }
    {
        Ok(self.bytes.len() as u64)
    }

    fn read_at(&mut self, place: u64, into: &mut [u8]) -> Result<usize, Failed>
        ensures never_fails { IsOk result }
        ensures count { IfOk result (λ count.
            count ≡ min (length into.new) (length self.old.bytes - place)) }
        ensures bytes { IfOk result (λ count.
            take count into.new ≡ take count (drop place self.old.bytes)) }
        ensures same { self.new ≡ self.old }
    {
        let start = (place as usize).min(self.bytes.len());
        Ok(fill_front(into, &self.bytes[start..]))
    }

    fn write_at(&mut self, place: u64, bytes: &[u8]) -> Result<(), Failed>
        requires { place + length bytes.now < DISK_END }
        ensures full { IsErr result ↔ (self.old.capacity < place + length bytes.now) }
        ensures written { OnOk result
            (self.new.bytes ≡ overwritten self.old.bytes place bytes.now) }
        ensures kept { IsErr result → self.new.bytes ≡ self.old.bytes }
        ensures capacity { self.new.capacity ≡ self.old.capacity }
        ensures cause { CountsFault self.old.faults self.new.faults result }
    {
        if place as usize + bytes.len() > self.capacity {
            self.faults = counted_once_more(self.faults);
            return Err(Failed);
        }
        overwrite(&mut self.bytes, place as usize, bytes).unwrap();
        Ok(())
    }

    fn sync(&mut self) -> Result<(), Failed>
        ensures never_fails { IsOk result }
        ensures same { self.new ≡ self.old }
    {
        Ok(())
    }
}

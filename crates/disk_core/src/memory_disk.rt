ghost use Rattle.std.specs.Prelude.{◌≡◌, [], ◌∷◌, OnOk, OnErr};
ghost use Rattle.disk_core.specs.Disk.{overwritten};
ghost use Rattle.disk_core.specs.DiskLog.{read_after, kept_after, content};

use crate::disk::Disk;
use crate::disk_call::DiskCall;
use crate::disk_types::{DISK_END, Keep};
use crate::overwrite::overwrite;
use crate::source::fill_front;
use crate::types::{Failed, NoMemory};
use device_facts::counted_once_more;
use std::alloc::Global;
use std::marker::Model;

/// A disk in memory, of which the calls with the numbers in a list fail, counted from 1. A growth
/// that memory refuses is a failed call too. It remembers its calls, and so knows what a crash
/// after each of them may leave. A write that fails has written its bytes nevertheless.
pub struct MemoryDisk {
    alloc: Global,
    first: Vec<u8>,
    // What it reads, once something was written; before that it is `first`.
    written: Option<Vec<u8>>,
    calls: Vec<DiskCall>,
    fails: Vec<u32>,
    faults: u64,
    asked: u64,
}

// By hand, so that letting one go is one call, where a derived drop is spelled at each exit.
impl Drop for MemoryDisk {
    fn drop(self) {
        let Self {
            alloc: _,
            first: _,
            written: _,
            calls: _,
            fails: _,
            faults: _,
            asked: _,
        } = self;
    }
}

impl Model for MemoryDisk {
    ghost use Rattle.std.specs.Prelude.{◌≡◌};
    ghost use Rattle.disk_core.specs.DiskLog.{DiskLog, read_after, content};

    ghost Value = { DiskLog };

    ghost view = { λ d. record {
      first = d.first.items;
      calls = d.calls.items;
      fails = d.fails.items;
      faults = d.faults;
      asked = d.asked;
    } };

    ghost invariant = { λ d.
        content d.first.items d.written ≡ read_after d.calls.items d.first.items };
}

impl MemoryDisk {
    ghost use Rattle.std.specs.Prelude.{◌≡◌, ◌≤◌, [], length, take, IfOk};
    ghost use Rattle.disk_core.specs.DiskLog.{DiskLog, stored, IsImage, kept_after};

    /// A disk of these bytes, all of them stable; its calls with these numbers will fail, and none
    /// has failed yet.
    pub fn new(alloc: Global, bytes: Vec<u8>, fails: Vec<u32>) -> Self
        ensures { result ≡ record {
          first = bytes.items;
          calls = [];
          fails = fails.items;
          faults = 0;
          asked = 0;
        } }
    {
        MemoryDisk {
            alloc,
            first: bytes,
            written: None,
            calls: Vec::new(alloc),
            fails,
            faults: 0,
            asked: 0,
        }
    }

    /// The bytes as they are read.
    pub fn bytes(&self) -> &[u8]
        ensures { result.now ≡ stored self.now }
    {
        match &self.written {
            Some(bytes) => bytes,
            None => &self.first,
        }
    }

    /// How many calls were made.
    pub fn calls_made(&self) -> usize
        ensures { result ≡ length self.now.calls }
    {
        self.calls.len()
    }

    /// For how many bytes it was asked, by the lengths of the buffers.
    pub fn asked_bytes(&self) -> u64
        ensures { result ≡ self.now.asked }
    {
        self.asked
    }

    /// What a crash leaves after so many of the calls made: one of the disk's images then.
    pub fn crash(&self, after: u32, keep: Keep) -> Result<Vec<u8>, NoMemory>
        requires { after ≤ length self.now.calls }
        ensures kept { IfOk result (λ bytes.
            bytes.items
            ≡ kept_after keep (take after self.now.calls) self.now.first self.now.first) }
        ensures image { IfOk result (λ bytes.
            IsImage self.now.first (take after self.now.calls) bytes.items) }
    {
        let mut now = self.first.to_vec(self.alloc)?;
        let mut image = self.first.to_vec(self.alloc)?;
        for call in &self.calls[..after as usize] {
            play(self.alloc, call, keep, &mut now, &mut image)?;
        }
        Ok(image)
    }
}

// Writes bytes over what was written, or over what was there at first where nothing was.
fn overwrite_file(
    alloc: Global,
    first: &[u8],
    written: &mut Option<Vec<u8>>,
    place: usize,
    bytes: &[u8],
) -> Result<(), NoMemory>
    ensures ok { OnOk result
        (content first.now written.new
        ≡ overwritten (content first.now written.old) place bytes.now) }
    ensures err { OnErr result (content first.now written.new ≡ content first.now written.old) }
{
    match written {
        Some(there) => overwrite(there, place, bytes)?,
        None => {
            let mut there = first.to_vec(alloc)?;
            overwrite(&mut there, place, bytes)?;
            *written = Some(there);
        }
    }
    Ok(())
}

// Plays a call on what is read and on what a crash leaves.
fn play(
    alloc: Global,
    call: &DiskCall,
    keep: Keep,
    now: &mut Vec<u8>,
    image: &mut Vec<u8>,
) -> Result<(), NoMemory>
    ensures now { OnOk result (now.new.items ≡ read_after (call.now ∷ []) now.old.items) }
    ensures image { OnOk result
        (image.new.items ≡ kept_after keep (call.now ∷ []) now.old.items image.old.items) }
{
    match call {
        DiskCall::Looked => {}
        DiskCall::Wrote { place, bytes } => {
            overwrite(now, *place as usize, bytes)?;
            match keep {
                Keep::Earlier => {}
                Keep::Written => overwrite(image, *place as usize, bytes)?,
                Keep::Fill(byte) => {
                    let filled = vec![in alloc; byte; bytes.len()]?;
                    overwrite(image, *place as usize, &filled)?;
                }
            }
        }
        DiskCall::Synced => *image = now.to_vec(alloc)?,
    }
    Ok(())
}

impl MemoryDisk {
    ghost use Rattle.std.specs.Prelude.{◌≡◌, ◌⊎◌, ◌+◌, ◌≤◌, ℕ, List, OnOk, OnErr, length, [], ◌∷◌, ◌++◌, Vec};
    ghost use Rattle.std.specs.declared.alloc.Global.{Global};
    ghost use Rattle.device_facts.specs.Count.{Counted, CountsFault, counted};
    ghost use Rattle.disk_core.specs.declared.disk_call.DiskCall.TheVariants.{Looked, Wrote};
    ghost use Rattle.disk_core.specs.Disk.{AddsNoImage};
    ghost use Rattle.disk_core.specs.DiskLog.{read_after, stored, IsImage, GoesOn, fails_next, faulted, Makes};
    ghost use Rattle.disk_core.specs.Streams.{next_call};

    // Tells whether the next call is to fail.
    fn is_listed(&self) -> bool
        ensures { result ≡ fails_next self.now }
    {
        let number = self.number_of_next();
        self.fails.contains(&number)
    }

    fn number_of_next(&self) -> u32
        ensures { result ≡ next_call (length self.now.calls) }
    {
        (self.calls.len() + 1).min(u32::MAX as usize) as u32
    }

    // Counts a fault.
    fn fault(&mut self) -> Failed
        ensures { self.new ≡ faulted self.old }
    {
        self.faults = counted_once_more(self.faults);
        Failed
    }

    // Adds up the lengths of the buffers.
    fn ask(&mut self, count: usize)
        ensures asked { self.new ≡ record self.old { asked = counted self.old.asked count } }
        ensures more { self.old.asked ≤ self.new.asked }
    {
        self.asked = self.asked.saturating_add(count as u64);
    }

    // Remembers a call that writes nothing.
    fn remember(&mut self, call: DiskCall) -> Result<(), NoMemory>
        requires { (bytes : List ℕ) → read_after (call ∷ []) bytes ≡ bytes }
        ensures ok { OnOk result
            (self.new ≡ record self.old { calls = self.old.calls ++ call ∷ [] }) }
        ensures err { OnErr result (self.new ≡ self.old) }
    {
        self.calls.push(call)?;
        Ok(())
    }

    // Writes bytes and remembers it.
    fn store(&mut self, place: u64, bytes: &[u8]) -> Result<(), NoMemory>
        ensures ok { OnOk result ((kept : Vec ℕ Global) × (kept.items ≡ bytes.now)
            × (self.new ≡ record self.old { calls = self.old.calls ++ Wrote place kept ∷ [] })) }
        ensures err { OnErr result (self.new ≡ self.old) }
    {
        let kept = Vec::from_slice(self.alloc, bytes)?;
        self.calls.reserve(1)?;
        overwrite_file(
            self.alloc,
            &self.first,
            &mut self.written,
            place as usize,
            bytes,
        )?;
        self.calls
            .push(DiskCall::Wrote { place, bytes: kept })
            .unwrap();
        Ok(())
    }

    // Makes a call that writes nothing: it is remembered as this one, or as one that did nothing
    // where it fails.
    fn make(&mut self, call: DiskCall) -> Result<(), Failed>
        requires { (bytes : List ℕ) → read_after (call ∷ []) bytes ≡ bytes }
        ensures { Makes (λ done. done ≡ call) (λ failed. failed ≡ Looked) result self.old self.new }
    {
        if self.is_listed() {
            let _ = self.remember(DiskCall::Looked);
            return Err(self.fault());
        }
        if self.remember(call).is_err() {
            return Err(self.fault());
        }
        Ok(())
    }
}

impl Disk for MemoryDisk {
    ghost use Rattle.std.specs.Prelude.{◌≡◌, ◌+◌, ◌-◌, ◌<◌, ◌≤◌, min, Some, IfOk, OnOk, length, take, drop};
    ghost use Rattle.device_facts.specs.Count.{CountsFault, counted};
    ghost use Rattle.disk_core.specs.declared.disk_call.DiskCall.TheVariants.{Looked, Synced};
    ghost use Rattle.disk_core.specs.Disk.{Only, AddsNoImage, Writes};
    ghost use Rattle.disk_core.specs.DiskLog.{stored, IsImage, WasImage, GoesOn, IsWrite, Makes};
    ghost use Rattle.disk_core.specs.DiskLaws.{told_image, image_counts, image_only};

    ghost reads = { λ d. Some (stored d) };

    ghost image = { λ d c. IsImage d.first d.calls c };

    ghost time = { λ d. length d.calls };

    ghost since = { λ d t c. WasImage d.first d.calls t c };

    ghost faults = { λ d. d.faults };

    ghost asked = { λ d. d.asked };

    ghost reads_image = { λ d bytes told. told_image d bytes told };

    ghost counts_now = { λ d t c le is. image_counts d.first d.calls t c le is };

    ghost only_now = { λ d c was. image_only d.first d.calls c was };

    fn len(&mut self) -> Result<u64, Failed>
        ensures length { IfOk result (λ count. count ≡ length (stored self.old)) }
        ensures made { Makes (λ done. done ≡ Looked) (λ failed. failed ≡ Looked) result
            self.old self.new }
    {
        self.make(DiskCall::Looked)?;
        Ok(self.bytes().len() as u64)
    }

    fn read_at(&mut self, place: u64, into: &mut [u8]) -> Result<usize, Failed>
        ensures count { IfOk result (λ count.
            count ≡ min (length into.new) (length (stored self.old) - place)) }
        ensures bytes { IfOk result (λ count.
            take count into.new ≡ take count (drop place (stored self.old))) }
        ensures made { Makes (λ done. done ≡ Looked) (λ failed. failed ≡ Looked) result
            (record self.old { asked = counted self.old.asked (length into.new) }) self.new }
        ensures asked_more { self.old.asked ≤ self.new.asked }
    {
        self.ask(into.len());
        self.make(DiskCall::Looked)?;
        let bytes = self.bytes();
        let start = (place as usize).min(bytes.len());
        Ok(fill_front(into, &bytes[start..]))
    }

    fn write_at(&mut self, place: u64, bytes: &[u8]) -> Result<(), Failed>
        requires within { place ≤ length (stored self.old) }
        requires end { place + length bytes.now < DISK_END }
        ensures made { Makes (IsWrite place bytes.now) (IsWrite place bytes.now) result
            self.old self.new }
    {
        let listed = self.is_listed();
        if self.store(place, bytes).is_err() || listed {
            return Err(self.fault());
        }
        Ok(())
    }

    fn sync(&mut self) -> Result<(), Failed>
        ensures made { Makes (λ done. done ≡ Synced) (λ failed. failed ≡ Looked) result
            self.old self.new }
    {
        self.make(DiskCall::Synced)
    }
}

use crate::sink::Sink;
use crate::types::Failed;
use device_facts::counted_once_more;
use std::marker::Model;

/// A sink over a buffer whose capacity is all the room that there is. It takes no memory, and fails
/// exactly at a piece that isn't empty where it is full.
#[derive(Drop)]
pub struct QuietSink {
    bytes: Vec<u8>,
    capacity: usize,
    faults: u64,
}

impl Model for QuietSink {
    ghost use Rattle.std.specs.Prelude.{◌≤◌, vec_capacity, vec_len};
    ghost use Rattle.disk_core.specs.Streams.{Buffer};

    ghost Value = { Buffer };

    ghost view = { λ s. record { held = s.bytes.items; capacity = s.capacity; faults = s.faults } };

    ghost invariant = { λ s. (vec_len s.bytes ≤ s.capacity) × (s.capacity ≤ vec_capacity s.bytes) };
}

impl QuietSink {
    ghost use Rattle.std.specs.Prelude.{◌≡◌, vec_capacity};
    ghost use Rattle.disk_core.specs.Streams.{Buffer};

    /// A sink over this vector, which holds what the vector holds; its room is the capacity that is
    /// left.
    pub fn new(room: Vec<u8>) -> Self
        ensures { result ≡ record { held = room.items; capacity = vec_capacity room; faults = 0 } }
    {
        QuietSink {
            capacity: room.capacity(),
            bytes: room,
            faults: 0,
        }
    }

    /// The bytes that it holds.
    pub fn bytes(&self) -> &[u8]
        ensures { result.now ≡ self.now.held }
    {
        &self.bytes
    }
}

impl Sink for QuietSink {
    ghost use Rattle.std.specs.Prelude.{◌≡◌, ◌↔◌, ◌<◌, ◌≤◌, length, IfOk, IsErr, Some, refl};
    ghost use Rattle.std.proofs.Common.{◌∙◌};
    ghost use Rattle.std.specs.Io.KnownBytes.{WriteAppends};
    ghost use Rattle.device_facts.specs.Count.{CountsFault};
    ghost use Rattle.device_facts.specs.Known.{TellsAsBefore};

    ghost held = { λ s. Some s.held };

    ghost faults = { λ s. s.faults };

    ghost keeps_rest = { λ old new. new.capacity ≡ old.capacity };

    ghost frame = { record { none = λ s. refl; both = λ a b c first second. second ∙ first } };

    fn write(&mut self, bytes: &[u8]) -> Result<usize, Failed>
        ensures bound { IfOk result (λ count. count ≤ length bytes.now) }
        ensures some { IfOk result (λ count. 0 < length bytes.now → 0 < count) }
        ensures bytes { WriteAppends (Some self.old.held) (Some self.new.held) result bytes.now }
        ensures tells { TellsAsBefore (Some self.old.held) (Some self.new.held) }
        ensures cause { CountsFault self.old.faults self.new.faults result }
        ensures rest { self.new.capacity ≡ self.old.capacity }
        ensures full { IsErr result
            ↔ ((length self.old.held ≡ self.old.capacity) × (0 < length bytes.now)) }
    {
        let room = self.capacity - self.bytes.len();
        let count = bytes.len().min(room);
        if count == 0 && !bytes.is_empty() {
            self.faults = counted_once_more(self.faults);
            return Err(Failed);
        }
        self.bytes.extend_from_slice(&bytes[..count]).unwrap();
        Ok(count)
    }
}

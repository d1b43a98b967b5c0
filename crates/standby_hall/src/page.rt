ghost use Rattle.std.specs.Prelude.{◌≡◌};

use book_snapshot::ROW_BYTES;
use disk_core::{Partly, Sink, write_all};
use std::marker::Model;

// So many bytes go out in one write.
const PAGE_BYTES: usize = 32 * ROW_BYTES;

/// Bytes on their way to a sink: how many went out, and those that wait.
#[derive(Drop)]
pub(crate) struct Page {
    bytes: [u8; PAGE_BYTES],
    filled: usize,
    sent: usize,
}

impl Model for Page {
    ghost use Rattle.std.specs.Prelude.{◌≤◌, take};
    ghost use Rattle.standby_hall.specs.declared.page.TheConstants.{PAGE_BYTES};
    ghost use Rattle.standby_hall.specs.Pages.{PageView};

    ghost Value = { PageView };

    ghost view = { λ p. record { sent = p.sent; waiting = take p.filled p.bytes } };

    ghost invariant = { λ p. p.filled ≤ PAGE_BYTES };
}

impl Page {
    ghost use Rattle.std.specs.Prelude.{◌≡◌, ◌+◌, ◌≤◌, [], ◌++◌, ℕ, List, length, OnOk, MatchResult};
    ghost use Rattle.book_snapshot.specs.declared.layout.TheConstants.{ROW_BYTES};
    ghost use Rattle.text_streams.specs.Streams.{Stream, output_at};
    ghost use Rattle.standby_hall.specs.Pages.{HasPut, IsCutAt, put_bytes, MAX_PUT};

    /// Nothing waits, and nothing went out.
    pub(crate) fn new() -> Page
        ensures { result ≡ record { sent = 0; waiting = [] } }
    {
        Page {
            bytes: [0; PAGE_BYTES],
            filled: 0,
            sent: 0,
        }
    }

    /// Writes the bytes that wait.
    pub(crate) fn flush<K: Sink>(&mut self, sink: &mut K) -> Result<(), Partly>
        requires few { put_bytes self.old ≤ MAX_PUT }
        ensures goes { (start : Stream) (text : List ℕ)
            → HasPut start (output_at K.Sink sink.old) self.old text
            → MatchResult result (λ _. HasPut start (output_at K.Sink sink.new) self.new text)
            (IsCutAt start (output_at K.Sink sink.new) text) }
        ensures empty { OnOk result (self.new.waiting ≡ []) }
        ensures count { OnOk result (put_bytes self.new ≡ put_bytes self.old) }
    {
        match write_all(sink, &self.bytes[..self.filled]) {
            Ok(()) => {
                self.sent += self.filled;
                self.filled = 0;
                Ok(())
            }
            Err(Partly { done }) => Err(Partly {
                done: self.sent + done,
            }),
        }
    }

    // Sees that so many bytes have room.
    fn make_room<K: Sink>(&mut self, size: usize, sink: &mut K) -> Result<(), Partly>
        requires few { put_bytes self.old ≤ MAX_PUT }
        requires fits { size ≤ ROW_BYTES }
        ensures goes { (start : Stream) (text : List ℕ)
            → HasPut start (output_at K.Sink sink.old) self.old text
            → MatchResult result (λ _. HasPut start (output_at K.Sink sink.new) self.new text)
            (IsCutAt start (output_at K.Sink sink.new) text) }
        ensures room { OnOk result (length self.new.waiting + size ≤ PAGE_BYTES) }
        ensures count { OnOk result (put_bytes self.new ≡ put_bytes self.old) }
    {
        if PAGE_BYTES - self.filled < size {
            return self.flush(sink);
        }
        Ok(())
    }

    // Puts bytes behind those that wait, where there is room.
    fn push(&mut self, bytes: &[u8])
        requires { length self.old.waiting + length bytes.now ≤ PAGE_BYTES }
        ensures waits { self.new.waiting ≡ self.old.waiting ++ bytes.now }
        ensures sent { self.new.sent ≡ self.old.sent }
    {
        let end = self.filled + bytes.len();
        self.bytes[self.filled..end].copy_from_slice(bytes);
        self.filled = end;
    }

    /// Puts bytes behind those that wait, once there is room.
    pub(crate) fn put<K: Sink>(&mut self, bytes: &[u8], sink: &mut K) -> Result<(), Partly>
        requires few { put_bytes self.old ≤ MAX_PUT }
        requires fits { length bytes.now ≤ ROW_BYTES }
        ensures goes { (start : Stream) (text : List ℕ)
            → HasPut start (output_at K.Sink sink.old) self.old text
            → MatchResult result
            (λ _. HasPut start (output_at K.Sink sink.new) self.new (text ++ bytes.now))
            (IsCutAt start (output_at K.Sink sink.new) text) }
        ensures count { OnOk result (put_bytes self.new
            ≡ put_bytes self.old + length bytes.now) }
    {
        self.make_room(bytes.len(), sink)?;
        self.push(bytes);
        Ok(())
    }
}

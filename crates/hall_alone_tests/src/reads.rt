use crate::halls::ends_of;
use disk_core::{Failed, MemorySink, Source};
use memory_hall::disk_of;
use std::alloc::Global;
use std::test::Fail;

// Gives some bytes and then lines of seven times the same byte, so many bytes a read and in so many
// reads, and keeps the room of the last buffer.
#[derive(Drop)]
struct Lines {
    front: &'static [u8],
    byte: u8,
    piece: usize,
    reads: u32,
    place: u8,
    room: usize,
    ended: bool,
}

impl Source for Lines {
    ghost use Rattle.std.specs.Prelude.{None};
    ghost use Rattle.device_facts.specs.Frame.{NothingElse, nothing_else};

    ghost left = { λ _. None };

    ghost ended = { λ s. s.ended };

    ghost faults = { λ _. 0 };

    ghost keeps_rest = { NothingElse };

    ghost frame = { nothing_else };

    fn read(&mut self, into: &mut [u8]) -> Result<usize, Failed> {
        self.room = into.len();
        let piece = if self.reads == 0 { 0 } else { self.piece };
        let count = piece.min(into.len());
        self.reads = self.reads.saturating_sub(1);
        for i in 0..count {
            into[i] = self.next();
        }
        self.ended = count == 0 && !into.is_empty();
        Ok(count)
    }
}

impl Lines {
    // The next byte.
    fn next(&mut self) -> u8 {
        if let Some((first, rest)) = self.front.split_first() {
            self.front = rest;
            return *first;
        }
        self.place = self.place.wrapping_add(1) % 8;
        if self.place == 0 { b'\n' } else { self.byte }
    }
}

// The header of a journal of version 1.
const OLD_HEADER: &[u8] = b"AQHBOOK1\0\0\0\0\0\0\0\0\0\0\0\0\0\0\0\0\0\0\0\0\0\0\0\0\
\0\0\0\0\0\0\0\0\0\0\0\0\0\0\0\0\0\0\0\0\0\0\0\0\0\0\0\0\0\0\0\0";

// A command, what its input begins with, the byte of the lines behind it, how many bytes a read
// gives, and in how many reads.
type Input = (&'static str, &'static [u8], u8, usize, u32);

// The status, and how many bytes are printed. Where the reads are spent nothing is; a summary of an
// empty list has 160 bytes, and the line of a book without rows 13.
const READS: [(Input, (u8, usize)); 5] = [
    (("run", b"", b' ', 1, 100_000_000), (12, 0)),
    (("run", b"", b' ', 1, 99_999_999), (0, 160)),
    (("run", b"", b'#', 65_536, 1_600), (0, 160)),
    (("migrate", OLD_HEADER, b' ', 1, 200_000_000), (12, 0)),
    (("migrate", OLD_HEADER, b' ', 1, 199_999_999), (0, 13)),
];

// Whether a run over an input ends so.
fn is_right(alloc: Global, input: &Input, ends: (u8, usize)) -> bool {
    let (command, front, byte, piece, reads) = *input;
    let mut input = Lines {
        front,
        byte,
        piece,
        reads,
        place: 0,
        room: 0,
        ended: false,
    };
    let mut output = MemorySink::new(alloc, Vec::new(alloc));
    let disk = disk_of(alloc, &[], &[]);
    let (status, rows) = ends_of(alloc, &[command], &mut input, &mut output, disk);
    (status, rows) == (ends.0, 0) && output.bytes().len() == ends.1 && input.room >= 65_536
}

// The place of the first run that ends otherwise.
fn wrong_read(alloc: Global, cases: &[(Input, (u8, usize))]) -> Option<usize> {
    for (place, (input, ends)) in cases.iter().enumerate() {
        if !is_right(alloc, input, *ends) {
            return Some(place);
        }
    }
    None
}

// Reads that each give a byte are spent at 100 000 000, those of a migration at 200 000 000; larger
// ones may give more bytes than that in all.
#[test]
fn spent_are_the_reads_and_not_the_bytes(rt: HostRuntime) -> Result<(), Fail> {
    assert_eq!(rt; wrong_read(rt.alloc(), &READS), None);
    Ok(())
}

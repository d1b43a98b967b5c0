use disk_core::{
    Failed, MemorySink, MemorySource, Partly, QuietSink, QuietSource, Sink, Source, StdSink,
    StdSource, write_all,
};
use std::io;
use std::io::{ErrorKind, Read, Write};
use std::test::Fail;

// Reads on, but not past the end.
fn read_listed(source: &mut MemorySource, into: &mut [u8]) -> Result<usize, Failed> {
    if source.has_ended() {
        return Err(Failed);
    }
    source.read(into)
}

fn read_quiet(source: &mut QuietSource, into: &mut [u8]) -> Result<usize, Failed> {
    if source.has_ended() {
        return Err(Failed);
    }
    source.read(into)
}

fn read_real(source: &mut StdSource<Flaky>, into: &mut [u8]) -> Result<usize, Failed> {
    if source.has_ended() {
        return Err(Failed);
    }
    source.read(into)
}

// A stream that is interrupted twice, moves one byte, and then fails, over and over.
#[derive(Drop)]
struct Flaky {
    turn: u8,
}

impl Flaky {
    fn turn(&mut self) -> io::Result<usize> {
        self.turn = self.turn.wrapping_add(1) % 4;
        match self.turn {
            1 | 2 => Err(io::Error::from(ErrorKind::Interrupted)),
            3 => Ok(1),
            _ => Err(io::Error::from(ErrorKind::BrokenPipe)),
        }
    }
}

impl Read for Flaky {
    fn read(&mut self, buf: &mut [u8]) -> io::Result<usize> {
        match self.turn()? {
            count if count <= buf.len() => Ok(count),
            _ => Ok(0),
        }
    }
}

impl Write for Flaky {
    fn write(&mut self, buf: &[u8]) -> io::Result<usize> {
        match self.turn()? {
            count if count <= buf.len() => Ok(count),
            _ => Ok(0),
        }
    }

    fn flush(&mut self) -> io::Result<()> {
        Ok(())
    }
}

// What each read answers, and what the buffer holds then.
const READS: [(Result<usize, Failed>, [u8; 2]); 4] = [
    (Ok(2), [1, 2]),
    (Err(Failed), [1, 2]),
    (Ok(1), [3, 2]),
    (Ok(0), [3, 2]),
];

// A source gives its bytes and fails where that is listed. Real ones go on after interrupts alone.
#[test]
fn sources_give_their_bytes(rt: HostRuntime) -> Result<(), Fail> {
    let alloc = rt.alloc();
    let bytes = vec![in alloc; 1u8, 2, 3]?;
    let mut listed = MemorySource::new(bytes.clone()?, vec![in alloc; 2u32]?);
    let mut quiet = QuietSource::new(bytes);
    let mut into = [0u8; 2];
    for (answer, held) in READS {
        assert!(rt; read_listed(&mut listed, &mut into) == answer);
        assert!(rt; into == held);
    }
    assert!(rt; listed.has_ended());
    assert!(rt; read_quiet(&mut quiet, &mut []) == Ok(0));
    for count in [2, 1, 0] {
        assert!(rt; !quiet.has_ended());
        assert!(rt; read_quiet(&mut quiet, &mut into) == Ok(count));
    }
    assert!(rt; quiet.has_ended());
    let mut real = StdSource::new(Flaky { turn: 0 });
    for answer in [Ok(1), Err(Failed), Ok(1)] {
        assert!(rt; read_real(&mut real, &mut into) == answer);
    }
    assert!(rt; !real.has_ended());
    Ok(())
}

const CUT: Result<(), Partly> = Err(Partly { done: 0 });

// A sink keeps what went out, and an error says what failed.
#[test]
fn sinks_keep_what_went_out(rt: HostRuntime) -> Result<(), Fail> {
    let alloc = rt.alloc();
    let mut listed = MemorySink::new(alloc, vec![in alloc; 2u32]?);
    for (bytes, answer) in [(b"ab", Ok(())), (b"cd", CUT), (b"cd", Ok(()))] {
        assert!(rt; write_all(&mut listed, bytes) == answer);
    }
    assert!(rt; listed.bytes() == b"abcd".as_slice());
    let mut full = QuietSink::new(Vec::with_capacity(alloc, 3)?);
    for (bytes, answer) in [(b"ab", Ok(())), (b"cd", Err(Partly { done: 1 }))] {
        assert!(rt; write_all(&mut full, bytes) == answer);
    }
    assert!(rt; full.write(b"") == Ok(0));
    assert!(rt; full.bytes() == b"abc".as_slice());
    let mut real = StdSink::new(Flaky { turn: 0 });
    assert!(rt; write_all(&mut real, b"abc") == Err(Partly { done: 1 }));
    assert!(rt; write_all(&mut real, b"c") == Ok(()));
    let texts = format!(in alloc; "{}, {}", Failed, Partly { done: 3 })?;
    assert!(rt;
        texts.as_str() == "the device failed, the device failed before all bytes were written"
    );
    Ok(())
}

use crate::runs::{Ends, run_over};
use disk_core::{MemoryDisk, MemorySink, QuietSource};
use std::alloc::Global;
use std::test::Fail;

// The header, and empty lines up to so many bytes.
fn empty_lines(alloc: Global, length: usize) -> Option<Vec<u8>> {
    let mut bytes = vec![in alloc; b'\n'; length].ok()?;
    for (there, byte) in bytes.iter_mut().zip(b"desk,request,command\n") {
        *there = *byte;
    }
    Some(bytes)
}

// How an import of so many bytes ends, and how many bytes it prints.
fn ends_long(alloc: Global, length: usize) -> Option<(Ends, usize)> {
    let mut input = QuietSource::new(empty_lines(alloc, length)?);
    let mut output = MemorySink::new(alloc, Vec::new(alloc));
    let disk = MemoryDisk::new(alloc, Vec::new(alloc), Vec::new(alloc));
    let (ends, _, _) = run_over(alloc, disk, &mut input, &mut output)?;
    Some((ends, output.bytes().len()))
}

// A summary of an empty list has 160 bytes.
#[test]
fn an_import_has_16_777_216_bytes(rt: HostRuntime) -> Result<(), Fail> {
    let alloc = rt.alloc();
    assert_eq!(rt; ends_long(alloc, 16_777_216), Some((Ends::Finished, 160)));
    assert_eq!(rt; ends_long(alloc, 16_777_217), Some((Ends::BadLine(0), 0)));
    Ok(())
}

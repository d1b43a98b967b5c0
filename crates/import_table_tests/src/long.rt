use crate::ending::has_days;
use import_table::{ImportError, ImportReader, MAX_IMPORT, MAX_RECORDS};
use std::alloc::{AllocError, Global};

const HEADER: &[u8] = b"desk,request,command\n";

// The header, and empty lines up to so many bytes.
fn empty_lines(alloc: Global, length: usize) -> Result<Vec<u8>, AllocError> {
    let mut import = Vec::new(alloc);
    import.extend_from_slice(HEADER)?;
    for _ in import.len()..length {
        import.push(b'\n').map_err(|_| AllocError)?;
    }
    Ok(import)
}

#[test]
fn an_import_has_16_777_216_bytes(rt: HostRuntime) -> Result<(), AllocError> {
    let alloc = rt.alloc();
    assert!(rt; MAX_IMPORT == 16_777_216);
    let longest = empty_lines(alloc, 16_777_216)?;
    assert!(rt; has_days(alloc, &longest, &[]) == Ok(true));
    let longer = empty_lines(alloc, 16_777_217)?;
    assert!(rt; has_days(alloc, &longer, &[]) == Err(ImportError::Bad { record: 0 }));
    Ok(())
}

// The header, and so many records.
fn records(alloc: Global, count: u32) -> Result<Vec<u8>, AllocError> {
    let mut import = Vec::new(alloc);
    import.extend_from_slice(HEADER)?;
    for _ in 0..count {
        import.extend_from_slice(b"101,1,end A\n")?;
    }
    Ok(import)
}

// How many records are read, and the error behind them, if there is one.
fn count_records(alloc: Global, import: &[u8]) -> (u32, Option<ImportError>) {
    let mut reader = match ImportReader::new(alloc, import) {
        Ok(reader) => reader,
        Err(error) => return (0, Some(error)),
    };
    for count in 0..u32::MAX {
        match reader.next() {
            Ok(Some(_)) => {}
            Ok(None) => return (count, None),
            Err(error) => return (count, Some(error)),
        }
    }
    (u32::MAX, None)
}

#[test]
fn an_import_has_1_000_000_records(rt: HostRuntime) -> Result<(), AllocError> {
    let alloc = rt.alloc();
    assert!(rt; MAX_RECORDS == 1_000_000);
    let most = records(alloc, 1_000_000)?;
    assert!(rt; count_records(alloc, &most) == (1_000_000, None));
    let more = records(alloc, 1_000_001)?;
    assert!(rt; count_records(alloc, &more) == (1_000_000, Some(ImportError::TooMany)));
    Ok(())
}

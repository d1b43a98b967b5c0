use crate::books::{ROWS, after_three, weighed, worked};
use crate::copies::open_copy;
use book_words::{Entry, Prior};
use disk_core::Partly;
use memory_hall::copy;
use std::alloc::Global;
use std::test::Fail;

/// The shipment of some entries, and how many bytes of it went out where the sink failed.
pub(crate) fn shipped(
    alloc: Global,
    entries: &[Entry],
    after: u32,
    fails: &[u32],
) -> (Option<usize>, Vec<u8>) {
    let Some(book) = open_copy(alloc, entries, entries.len(), &[]) else {
        return (None, Vec::new(alloc));
    };
    let (told, sink) = book.shipment(alloc, after, fails);
    let bytes = copy(alloc, sink.bytes());
    let _ = book.close();
    match told {
        Ok(()) => (None, bytes),
        Err(Partly { done }) => (Some(done), bytes),
    }
}

#[test]
fn a_shipment_byte_by_byte(rt: HostRuntime) -> Result<(), Fail> {
    let entries = worked()?;
    let five = &entries[..5];
    let (cut, bytes) = shipped(rt.alloc(), five, 3, &[]);
    assert!(rt; cut.is_none() && bytes.as_slice() == after_three().as_slice());
    let (cut, bytes) = shipped(rt.alloc(), five, 0, &[]);
    assert!(rt; cut.is_none() && bytes.len() == 496);
    let mut head = after_three();
    head[12] = 5;
    for after in [ROWS, 6, 1_000_000, u32::MAX] {
        let (cut, bytes) = shipped(rt.alloc(), five, after, &[]);
        assert!(rt; cut.is_none() && bytes.as_slice() == &head[..16]);
    }
    let (cut, bytes) = shipped(rt.alloc(), &[], 0, &[]);
    assert!(rt; cut.is_none() && bytes.as_slice() == b"AQHSHIP2\0\0\0\0\0\0\0\0".as_slice());
    Ok(())
}

// 40 rows have 3 856 bytes. The first 2 992 go out in one write, and then the rest.
#[test]
fn many_rows_go_out_in_one_write(rt: HostRuntime) -> Result<(), Fail> {
    let mut many = copy(rt.alloc(), &worked()?);
    for _pack in 0..34u32 {
        many.push(weighed(251_000, Prior::Opened))?;
    }
    let (cut, bytes) = shipped(rt.alloc(), &many, 0, &[]);
    assert!(rt; cut.is_none() && bytes.len() == 3_856);
    let (cut, bytes) = shipped(rt.alloc(), &many, 0, &[2]);
    assert!(rt; cut == Some(2_992) && bytes.len() == 2_992);
    Ok(())
}

use crate::runs::{Ends, Wanted, run_so};
use std::alloc::Global;
use std::test::Fail;

/// Two acts of a desk.
pub const TWO: &[u8] = b"desk,request,command\n101,1,day 2025-03-03\n101,2,product a 250\n";

/// What they print over an empty book.
pub const TWO_ROWS: &str = "1 ok\n2 ok\nrows 2\nreadings 0 gross 0.000\n\
passed 0 gross 0.000\nrejected 0 gross 0.000\nsampled 0 gross 0.000\nvoided 0 gross 0.000\n\
batches running 0 ended 0 drawn 0 closed 0\n";

const TWICE: &str = "refused 2 RequestOld 2 at 2\n2 ok\nrows 2\nreadings 0 gross 0.000\n\
passed 0 gross 0.000\nrejected 0 gross 0.000\nsampled 0 gross 0.000\nvoided 0 gross 0.000\n\
batches running 0 ended 0 drawn 0 closed 0\n";

const ONE_ROW: &str = "1 ok\nrefused 10 NameShape at 1\nrows 1\nreadings 0 gross 0.000\n\
passed 0 gross 0.000\nrejected 0 gross 0.000\nsampled 0 gross 0.000\nvoided 0 gross 0.000\n\
batches running 0 ended 0 drawn 0 closed 0\n";

const HALL_ROW: &str = "1 ok\nrefused 1 DeskNumber at 1\nrows 1\nreadings 0 gross 0.000\n\
passed 0 gross 0.000\nrejected 0 gross 0.000\nsampled 0 gross 0.000\nvoided 0 gross 0.000\n\
batches running 0 ended 0 drawn 0 closed 0\n";

const NO_ROWS: &str = "rows 0\nreadings 0 gross 0.000\n\
passed 0 gross 0.000\nrejected 0 gross 0.000\nsampled 0 gross 0.000\nvoided 0 gross 0.000\n\
batches running 0 ended 0 drawn 0 closed 0\n";

// An import over an empty book, and what comes of it.
static IMPORTS: [(&[u8], Wanted); 12] = [
    (TWO, (TWO_ROWS, Ends::Finished, 2)),
    // quotes round a field, doubled quotes in one, and a quote in mid-field: no product may be
    // called "a or a"b
    (
        b"desk,request,command\n\"101\",1,\"day 2025-03-03\"\n101,\"2\",\"product a 250\"\n",
        (TWO_ROWS, Ends::Finished, 2),
    ),
    (
        b"desk,request,command\n101,1,day 2025-03-03\n101,2,\"product \"\"a 250\"\n",
        (ONE_ROW, Ends::Finished, 1),
    ),
    (
        b"desk,request,command\n101,1,day 2025-03-03\n101,2,product a\"b 250\n",
        (ONE_ROW, Ends::Finished, 1),
    ),
    (b"desk,request,command\n", (NO_ROWS, Ends::Finished, 0)),
    // the commands before a bad record are answered, and none behind it is asked
    (
        b"desk,request,command\n101,1,day 2025-03-03\n101,2,wat\n101,2,product a 250\n",
        ("1 ok\n", Ends::BadLine(3), 1),
    ),
    (
        b"desk,request,command\n101,1,day 2025-03-03\n101,2,summary\n",
        ("1 ok\n", Ends::BadLine(3), 1),
    ),
    (
        b"desk,request,command\n101,1,day 2025-03-03\n101,2,work 1 A\n",
        ("1 ok\n", Ends::BadLine(3), 1),
    ),
    // desk 0 is the hall itself, which has no requests
    (
        b"desk,request,command\n0,0,day 2025-03-03\n0,1,product a 250\n",
        (HALL_ROW, Ends::Finished, 1),
    ),
    (
        b"desk,request,command\n101,1,day 2025-03-03,\n",
        ("", Ends::BadLine(2), 0),
    ),
    (b"desk,request,act\n", ("", Ends::BadLine(1), 0)),
    (b"", ("", Ends::BadLine(1), 0)),
];

// The first import that ends otherwise.
fn wrong_import(alloc: Global) -> Option<usize> {
    for place in 0..IMPORTS.len() {
        let (import, wanted) = &IMPORTS[place];
        if run_so(alloc, Vec::new(alloc), import, (0, 0, 0), *wanted).is_none() {
            return Some(place);
        }
    }
    None
}

#[test]
fn imports_over_an_empty_book(rt: HostRuntime) -> Result<(), Fail> {
    assert_eq!(rt; wrong_import(rt.alloc()), None);
    Ok(())
}

// An import comes twice over one book, and over a book that has its first act.
fn comes_again(alloc: Global) -> Option<()> {
    let none = (0, 0, 0);
    let once = run_so(
        alloc,
        Vec::new(alloc),
        TWO,
        none,
        (TWO_ROWS, Ends::Finished, 2),
    )?;
    run_so(alloc, once, TWO, none, (TWICE, Ends::Finished, 2))?;
    let stopped = b"desk,request,command\n101,1,day 2025-03-03\nwat\n".as_slice();
    let half = run_so(
        alloc,
        Vec::new(alloc),
        stopped,
        none,
        ("1 ok\n", Ends::BadLine(3), 1),
    )?;
    run_so(alloc, half, TWO, none, (TWO_ROWS, Ends::Finished, 2))?;
    Some(())
}

#[test]
fn an_import_that_comes_again_acts_once(rt: HostRuntime) -> Result<(), Fail> {
    assert!(rt; comes_again(rt.alloc()).is_some());
    Ok(())
}

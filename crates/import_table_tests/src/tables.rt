use crate::ending::{DayOfDesk, has_days};
use import_table::ImportError;
use std::alloc::{AllocError, Global};

// 2025-03-03, in days since 1970-01-01.
const MONDAY: i32 = 20_150;

// An import, its commands, and the number of its first bad record, where it has one.
type Row = (&'static [u8], &'static [DayOfDesk], Option<u32>);

// How records stand in a table.
static FORMS: [Row; 18] = [
    (b"desk,request,command\n", &[], None),
    (b"desk,request,command", &[], None),
    (
        b"desk,request,command\n101,1,day 2025-03-03\n",
        &[(101, 1, MONDAY)],
        None,
    ),
    (
        b"desk,request,command\n101,1,day 2025-03-03",
        &[(101, 1, MONDAY)],
        None,
    ),
    (
        b"desk,request,command\r\n101,1,day 2025-03-03\r\n164,4294967295,day 1970-01-01\r\n",
        &[(101, 1, MONDAY), (164, 4_294_967_295, 0)],
        None,
    ),
    (
        b"desk,request,command\r101,1,day 2025-03-03\r",
        &[(101, 1, MONDAY)],
        None,
    ),
    (
        b"\n\r\ndesk,request,command\n\n\n101,1,day 2025-03-03\n\n",
        &[(101, 1, MONDAY)],
        None,
    ),
    (
        b"\xef\xbb\xbfdesk,request,command\n101,1,day 2025-03-03\n",
        &[(101, 1, MONDAY)],
        None,
    ),
    (
        b"\"desk\",\"request\",\"command\"\n\"101\",\"1\",\"day 2025-03-03\"\n",
        &[(101, 1, MONDAY)],
        None,
    ),
    (
        b"desk,request,command\n101,1,  day\t2025-03-03 \n1,0,day 2025-03-03\n",
        &[(101, 1, MONDAY), (1, 0, MONDAY)],
        None,
    ),
    (
        b"desk,request,command\n0,0,day 2025-03-03\n0,1,day 2025-03-03\n",
        &[(0, 0, MONDAY), (0, 1, MONDAY)],
        None,
    ),
    (
        b"desk,request,command\n101,1,\"day 2025-03-03\n",
        &[],
        Some(2),
    ),
    (
        b"desk,request,command\n101,1,\"day 2025-03-03\n\"\n",
        &[],
        Some(2),
    ),
    (
        b"desk,request,command\n101,1,\"day\n2025-03-03\"\n",
        &[],
        Some(2),
    ),
    (
        b"desk,request,command\n101,1,\"day 2025-03-03\r\"\n",
        &[],
        Some(2),
    ),
    (
        b"desk,request,command\n101,1,day \"2025-03-03\"\n",
        &[],
        Some(2),
    ),
    (
        b"desk,request,command\n101,1,\"day \"2025-03-03\n",
        &[(101, 1, MONDAY)],
        None,
    ),
    (
        b"desk,request,command\n\"101\n\",1,day 2025-03-03\n",
        &[],
        Some(2),
    ),
];

// Imports that are bad.
static BAD: [Row; 22] = [
    (b"", &[], Some(1)),
    (b"\n", &[], Some(1)),
    (b"\xef\xbb\xbf", &[], Some(1)),
    (b"101,1,day 2025-03-03\n", &[], Some(1)),
    (b"desk,request\n", &[], Some(1)),
    (b"desk,request,command,note\n", &[], Some(1)),
    (b"desk;request;command\n", &[], Some(1)),
    (b"Desk,request,command\n", &[], Some(1)),
    (b" desk,request,command\n", &[], Some(1)),
    (b"request,desk,command\n", &[], Some(1)),
    (b"desk,request,command\n101,1\n", &[], Some(2)),
    (
        b"desk,request,command\n101,1,day 2025-03-03,\n",
        &[],
        Some(2),
    ),
    (
        b"desk,request,command\n101,1,day 2025-03-03,x\n",
        &[],
        Some(2),
    ),
    (
        b"desk,request,command\n65536,1,day 2025-03-03\n",
        &[],
        Some(2),
    ),
    (
        b"desk,request,command\n101,4294967296,day 2025-03-03\n",
        &[],
        Some(2),
    ),
    (b"desk,request,command\n,1,day 2025-03-03\n", &[], Some(2)),
    (b"desk,request,command\n101,,day 2025-03-03\n", &[], Some(2)),
    (b"desk,request,command\n101,1,\n", &[], Some(2)),
    (b"desk,request,command\n101,1,summary\n", &[], Some(2)),
    (b"desk,request,command\n101,1,work 1 A\n", &[], Some(2)),
    (
        b"desk,request,command\n101,1,day 2025-03-0\xff\n",
        &[],
        Some(2),
    ),
    (
        b"desk,request,command\n101,1,day 2025-03-03\n\n101,2,day 2025-03-03\n#\n101,3,x\n",
        &[(101, 1, MONDAY), (101, 2, MONDAY)],
        Some(4),
    ),
];

// The place of the first row of a table that is read otherwise.
fn wrong_row(alloc: Global, rows: &[Row]) -> Option<&'static [u8]> {
    for (import, days, bad) in rows {
        let right = match has_days(alloc, *import, *days) {
            Ok(whole) => whole && bad.is_none(),
            Err(ImportError::Bad { record }) => *bad == Some(record),
            Err(_) => false,
        };
        if !right {
            return Some(*import);
        }
    }
    None
}

#[test]
fn forms_of_tables(rt: HostRuntime) {
    assert!(rt; wrong_row(rt.alloc(), &FORMS) == None);
}

#[test]
fn bad_records(rt: HostRuntime) {
    assert!(rt; wrong_row(rt.alloc(), &BAD) == None);
}

#[test]
fn errors_have_texts(rt: HostRuntime) -> Result<(), AllocError> {
    let bad = ImportError::Bad { record: 3 };
    let text = format!(in rt.alloc(); "{bad}, {}", ImportError::TooMany)?;
    assert!(rt;
        text.as_str() == "record 3 of the import is bad, the import has more than 1000000 records"
    );
    Ok(())
}

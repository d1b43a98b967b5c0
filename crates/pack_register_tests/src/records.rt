use crate::packs::{Found, HEADER, Weighed, behind_header, pack_of, register_twice};
use pack_judge::{Cause, Class, Pile, Signal};
use pack_register::{PackList, register};
use std::alloc::{AllocError, Global};

// A pack, and its record.
type Row = (Weighed, Found, &'static str);

// The first is pack 6 of the worked day; masses are in mg, days are counted from 1970-01-01.
static ROWS: [Row; 6] = [
    (
        (6, b"A", b"rice250", 1, 20_150, 243_000, 231_000),
        (Class::Inadequate, Signal::Pass, Pile::Voided),
        "6,A,rice250,1,2025-03-03,243.000,231.000,inadequate,pass,voided\n",
    ),
    (
        (7, b"A", b"rice250", 1, 20_150, 260_000, 248_000),
        (Class::Standard, Signal::Reject(Cause::Held), Pile::Rejected),
        "7,A,rice250,1,2025-03-03,260.000,248.000,standard,reject held,rejected\n",
    ),
    (
        (10_006, b"A", b"rice250", 16, 0, 0, -5_000_000),
        (
            Class::NonStandard,
            Signal::Reject(Cause::Full),
            Pile::Sampled,
        ),
        "10006,A,rice250,16,1970-01-01,0.000,-5000.000,nonstandard,reject full,sampled\n",
    ),
    (
        (
            1_000_000, b"B.2", b"oil_5-l", 2, 2_932_896, 30_000_000, 30_000_000,
        ),
        (
            Class::Standard,
            Signal::Reject(Cause::Allowance),
            Pile::Passed,
        ),
        "1000000,B.2,oil_5-l,2,9999-12-31,30000.000,30000.000,standard,reject allowance,passed\n",
    ),
    (
        (1, b"a", b"b", 3, 1, 1, -1),
        (
            Class::Inadequate,
            Signal::Reject(Cause::Inadequate),
            Pile::Rejected,
        ),
        "1,a,b,3,1970-01-02,0.001,-0.001,inadequate,reject inadequate,rejected\n",
    ),
    (
        (4_294_967_295, b"a", b"b", 255, 1, 999, 1_000),
        (Class::Standard, Signal::Pass, Pile::Passed),
        "4294967295,a,b,255,1970-01-02,0.999,1.000,standard,pass,passed\n",
    ),
];

// Whether a register has this record twice.
fn has_twice(text: &[u8], record: &[u8]) -> Option<bool> {
    let second = behind_header(text)?.strip_prefix(record)?;
    Some(second == record)
}

// Whether the record of a pack is this one.
fn is_record_of(alloc: Global, row: &Row) -> Result<bool, AllocError> {
    let (weighed, found, record) = row;
    let Some(pack) = pack_of(weighed, *found) else {
        return Ok(false);
    };
    let text = register_twice(alloc, &pack)?;
    Ok(has_twice(&text, record.as_bytes()) == Some(true))
}

// The first of the rows whose record is another.
fn wrong_record(alloc: Global) -> Result<Option<&'static str>, AllocError> {
    for row in &ROWS {
        if !is_record_of(alloc, row)? {
            return Ok(Some(row.2));
        }
    }
    Ok(None)
}

#[test]
fn records_of_packs(rt: HostRuntime) -> Result<(), AllocError> {
    assert_eq!(rt; wrong_record(rt.alloc())?, None);
    Ok(())
}

#[test]
fn a_register_without_packs_is_its_header(rt: HostRuntime) -> Result<(), AllocError> {
    let alloc = rt.alloc();
    let packs = PackList::from(Vec::new(alloc));
    assert!(rt; packs.is_empty() && packs.len() == 0);
    assert!(rt; register(alloc, &packs)?.as_slice() == HEADER);
    Ok(())
}

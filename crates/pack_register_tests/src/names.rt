use crate::packs::{behind_header, pack_of, register_twice};
use pack_judge::{Class, Pile, Signal};
use std::alloc::{AllocError, Global};

// The name of a batch, and how it stands in the register.
static NAMES: [(&[u8], &[u8]); 9] = [
    (b"a b", b"a b"),
    (b"'a'", b"'a'"),
    (b"a,b", b"\"a,b\""),
    (b"a\"b", b"\"a\"\"b\""),
    (b"\"", b"\"\"\"\""),
    (b"a\nb", b"\"a\nb\""),
    (b"a\rb", b"\"a\rb\""),
    (b"\xff\x00", b"\xff\x00"),
    (
        b"\"\"\"\"\"\"\"\"\"\"\"\"\"\"\"\"\"\"\"\"\"\"\"\"\"\"\"\"\"\"\"\"",
        b"\"\"\"\"\"\"\"\"\"\"\"\"\"\"\"\"\"\"\"\"\"\"\"\"\"\"\"\"\"\"\"\"\"\
        \"\"\"\"\"\"\"\"\"\"\"\"\"\"\"\"\"\"\"\"\"\"\"\"\"\"\"\"\"\"\"\"\"",
    ),
];

// Whether a register has this name between the number and the product of its first record.
fn has_name(text: &[u8], written: &[u8]) -> Option<bool> {
    let record = behind_header(text)?.strip_prefix(b"1,".as_slice())?;
    let rest = record.strip_prefix(written)?;
    Some(rest.starts_with(b",p,1,1970-01-01,0.000,0.000,standard,pass,passed\n1,"))
}

// Whether the batch of this name is written so.
fn is_written(
    alloc: Global,
    name: &'static [u8],
    written: &'static [u8],
) -> Result<bool, AllocError> {
    let weighed = (1, name, b"p".as_slice(), 1, 0, 0, 0);
    let found = (Class::Standard, Signal::Pass, Pile::Passed);
    let Some(pack) = pack_of(&weighed, found) else {
        return Ok(false);
    };
    let text = register_twice(alloc, &pack)?;
    Ok(has_name(&text, written) == Some(true))
}

// The first name that is written otherwise.
fn wrong_name(alloc: Global) -> Result<Option<&'static [u8]>, AllocError> {
    for (name, written) in &NAMES {
        if !is_written(alloc, *name, *written)? {
            return Ok(Some(*name));
        }
    }
    Ok(None)
}

#[test]
fn names_in_quotes(rt: HostRuntime) -> Result<(), AllocError> {
    assert!(rt; wrong_name(rt.alloc())? == None);
    Ok(())
}

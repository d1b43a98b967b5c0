use crate::books::{MANY, Worked};
use crate::printing::{End, Paper, print_to};
use std::alloc::{AllocError, Global};
use std::test::Fail;

// A book, what is printed of it, and the text.
static PAPERS: [(Worked, Paper, &str); 5] = [
    (
        Worked::Corrected,
        Paper::Register,
        "pack,batch,product,lane,day,gross,net,class,signal,pile\n\
        6,A,rice250,1,2025-03-03,243.000,231.000,inadequate,pass,voided\n\
        8,A,rice250,1,2025-03-03,260.000,248.000,standard,reject held,rejected\n\
        10,A,rice250,1,2025-03-03,260.000,248.000,standard,pass,passed\n",
    ),
    (
        Worked::Opened,
        Paper::Register,
        "pack,batch,product,lane,day,gross,net,class,signal,pile\n",
    ),
    (
        Worked::Opened,
        Paper::Sheet(b"B"),
        "refused 14 BatchUnknown at 5\n",
    ),
    (
        Worked::Two,
        Paper::Sheet(b"A"),
        "batch A product rice250 nominal 250.000 tne 9.000\n\
        state running\n\
        readings 0 gross 0.000\n\
        passed 0 gross 0.000\n\
        rejected 0 gross 0.000\n\
        sampled 0 gross 0.000\n\
        voided 0 gross 0.000\n\
        population 0 net 0.000 nonstandard 0 inadequate 0\n\
        held no\n",
    ),
    (
        Worked::Two,
        Paper::Report,
        "batch J product juice nominal 1000.000 ml tne 15.000 ml density 1040.500\n\
        state running\n\
        readings 1 gross 1074.100\n\
        passed 1 gross 1074.100\n\
        rejected 0 gross 0.000\n\
        sampled 0 gross 0.000\n\
        voided 0 gross 0.000\n\
        population 1 net 1044.100 nonstandard 0 inadequate 0\n\
        held no\n\
        batch A product rice250 nominal 250.000 tne 9.000\n\
        state running\n\
        readings 0 gross 0.000\n\
        passed 0 gross 0.000\n\
        rejected 0 gross 0.000\n\
        sampled 0 gross 0.000\n\
        voided 0 gross 0.000\n\
        population 0 net 0.000 nonstandard 0 inadequate 0\n\
        held no\n\
        rows 9\n\
        readings 1 gross 1074.100\n\
        passed 1 gross 1074.100\n\
        rejected 0 gross 0.000\n\
        sampled 0 gross 0.000\n\
        voided 0 gross 0.000\n\
        batches running 2 ended 0 drawn 0 closed 0\n",
    ),
];

// The header of the register.
static HEADER: &[u8] = b"pack,batch,product,lane,day,gross,net,class,signal,pile\n";

// What follows the number in each record of the long book.
static RECORD: &[u8] = b",A,rice250,1,2025-03-03,260.000,250.000,standard,pass,passed\n";

// Whether a printing goes out whole, and is this text; and whether none of it goes out where the
// first write fails.
fn is_printed(alloc: Global, worked: Worked, paper: Paper, text: &str) -> Option<bool> {
    let (whole, output) = print_to(alloc, worked, paper, &[])?;
    let (cut, nothing) = print_to(alloc, worked, paper, &[1])?;
    Some(
        whole == End::Whole
            && output.bytes() == text.as_bytes()
            && cut == End::Cut
            && nothing.bytes().is_empty(),
    )
}

// The first text that is printed otherwise.
fn wrong_paper(alloc: Global) -> Option<&'static str> {
    for (worked, paper, text) in &PAPERS {
        if is_printed(alloc, *worked, *paper, *text) != Some(true) {
            return Some(*text);
        }
    }
    None
}

// How many records of the long book stand behind the header, where each of them is whole.
fn count_records(text: &[u8]) -> Option<u32> {
    let mut rest = text.strip_prefix(HEADER)?;
    for count in 0..=MANY {
        let Some(comma) = rest.iter().position(|byte| *byte == b',') else {
            return if rest.is_empty() { Some(count) } else { None };
        };
        rest = rest.split_at(comma).1.strip_prefix(RECORD)?;
    }
    None
}

// How a register of the long book ends where these writes fail, and how many records go out.
fn records_out(alloc: Global, fails: &[u32]) -> Option<(End, Option<u32>)> {
    let (end, output) = print_to(alloc, Worked::Long, Paper::Register, fails)?;
    Some((end, count_records(output.bytes())))
}

#[test]
fn papers(rt: HostRuntime) -> Result<(), AllocError> {
    assert!(rt; wrong_paper(rt.alloc()) == None);
    Ok(())
}

#[test]
fn many_records(rt: HostRuntime) -> Result<(), Fail> {
    assert_eq!(rt;
        records_out(rt.alloc(), &[]),
        Some((End::Whole, Some(MANY)))
    );
    assert_eq!(rt; records_out(rt.alloc(), &[1]), Some((End::Cut, None)));
    Ok(())
}

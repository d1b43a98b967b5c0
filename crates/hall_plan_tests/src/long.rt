use hall_plan::{MAX_PLAN, PlanError, read_plan};
use std::alloc::{AllocError, Global};

// Why so many bytes of a comment are no plan without lanes, where they are none.
fn comment_refused(
    alloc: Global,
    length: usize,
    byte: u8,
) -> Result<Option<PlanError>, AllocError> {
    let mut comment = vec![in alloc; byte; length]?;
    if let Some(first) = comment.first_mut() {
        *first = b'#';
    }
    Ok(read_plan(alloc, &comment, 0).err())
}

#[test]
fn a_plan_is_a_text_of_65_536_bytes(rt: HostRuntime) -> Result<(), AllocError> {
    let alloc = rt.alloc();
    assert_eq!(rt; MAX_PLAN, 65_536);
    assert_eq!(rt; comment_refused(alloc, 65_536, b'.')?, None);
    assert_eq!(rt; comment_refused(alloc, 65_537, b'.')?, Some(PlanError::Bad));
    assert_eq!(rt; comment_refused(alloc, 2, 0xff)?, Some(PlanError::Bad));
    Ok(())
}

// What a document begins with, what comes then so often, and what ends it.
type Deep = (&'static str, &'static str, usize, &'static str);

// Documents that nest deeper than `toml` reads.
const DEEP: [Deep; 5] = [
    ("a=", "[", 65_000, ""),
    ("a=", "{a=", 20_000, "1"),
    ("a", ".a", 32_000, "=1"),
    ("[a", ".a", 32_000, "]"),
    ("[[a", ".a", 32_000, "]]"),
];

// Why a document is no plan without lanes, where it is none.
fn deep_refused(alloc: Global, document: &Deep) -> Result<Option<PlanError>, AllocError> {
    let (first, copy, count, last) = *document;
    let mut text = String::from_str(alloc, first)?;
    for _turn in 0..count {
        text.push_str(copy)?;
    }
    text.push_str(last)?;
    Ok(read_plan(alloc, text.as_bytes(), 0).err())
}

#[test]
fn deep_documents_are_bad(rt: HostRuntime) -> Result<(), AllocError> {
    for document in &DEEP {
        assert_eq!(rt; deep_refused(rt.alloc(), document)?, Some(PlanError::Bad));
    }
    Ok(())
}

#[test]
fn errors_have_texts(rt: HostRuntime) -> Result<(), AllocError> {
    let text = format!(in rt.alloc(); "{}, {}", PlanError::Bad, PlanError::NoMemory)?;
    assert!(rt; text.as_str() == "this is no plan of these lanes, no memory for the plan");
    Ok(())
}

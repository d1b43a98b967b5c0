use crate::papers::check_with;
use paper_form::PaperFault;
use std::alloc::Global;

// Lines that aren't the next ones of a paper, by their places.
static BAD: [(usize, &str); 42] = [
    (0, "paper 2"),
    (0, "paper  1"),
    (0, "paper 1 "),
    (0, " paper 1"),
    (0, "paper 1\r"),
    (0, ""),
    (
        1,
        "batch T/1 product trial nominal 250.000 unit g density 1000.000 row 17",
    ),
    (
        1,
        "batch T1 product -trial nominal 250.000 unit g density 1000.000 row 17",
    ),
    (
        1,
        "batch T1 product trial nominal 4.999 unit g density 1000.000 row 17",
    ),
    (
        1,
        "batch T1 product trial nominal 10000.001 unit g density 1000.000 row 17",
    ),
    (
        1,
        "batch T1 product trial nominal 250.000 unit kg density 1000.000 row 17",
    ),
    (
        1,
        "batch T1 product trial nominal 250.000 unit g density 999.999 row 17",
    ),
    (
        1,
        "batch T1 product trial nominal 250.000 unit ml density 499.999 row 17",
    ),
    (
        1,
        "batch T1 product trial nominal 250.000 unit ml density 2000.001 row 17",
    ),
    (
        1,
        "batch T1 product trial nominal 250.000 unit g density 1000.000 row 0",
    ),
    (
        1,
        "batch T1 product trial nominal 250.000 unit g density 1000.000 row 1000001",
    ),
    (
        1,
        "batch T1 product trial nominal 250.000 unit g density 1000.000",
    ),
    (2, "tare 2025-02-29 10.000"),
    (2, "tare 2025-03-03 5000.001"),
    (2, "tare 2025-03-03 10.0000"),
    (2, "tare 2025-03-03 -10.000"),
    (2, "mode keep word 0"),
    (3, "pack 0 2025-03-03 261.014"),
    (3, "pack 1000001 2025-03-03 261.014"),
    (3, "pack 8 2025-03-03 30000.001"),
    (4, "pack 8 2025-03-03 260.587"),
    (4, "pack 7 2025-03-03 260.587"),
    (4, "tare 2025-03-04 10.000"),
    (5, "mode kept word 0"),
    (5, "mode keep word 18446744073709551616"),
    (5, "verdict released"),
    (6, "first 9 gross 260.587 empty 0.001"),
    (6, "first 9 unmeasured"),
    (6, "second 9 gross 260.587 empty 0.000"),
    (7, "pack 10 2025-03-03 261.014"),
    (8, "verdict"),
    (8, "verdict withheld"),
    (8, "verdict withheld mean contents"),
    (8, "verdict withheld mean mean"),
    (8, "verdict released mean"),
    (8, "first 8 gross 261.014 empty 0.001"),
    (8, "verdict  released"),
];

// The first of these lines that isn't bad at its place.
fn first_taken(alloc: Global) -> Option<&'static str> {
    for (place, line) in &BAD {
        if *place > 8 {
            return Some(*line);
        }
        match check_with(alloc, *place, *line) {
            Err(PaperFault::Line { line: at }) if at as usize == *place + 1 => {}
            _ => return Some(*line),
        }
    }
    None
}

#[test]
fn lines_of_other_forms_are_bad_at_themselves(rt: HostRuntime) {
    assert_eq!(rt; first_taken(rt.alloc()), None);
}

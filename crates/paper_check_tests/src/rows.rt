use crate::papers::{TRIAL, check_lines, check_with};
use book_words::Verdict;
use paper_check::check_paper;
use paper_form::PaperFault;

#[test]
fn the_trial_is_true(rt: HostRuntime) {
    assert_eq!(rt; check_lines(rt.alloc(), &TRIAL), Ok(Verdict::Released));
}

#[test]
fn another_verdict_is_wrong_at_the_last_line(rt: HostRuntime) {
    let answer = check_with(rt.alloc(), 8, "verdict withheld mean");
    assert_eq!(rt; answer, Err(PaperFault::Verdict { line: 9 }));
}

#[test]
fn samples_in_another_order_stray_at_the_first(rt: HostRuntime) {
    let mut lines = TRIAL;
    lines[6] = TRIAL[7];
    lines[7] = TRIAL[6];
    assert_eq!(rt;
        check_lines(rt.alloc(), &lines),
        Err(PaperFault::Draw { line: 7 })
    );
}

#[test]
fn a_batch_without_packs_has_three_lines(rt: HostRuntime) {
    let lines = [
        "paper 1",
        "batch B product p nominal 1000.000 unit ml density 917.500 row 5",
        "verdict empty",
    ];
    assert_eq!(rt; check_lines(rt.alloc(), &lines), Ok(Verdict::Empty));
}

#[test]
fn a_text_without_a_line_is_bad_at_the_first(rt: HostRuntime) {
    assert_eq!(rt;
        check_paper(rt.alloc(), b""),
        Err(PaperFault::Line { line: 1 })
    );
    assert_eq!(rt;
        check_paper(rt.alloc(), b"paper 1"),
        Err(PaperFault::Line { line: 1 })
    );
    assert_eq!(rt;
        check_paper(rt.alloc(), b"paper 1\n"),
        Err(PaperFault::Line { line: 2 })
    );
}

use crate::papers::{TRIAL, check_lines, check_with};
use paper_form::PaperFault;

#[test]
fn a_tare_of_no_pack_comes_before_a_pack_without_a_tare(rt: HostRuntime) {
    let answer = check_with(rt.alloc(), 2, "tare 2025-03-04 10.000");
    assert_eq!(rt; answer, Err(PaperFault::Tare { line: 3 }));
}

#[test]
fn a_pack_without_a_tare(rt: HostRuntime) {
    let answer = check_with(rt.alloc(), 3, "pack 8 2025-03-02 261.014");
    assert_eq!(rt; answer, Err(PaperFault::Tare { line: 4 }));
}

#[test]
fn fewer_than_a_hundred_packs_cannot_be_destroyed(rt: HostRuntime) {
    let answer = check_with(rt.alloc(), 5, "mode destroy word 0");
    assert_eq!(rt; answer, Err(PaperFault::Draw { line: 6 }));
}

#[test]
fn another_word_draws_other_packs(rt: HostRuntime) {
    let answer = check_with(rt.alloc(), 7, "first 9 gross 260.587 empty 0.000");
    assert_eq!(rt; answer, Err(PaperFault::Draw { line: 8 }));
}

#[test]
fn a_sample_that_is_too_short_strays_behind_it(rt: HostRuntime) {
    let answer = check_with(rt.alloc(), 7, "verdict released");
    assert_eq!(rt; answer, Err(PaperFault::Line { line: 9 }));
}

#[test]
fn a_plan_without_a_second_sample_has_no_word_for_one(rt: HostRuntime) {
    let answer = check_with(rt.alloc(), 7, "word 1");
    assert_eq!(rt; answer, Err(PaperFault::Draw { line: 8 }));
}

#[test]
fn a_smaller_gross_makes_the_verdict_wrong(rt: HostRuntime) {
    let answer = check_with(rt.alloc(), 4, "pack 9 2025-03-03 241.587");
    assert_eq!(rt; answer, Err(PaperFault::Verdict { line: 9 }));
}

#[test]
fn form_comes_before_a_tare_at_an_earlier_line(rt: HostRuntime) {
    let mut lines = TRIAL;
    lines[2] = "tare 2025-03-04 10.000";
    lines[8] = "verdict withheld";
    assert_eq!(rt;
        check_lines(rt.alloc(), &lines),
        Err(PaperFault::Line { line: 9 })
    );
}

#[test]
fn a_tare_comes_before_a_draw_and_a_draw_before_the_verdict(rt: HostRuntime) {
    let mut lines = TRIAL;
    lines[7] = "first 9 gross 260.587 empty 0.000";
    lines[8] = "verdict withheld mean";
    assert_eq!(rt;
        check_lines(rt.alloc(), &lines),
        Err(PaperFault::Draw { line: 8 })
    );
    lines[3] = "pack 8 2025-03-02 261.014";
    assert_eq!(rt;
        check_lines(rt.alloc(), &lines),
        Err(PaperFault::Tare { line: 4 })
    );
}

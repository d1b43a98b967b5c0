use crate::saying::says;
use script_lines::Line;

// Other words.
const OTHER_WORDS: &str = "\
Day 2025-03-03
SUMMARY
days 2025-03-03
day2025-03-03
weig 1 251
\0summary
summary\x0B
Work 1 b1
works 1 b1
@101 1 work 1 b1
@0 0 work 1 b1
@101 1 sheet b1
@101 1 pack 1
@101 1 lane 1
@101 1 sample b1
@101 1 summary
@101 1 acts 1
@101 1 packs b1 1
draw b1 Keep 7
draw b1 7 keep
draw b1 keeps 7
draw b1 destroyed 7";

// Other optional words.
const OTHER_OPTIONAL_WORDS: &str = "\
weigh 1 251 Opened
weigh 1 251 open
weigh 1 251 openedx
weigh 1 251 nothing
weigh 1 opened 251
stop 1 shut
stop opened
stop opened 1
product juice 1000 ML
product juice 1000 mL
product juice 1000 m
product juice 1000 mll
product juice 1000 g
product juice 1000ml
product juice ml
open J juice ml
measure 6 251 none";

// Numbers that are out of range or out of form.
const NUMBERS: &str = "\
start 256 b1
start 000000000000000000001 b1
start b1 1
work 0 b1
work 17 b1
work 256 b1
work 257 b1
work -1 b1
work b1 1
work 000000000000000000001 b1
weigh 256 251
weigh +1 251
stop 256
lane 256
lane -1
void 4294967296
measure 4294967296 251
pack 4294967296
pack b1
draw b1 keep 18446744073709551616
draw b1 keep 000000000000000000007
draw b1 keep 0x7
second b1 18446744073709551616
@65536 1 day 2025-03-03
@101 4294967296 day 2025-03-03
@000000000000000000101 1 day 2025-03-03
@-1 1 day 2025-03-03
@101 -1 day 2025-03-03
@101 day 2025-03-03
@ 1 day 2025-03-03
@101 @1 day 2025-03-03";

// Dates, masses and densities out of form.
const DATES_MASSES_AND_DENSITIES: &str = "\
day 2025-02-29
day 1969-12-31
day 2025-3-03
product rice250 -1
product juice -1 ml
tare rice250 1.5 2025-03-03
weigh 1 251.
weigh 1 251.0005
weigh 1 .5
weigh 1 123456789
measure 6 251.
measure 6 251 9.
open J juice 4294967.296
open J juice 99999999.999
open J juice -1
open J juice 1040.5000
open J juice water";

// Names of 33 bytes.
const LONG_NAMES: &str = "\
product 0123456789abcdef0123456789abcdefg 250
tare 0123456789abcdef0123456789abcdefg 2025-03-03 1
open 0123456789abcdef0123456789abcdefg rice250
open b1 0123456789abcdef0123456789abcdefg
start 1 0123456789abcdef0123456789abcdefg
work 1 0123456789abcdef0123456789abcdefg
end 0123456789abcdef0123456789abcdefg
close 0123456789abcdef0123456789abcdefg
sheet 0123456789abcdef0123456789abcdefg
sample 0123456789abcdef0123456789abcdefg";

// Too few words.
const TOO_FEW_WORDS: &str = "\
day
product
product rice250
tare rice250 2025-03-03
open b1
start 1
work
work 1
weigh
weigh 1
stop
void
end
draw b1
draw b1 keep
measure
measure 6
second
second b1
close
sheet
pack
lane
sample
@101
@101 1
@101 1 # day 2025-03-03
@101 1 stop";

// Too many words.
const TOO_MANY_WORDS: &str = "\
day 2025-03-03 2025-03-03
product rice250 250 ml ml
product rice250 250 ml 1
tare rice250 2025-03-03 1.5 1
open J juice 1000 1
start 1 b1 b2
work 1 b1 b2
weigh 1 251 opened opened
stop 1 stayed 1
void 6 7
end b1 b2
draw b1 keep 7 8
measure 6 251 9 1
second b1 7 8
close b1 b2
sheet b1 b2
pack 6 7
lane 1 2
sample b1 b2
summary now
summary # now
acts
acts b1
acts 1 2
acts -1
acts 4294967296
packs
packs b1
packs b1 -1
packs b1 4294967296
packs b1 1 2
@101 1 1 day 2025-03-03
@101 1 @101 1 day 2025-03-03";

const BAD: [&str; 7] = [
    OTHER_WORDS,
    OTHER_OPTIONAL_WORDS,
    NUMBERS,
    DATES_MASSES_AND_DENSITIES,
    LONG_NAMES,
    TOO_FEW_WORDS,
    TOO_MANY_WORDS,
];

// The first of some lines that isn't bad.
fn first_good(lines: &'static str) -> Option<&'static str> {
    for line in lines.lines() {
        if says(line.as_bytes()) != (Line::Bad, Line::Bad) {
            return Some(line);
        }
    }
    None
}

#[test]
fn lines_out_of_form_are_bad(rt: HostRuntime) {
    for lines in BAD {
        assert_eq!(rt; first_good(lines), None);
    }
}

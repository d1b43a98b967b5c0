ghost use Rattle.std.specs.Prelude.{Some, ◌≤◌, ◌^◌, ◌++◌, length, unsigned_abs};
ghost use Rattle.book_words.specs.Ranges.{IsSheetInRange};
ghost use Rattle.book_texts.specs.Appending.{HasRoom, Appended};
ghost use Rattle.batch_reports.specs.Texts.{quantity_text, density_text, goods_line, state_line, population_line, held_line, counts_line, first_line, second_line, test_lines, verdict_line, sheet_text};

use crate::tallies::{MAX_TALLIES, push_tallies};
use book_texts::{
    MAX_LABEL, MAX_NAMED, MAX_NUMBERED, MAX_VERDICT, MAX_WEIGHED, MAX_WORDS, append, append_named,
    append_numbered, append_weighed, mode_word, push_verdict, state_word, unit_word,
};
use book_words::{BatchState, Sheet, TestView, Unit, Verdict};

/// The most bytes of a quantity with its label and its unit.
const MAX_QUANTITY: usize = MAX_WEIGHED + MAX_WORDS;

/// The most bytes of the line of the goods: two names, two quantities, the density and the LF.
const MAX_GOODS: usize = 2 * MAX_NAMED + 2 * MAX_QUANTITY + MAX_WEIGHED + 1;

/// The most bytes of the line of the state: a label, a word and the LF.
const MAX_STATE: usize = MAX_LABEL + MAX_WORDS + 1;

/// The most bytes of the line of the population: three numbers, a mass and the LF.
const MAX_POPULATION_LINE: usize = 3 * MAX_NUMBERED + MAX_WEIGHED + 1;

/// The most bytes of the line `held`.
const MAX_HELD: usize = 9;

/// The most bytes of the counts of a sample: three numbers and the LF.
const MAX_COUNTS: usize = 3 * MAX_NUMBERED + 1;

/// The most bytes of the line of the first sample: a label, a word and the counts.
const MAX_FIRST: usize = MAX_LABEL + MAX_WORDS + MAX_COUNTS;

/// The most bytes of the lines of the test: those of its two samples.
const MAX_TEST: usize = MAX_FIRST + MAX_COUNTS;

/// The most bytes of the line of the verdict: a label, its words and the LF.
const MAX_VERDICT_LINE: usize = MAX_LABEL + MAX_VERDICT + 1;

/// The most bytes of the lines on a batch's packs.
const MAX_PILES: usize = MAX_TALLIES + MAX_POPULATION_LINE + MAX_HELD;

/// The most bytes of a sheet.
pub const MAX_SHEET: usize = MAX_GOODS + MAX_STATE + MAX_PILES + MAX_TEST + MAX_VERDICT_LINE;

/// Appends the state of a batch, in nine lines, and the lines of its test and of its verdict.
pub fn push_sheet(to: &mut Vec<u8>, sheet: &Sheet)
    requires room { HasRoom to.old MAX_SHEET }
    requires range { IsSheetInRange sheet.now }
    ensures { Appended to.old to.new (sheet_text sheet.now) MAX_SHEET }
{
    push_goods(to, sheet);
    push_state(to, sheet.state);
    push_tallies(
        to,
        &sheet.readings,
        &sheet.passed,
        &sheet.rejected,
        &sheet.sampled,
        &sheet.voided,
    );
    push_population(to, sheet);
    push_held(to, sheet.held);
    push_test(to, &sheet.test);
    push_closing(to, &sheet.verdict);
}

// Appends a line: a batch, its product, its nominal quantity and error, and by volume the density.
fn push_goods(to: &mut Vec<u8>, sheet: &Sheet)
    requires room { HasRoom to.old MAX_GOODS }
    requires range { IsSheetInRange sheet.now }
    ensures { Appended to.old to.new (goods_line sheet.now) MAX_GOODS }
{
    append_named(to, b"batch ", &sheet.batch);
    append_named(to, b" product ", &sheet.product);
    push_quantity(to, b" nominal ", &sheet.nominal, sheet.unit);
    push_quantity(to, b" tne ", &sheet.tne, sheet.unit);
    push_density(to, sheet.unit, sheet.density);
    append(to, b"\n");
}

// Appends a quantity: a mass in grams, or a volume in millilitres.
fn push_quantity(to: &mut Vec<u8>, label: &[u8], quantity: &i64, unit: Unit)
    requires room { HasRoom to.old MAX_QUANTITY }
    requires short { length label.now ≤ MAX_LABEL }
    requires range { unsigned_abs quantity.now ≤ 10 ^ 15 }
    ensures { Appended to.old to.new (label.now ++ quantity_text quantity.now unit) MAX_QUANTITY }
{
    append_weighed(to, label, quantity);
    append(to, unit_word(unit));
}

// Appends the density of goods by volume, in grams a litre.
fn push_density(to: &mut Vec<u8>, unit: Unit, density: u32)
    requires { HasRoom to.old MAX_WEIGHED }
    ensures { Appended to.old to.new (density_text unit density) MAX_WEIGHED }
{
    match unit {
        Unit::Mass => (),
        Unit::Volume => append_weighed(to, b" density ", &i64::from(density)),
    }
}

// Appends a line: the state of a batch.
fn push_state(to: &mut Vec<u8>, state: BatchState)
    requires { HasRoom to.old MAX_STATE }
    ensures { Appended to.old to.new (state_line state) MAX_STATE }
{
    append(to, b"state ");
    append(to, state_word(state));
    append(to, b"\n");
}

// Appends a line: the packs of the population, their nets, and how many fall short.
fn push_population(to: &mut Vec<u8>, sheet: &Sheet)
    requires room { HasRoom to.old MAX_POPULATION_LINE }
    requires range { IsSheetInRange sheet.now }
    ensures { Appended to.old to.new (population_line sheet.now) MAX_POPULATION_LINE }
{
    append_numbered(to, b"population ", sheet.population);
    append_weighed(to, b" net ", &sheet.net);
    append_numbered(to, b" nonstandard ", sheet.nonstandard);
    append_numbered(to, b" inadequate ", sheet.inadequate);
    append(to, b"\n");
}

// Appends a line: whether the batch is held.
fn push_held(to: &mut Vec<u8>, held: bool)
    requires { HasRoom to.old MAX_HELD }
    ensures { Appended to.old to.new (held_line held) MAX_HELD }
{
    if held {
        append(to, b"held yes\n");
    } else {
        append(to, b"held no\n");
    }
}

// Appends the lines of the test, once a sample was drawn.
fn push_test(to: &mut Vec<u8>, test: &Option<TestView>)
    requires { HasRoom to.old MAX_TEST }
    ensures { Appended to.old to.new (test_lines test.now) MAX_TEST }
{
    match test {
        None => (),
        Some(view) => push_samples(to, view),
    }
}

// Appends the line of the first sample, and that of the second.
fn push_samples(to: &mut Vec<u8>, test: &TestView)
    requires { HasRoom to.old MAX_TEST }
    ensures { Appended to.old to.new (first_line test.now ++ second_line test.now) MAX_TEST }
{
    push_first(to, test);
    push_second(to, test);
}

// Appends a line: the mode of the test, and the counts of its first sample.
fn push_first(to: &mut Vec<u8>, test: &TestView)
    requires { HasRoom to.old MAX_FIRST }
    ensures { Appended to.old to.new (first_line test.now) MAX_FIRST }
{
    append(to, b"test ");
    append(to, mode_word(test.mode));
    push_counts(to, b" first ", test.first, test.measured1, test.d1);
}

// Appends a line: the counts of the second sample, where one was drawn.
fn push_second(to: &mut Vec<u8>, test: &TestView)
    requires { HasRoom to.old MAX_COUNTS }
    ensures { Appended to.old to.new (second_line test.now) MAX_COUNTS }
{
    if test.second != 0 {
        push_counts(to, b"second ", test.second, test.measured2, test.d2);
    }
}

// Appends how many packs of a sample were drawn, measured and found defective, and an LF.
fn push_counts(to: &mut Vec<u8>, label: &[u8], drawn: u32, measured: u32, defective: u32)
    requires room { HasRoom to.old MAX_COUNTS }
    requires short { length label.now ≤ MAX_LABEL }
    ensures { Appended to.old to.new (counts_line label.now drawn measured defective) MAX_COUNTS }
{
    append_numbered(to, label, drawn);
    append_numbered(to, b" measured ", measured);
    append_numbered(to, b" defective ", defective);
    append(to, b"\n");
}

// Appends the line of the verdict, once the batch is closed.
fn push_closing(to: &mut Vec<u8>, verdict: &Option<Verdict>)
    requires { HasRoom to.old MAX_VERDICT_LINE }
    ensures { Appended to.old to.new (verdict_line verdict.now) MAX_VERDICT_LINE }
{
    match verdict {
        None => (),
        Some(told) => push_verdict_line(to, told),
    }
}

// Appends a line: a verdict.
fn push_verdict_line(to: &mut Vec<u8>, verdict: &Verdict)
    requires { HasRoom to.old MAX_VERDICT_LINE }
    ensures { Appended to.old to.new (verdict_line (Some verdict.now)) MAX_VERDICT_LINE }
{
    append(to, b"verdict ");
    push_verdict(to, verdict);
    append(to, b"\n");
}

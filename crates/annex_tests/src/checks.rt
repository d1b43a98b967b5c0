use annex_tables::{MAX_NOMINAL, MIN_NOMINAL, Mode, plan};
use hall_limits::{MAX_DENSITY, MAX_GROSS, MAX_TARE, MIN_DENSITY};
use reference_test::{Contents, Sums, contents_check, mean_check, mean_check_at};
use std::test::Fail;

// Up to three values in mg and how often each was added; the nominal quantity in microlitres; the
// density in mg a litre; the thousandths; what is answered.
type MeanRow = ([(i64, u32); 3], i64, u32, u32, bool);

const NONE: (i64, u32) = (0, 0);

// The first two by hand: at 250 344 the sides are 3 270 553 600 000 000 and 3 276 800 000 000 000;
// at 250 343 the left is 3 280 532 400 000 000. The others by a Python script over the list of
// values; in two pairs the sides are equal, and the last six are at their edges.
const MEANS: [MeanRow; 24] = [
    (
        [(250_344, 10), (248_344, 10), NONE],
        250_000,
        1_000_000,
        640,
        true,
    ),
    (
        [(250_343, 10), (248_343, 10), NONE],
        250_000,
        1_000_000,
        640,
        false,
    ),
    ([(250_000, 20), NONE, NONE], 250_000, 1_000_000, 640, true),
    ([(249_999, 20), NONE, NONE], 250_000, 1_000_000, 640, false),
    (
        [(250_000, 2), (249_998, 2), (249_999, 1)],
        250_000,
        1_000_000,
        1_000,
        true,
    ),
    (
        [(250_000, 2), (249_998, 2), (249_999, 1)],
        250_000,
        1_000_000,
        999,
        false,
    ),
    (
        [(250_001, 2), (249_997, 2), (249_999, 1)],
        250_000,
        1_000_000,
        500,
        true,
    ),
    (
        [(250_001, 2), (249_997, 2), (249_999, 1)],
        250_000,
        1_000_000,
        499,
        false,
    ),
    ([(250_000, 1), NONE, NONE], 250_000, 1_000_000, 1_000, true),
    ([(249_999, 1), NONE, NONE], 250_000, 1_000_000, 1_000, false),
    (
        [(250_000, 1), (249_999, 1), NONE],
        250_000,
        1_000_000,
        0,
        false,
    ),
    (
        [(-5_000_000, 60), (30_000_000, 40), NONE],
        10_000_000,
        1_000_000,
        59,
        true,
    ),
    (
        [(-5_000_000, 60), (30_000_000, 40), NONE],
        10_000_000,
        1_000_000,
        58,
        false,
    ),
    (
        [(-5_000_000, 99), (30_000_000, 1), NONE],
        5_000,
        1_000_000,
        1_000,
        false,
    ),
    (
        [(30_000_000, 57), (-5_000_000, 43), NONE],
        10_000_000,
        1_000_000,
        0,
        true,
    ),
    (
        [(-5_000_000, 100), NONE, NONE],
        10_000_000,
        1_000_000,
        1_000,
        false,
    ),
    (
        [(1_040_000, 20), NONE, NONE],
        1_000_000,
        1_040_000,
        640,
        true,
    ),
    (
        [(1_039_999, 20), NONE, NONE],
        1_000_000,
        1_040_000,
        640,
        false,
    ),
    (
        [(1_040_844, 10), (1_038_844, 10), NONE],
        1_000_000,
        1_040_500,
        640,
        true,
    ),
    (
        [(1_040_843, 10), (1_038_843, 10), NONE],
        1_000_000,
        1_040_500,
        640,
        false,
    ),
    ([(2_500, 2), NONE, NONE], 5_000, 500_000, 0, true),
    ([(2_499, 2), NONE, NONE], 5_000, 500_000, 1_000, false),
    (
        [(19_999_999, 1), (20_000_001, 1), NONE],
        10_000_000,
        2_000_000,
        0,
        true,
    ),
    (
        [(19_999_999, 2), NONE, NONE],
        10_000_000,
        2_000_000,
        1_000,
        false,
    ),
];

// Adds a value so often, as long as it is one and there is room.
fn add_often(sums: &mut Sums, value: i64, times: u32) {
    if value < -MAX_TARE || value > MAX_GROSS {
        return;
    }
    for _turn in 0..times {
        if sums.number() < 100 {
            sums.add(value);
        }
    }
}

// Whether the mean check of a row answers so; at the density of goods by mass that of goods by mass
// too.
fn is_mean(sums: &Sums, nominal: i64, density: u32, k1000: u32, wanted: bool) -> bool {
    if sums.number() == 0 || nominal < MIN_NOMINAL || nominal > MAX_NOMINAL || k1000 > 1_000 {
        return false;
    }
    if density < MIN_DENSITY || density > MAX_DENSITY {
        return false;
    }
    let by_mass = density != 1_000_000 || mean_check(sums, nominal, k1000) == wanted;
    by_mass && mean_check_at(sums, nominal, density, k1000) == wanted
}

// The first row whose check answers otherwise, by its quantity, density and thousandths.
fn wrong_mean() -> Option<(i64, u32, u32)> {
    for ([first, second, third], nominal, density, k1000, wanted) in MEANS {
        let mut sums = Sums::new();
        add_often(&mut sums, first.0, first.1);
        add_often(&mut sums, second.0, second.1);
        add_often(&mut sums, third.0, third.1);
        if !is_mean(&sums, nominal, density, k1000, wanted) {
            return Some((nominal, density, k1000));
        }
    }
    None
}

// Each number of defective packs at its edges, by the plans of 100 and of 99 packs kept and of 100
// destroyed.
const CONTENTS: [(u32, Mode, u32, Option<u32>, Contents); 15] = [
    (100, Mode::Keep, 1, None, Contents::Accept),
    (100, Mode::Keep, 1, Some(30), Contents::Accept),
    (100, Mode::Keep, 2, None, Contents::Second),
    (100, Mode::Keep, 2, Some(2), Contents::Accept),
    (100, Mode::Keep, 2, Some(3), Contents::Reject),
    (100, Mode::Keep, 2, Some(u32::MAX), Contents::Reject),
    (100, Mode::Keep, 3, None, Contents::Reject),
    (100, Mode::Keep, 3, Some(0), Contents::Reject),
    (99, Mode::Keep, 2, None, Contents::Accept),
    (99, Mode::Keep, 3, None, Contents::Reject),
    (39, Mode::Keep, 1, None, Contents::Reject),
    (40, Mode::Keep, 1, None, Contents::Accept),
    (100, Mode::Destroy, 1, None, Contents::Accept),
    (100, Mode::Destroy, 2, None, Contents::Reject),
    (3_201, Mode::Keep, 6, None, Contents::Second),
];

// The first row whose check answers otherwise, by the packs and the defective ones among them.
fn wrong_contents() -> Option<(u32, u32)> {
    for (n, mode, d1, d2, wanted) in CONTENTS {
        match plan(n, mode) {
            Ok(plan) if contents_check(&plan, d1, d2) == wanted => (),
            _ => return Some((n, d1)),
        }
    }
    None
}

#[test]
fn checks_of_the_reference_test(rt: HostRuntime) -> Result<(), Fail> {
    assert!(rt; wrong_mean().is_none());
    assert!(rt; wrong_contents().is_none());
    Ok(())
}

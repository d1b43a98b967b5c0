ghost use Rattle.std.specs.Prelude.{◌≡◌, ◌≤◌, ◌<◌, ◌^◌, ◌+◌, ◌++◌, ◌∷◌, [], ◌≤ℤ◌, ℤ, List, true, cond, length, count_by};
ghost use Rattle.std.specs.List.{list_all};
ghost use Rattle.annex_tables.specs.declared.TheConstants.{MIN_NOMINAL, MAX_NOMINAL, MAX_POPULATION};
ghost use Rattle.hall_limits.specs.declared.TheConstants.{MIN_DENSITY, MAX_DENSITY};
ghost use Rattle.annex_tables.specs.Errors.{IsNominal};
ghost use Rattle.reference_test.specs.Means.{total, sums_of, mean_accepts};
ghost use Rattle.book_words.specs.Classes.{is_below};
ghost use Rattle.book_words.specs.Verdicts.{average_by};
ghost use Rattle.paper_check.specs.Keyed.{is_mass};

use reference_test::{Sums, UNIT_DENSITY, mean_check_at};

// Whether a mass in mg is below a limit at a density.
fn is_below(density: u32, limit: i64, mass: i64) -> bool
    ensures { result ≡ is_below density limit mass }
{
    i128::from(UNIT_DENSITY) * i128::from(mass) < i128::from(density) * i128::from(limit)
}

// The same of a mass and a limit that stand elsewhere.
fn is_light(density: u32, limit: &i64, mass: &i64) -> bool
    ensures { result ≡ is_below density limit.now mass.now }
{
    is_below(density, *limit, *mass)
}

// A count, and one more where a test holds.
fn one_more_if(count: u32, test: bool) -> u32
    requires { count < u32.MAX }
    ensures { result ≡ count + cond test 1 0 }
{
    if test { count + 1 } else { count }
}

/// How many of some masses in mg are below a limit at a density.
pub fn count_below(masses: &[i64], density: u32, limit: &i64) -> u32
    requires few { length masses.now < 2 ^ 32 }
    ensures value { result ≡ count_by (is_below density limit.now) masses.now }
    ensures most { result ≤ length masses.now }
{
    let mut count = 0;
    for mass in masses {
        count = one_more_if(count, is_light(density, limit, mass));
    }
    count
}

/// The sum of at most 10 000 masses in mg.
pub fn total_of(masses: &[i64]) -> i64
    requires range { list_all is_mass masses.now ≡ true }
    requires few { length masses.now ≤ MAX_POPULATION }
    ensures { result ≡ total masses.now }
{
    let mut sum = 0;
    for mass in masses {
        sum += *mass;
    }
    sum
}

// Adds one more mass in mg to some sums.
fn add_mass(sums: &mut Sums, mass: &i64)
    requires room { sums.old.number < 100 }
    requires range { is_mass mass.now ≡ true }
    ensures added { (values : List ℤ)
        → sums.old ≡ sums_of values → sums.new ≡ sums_of (values ++ mass.now ∷ []) }
    ensures counted { sums.new.number ≡ sums.old.number + 1 }
{
    sums.add(*mass);
}

// The sums of at most 99 masses in mg.
fn sums_of(masses: &[i64]) -> Sums
    requires range { list_all is_mass masses.now ≡ true }
    requires few { length masses.now ≤ 99 }
    ensures { result ≡ sums_of masses.now }
{
    let mut sums = Sums::new();
    for mass in masses {
        add_mass(&mut sums, mass);
    }
    sums
}

// Whether the mean of some contents at a density is accepted.
fn is_mean_right(sums: &Sums, nominal: i64, density: u32, k1000: u32) -> bool
    requires nominal { IsNominal nominal }
    requires least { MIN_DENSITY ≤ density }
    requires greatest { density ≤ MAX_DENSITY }
    requires part { k1000 ≤ 1000 }
    ensures { (values : List ℤ) → sums.now ≡ sums_of values
        → result ≡ mean_accepts values nominal density k1000 }
{
    sums.number() == 0 || mean_check_at(sums, nominal, density, k1000)
}

/// Whether so many packs that weigh together so many mg reach a nominal quantity at a density.
pub fn is_reached(number: u32, density: u32, nominal: i64, net: i64) -> bool
    requires least { MIN_NOMINAL ≤ℤ nominal }
    requires greatest { nominal ≤ℤ MAX_NOMINAL }
    ensures { result ≡ average_by number density nominal net }
{
    let wanted = i128::from(number) * i128::from(density) * i128::from(nominal);
    wanted <= i128::from(UNIT_DENSITY) * i128::from(net)
}

/// The mean check of Annex II over at most 99 contents in mg.
pub fn mean_accepts(masses: &[i64], nominal: i64, density: u32, k1000: u32) -> bool
    requires range { list_all is_mass masses.now ≡ true }
    requires few { length masses.now ≤ 99 }
    requires nominal { IsNominal nominal }
    requires least { MIN_DENSITY ≤ density }
    requires greatest { density ≤ MAX_DENSITY }
    requires part { k1000 ≤ 1000 }
    ensures { result ≡ mean_accepts masses.now nominal density k1000 }
{
    is_mean_right(&sums_of(masses), nominal, density, k1000)
}

ghost use Rattle.std.specs.Prelude.{◌≡◌, ◌+◌, ◌<◌, ◌≤◌, ◌≤ℤ◌, ◌-ℤ◌, ◌*ℤ◌, [], ◌∷◌, ◌++◌, List, ℤ, pos, neg_ℤ, unsigned_abs};
ghost use Rattle.hall_limits.specs.declared.TheConstants.{MAX_DENSITY, MAX_GROSS, MAX_TARE};
ghost use Rattle.annex_tables.specs.Errors.{IsNominal};
ghost use Rattle.reference_test.specs.Means.{square, sums_of};

use std::marker::Model;

/// What the contents check says of a batch.
#[derive(Clone, Copy, PartialEq, Eq)]
pub enum Contents {
    /// There are few enough defective packs.
    Accept,
    /// There are too many defective packs.
    Reject,
    /// The first sample doesn't decide: the second is needed.
    Second,
}

/// The number of at most 100 values in mg, their sum, and the sum of their squares.
#[derive(Clone, Copy)]
pub struct Sums {
    number: u32,
    values: i64,
    squares: i64,
}

// Clauses see the three numbers.
impl Model for Sums {
    ghost use Rattle.reference_test.specs.Means.{PowerSums, AreBounded};

    ghost Value = { PowerSums };

    ghost view = { λ sums. record {
      number = sums.number;
      sum_of_values = sums.values;
      sum_of_squares = sums.squares;
    } };

    ghost invariant = { λ sums. AreBounded sums.number sums.values sums.squares };

    ghost inverse = { λ sums. record {
      number = sums.number;
      values = sums.sum_of_values;
      squares = sums.sum_of_squares;
    } };
}

impl Sums {
    /// The sums of no value.
    pub fn new() -> Sums
        ensures { result ≡ sums_of [] }
    {
        Sums {
            number: 0,
            values: 0,
            squares: 0,
        }
    }

    /// How many values were added.
    pub fn number(&self) -> u32
        ensures value { result ≡ self.now.number }
        ensures few { result ≤ 100 }
    {
        self.number
    }

    /// Adds one more value in mg, -5 000 000 to 30 000 000: actual contents, a gross less a tare.
    pub fn add(&mut self, x: i64)
        requires room { self.old.number < 100 }
        requires least { neg_ℤ MAX_TARE ≤ℤ x }
        requires greatest { x ≤ℤ MAX_GROSS }
        ensures added { (values : List ℤ)
            → self.old ≡ sums_of values → self.new ≡ sums_of (values ++ x ∷ []) }
        ensures counted { self.new.number ≡ self.old.number + 1 }
    {
        self.number += 1;
        self.values += x;
        self.squares += x * x;
    }

    /// A million times how far the values in mg fall short of as many times the nominal quantity in
    /// microlitres at a density in mg a litre; negative where they don't.
    pub(crate) fn shortfall(&self, nominal: i64, density: u32) -> i128
        requires in_range { IsNominal nominal }
        requires greatest { density ≤ MAX_DENSITY }
        ensures value { result
            ≡ pos self.now.number *ℤ pos density *ℤ nominal
            -ℤ pos 1000000 *ℤ self.now.sum_of_values }
        ensures bounded { unsigned_abs result ≤ 5000000000000000 }
    {
        i128::from(self.number) * i128::from(density) * i128::from(nominal)
            - 1_000_000 * i128::from(self.values)
    }

    /// The squares of how far n times each of the n values is from the sum of the values, added up.
    pub(crate) fn squared_deviations(&self) -> i128
        ensures value { result ≡ pos self.now.number
            *ℤ (pos self.now.number *ℤ self.now.sum_of_squares -ℤ square self.now.sum_of_values) }
        ensures bounded { unsigned_abs result ≤ 1800000000000000000000 }
    {
        let number = i128::from(self.number);
        let values = i128::from(self.values);
        let squares = i128::from(self.squares);
        number * (number * squares - values * values)
    }
}

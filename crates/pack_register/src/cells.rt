ghost use Rattle.std.specs.Prelude.{◌≡◌, ◌≤◌, ◌^◌, OnOk, decimal, unsigned_abs};
ghost use Rattle.hall_units.specs.Days.{IsDay, day_text};
ghost use Rattle.hall_units.specs.Grams.{gram_text};
ghost use Rattle.book_words.specs.Ranges.{IsPackInRange};
ghost use Rattle.pack_register.specs.Writing.{AreCellsOf};

use book_words::PackView;
use hall_units::{print_day, print_grams, push_count};
use std::alloc::{AllocError, Global};

/// The texts of what a pack has in numbers: its own, that of its lane, its day and its masses. The
/// next pack is printed into the same memory.
#[derive(Drop)]
pub struct Cells {
    pub pack: Vec<u8>,
    pub lane: Vec<u8>,
    pub day: Vec<u8>,
    pub gross: Vec<u8>,
    pub net: Vec<u8>,
}

impl Cells {
    /// Cells without a text. They take no memory yet.
    pub fn new(alloc: Global) -> Cells {
        Cells {
            pack: Vec::new(alloc),
            lane: Vec::new(alloc),
            day: Vec::new(alloc),
            gross: Vec::new(alloc),
            net: Vec::new(alloc),
        }
    }

    /// Prints what a pack has in numbers.
    pub fn print(&mut self, pack: &PackView) -> Result<(), AllocError>
        requires { IsPackInRange pack.now }
        ensures { OnOk result (AreCellsOf pack.now self.new) }
    {
        print_count(&mut self.pack, pack.pack)?;
        print_count(&mut self.lane, u32::from(pack.lane))?;
        print_date(&mut self.day, &pack.day)?;
        print_mass(&mut self.gross, &pack.gross)?;
        print_mass(&mut self.net, &pack.net)?;
        Ok(())
    }
}

// Prints a count alone.
fn print_count(to: &mut Vec<u8>, count: u32) -> Result<(), AllocError>
    ensures { OnOk result (to.new.items ≡ decimal count) }
{
    to.clear();
    push_count(to, count)?;
    Ok(())
}

// Prints a day alone, as a date.
fn print_date(to: &mut Vec<u8>, day: &i32) -> Result<(), AllocError>
    requires { IsDay day.now }
    ensures { OnOk result (to.new.items ≡ day_text day.now) }
{
    to.clear();
    print_day(*day, to)?;
    Ok(())
}

// Prints a mass alone, in grams.
fn print_mass(to: &mut Vec<u8>, mg: &i64) -> Result<(), AllocError>
    requires { unsigned_abs mg.now ≤ 10 ^ 15 }
    ensures { OnOk result (to.new.items ≡ gram_text mg.now) }
{
    to.clear();
    print_grams(*mg, to)?;
    Ok(())
}

use std::marker::Model;

/// What a receiver makes of a line.
#[derive(Clone, Copy, PartialEq, Eq)]
pub enum Heard {
    /// Its item is the next one, and is taken.
    Take,
    /// Its item was taken before.
    Again,
    /// An item before it isn't taken yet, so it is passed over.
    Ahead,
}

/// Who hears the lines of a scale. It knows how many items it has taken.
#[derive(Drop)]
pub struct Receiver {
    taken: u32,
}

impl Model for Receiver {
    ghost use Rattle.std.specs.Prelude.{ℕ};

    ghost Value = { ℕ };

    ghost view = { λ receiver. receiver.taken };
}

impl Receiver {
    ghost use Rattle.std.specs.Prelude.{◌≡◌};
    ghost use Rattle.remote_cell.specs.Exchanges.{heard, taken_behind};

    /// A receiver that has taken nothing yet. It takes no memory.
    pub fn new() -> Self
        ensures { result ≡ 0 }
    {
        Receiver { taken: 0 }
    }

    /// How many items were taken.
    pub fn taken(&self) -> u32
        ensures { result ≡ self.now }
    {
        self.taken
    }

    /// Hears a line: its item is taken exactly where its number is one more than that of the items
    /// taken, and was taken before exactly where it isn't more than that.
    pub fn line(&mut self, number: u32) -> Heard
        ensures heard { result ≡ heard self.old number }
        ensures taken { self.new ≡ taken_behind self.old result }
    {
        if number <= self.taken {
            return Heard::Again;
        }
        if u64::from(number) > u64::from(self.taken) + 1 {
            return Heard::Ahead;
        }
        self.taken = number;
        Heard::Take
    }
}

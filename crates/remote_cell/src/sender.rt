use crate::items::{Item, Items};
use std::marker::Model;

/// A scale as the receiver of its lines may think of it: what it has to send, and how many items it
/// knows to be taken.
#[derive(Drop)]
pub struct Sender {
    items: Items,
    acknowledged: u32,
}

impl Model for Sender {
    ghost use Rattle.std.specs.Prelude.{◌≤◌, length};
    ghost use Rattle.remote_cell.specs.Exchanges.{Sending};

    ghost Value = { Sending };

    ghost view = { λ s. record { items = s.items; acknowledged = s.acknowledged } };

    ghost invariant = { λ s. s.acknowledged ≤ length s.items };
}

impl Sender {
    ghost use Rattle.std.specs.Prelude.{◌≡◌};
    ghost use Rattle.remote_cell.specs.Exchanges.{Sending, said_by, is_said, after_acknowledgement};

    /// A sender of these items, of which none was acknowledged. It takes no memory.
    pub fn new(items: Items) -> Self
        ensures { result ≡ record { items = items; acknowledged = 0 } }
    {
        Sender {
            items,
            acknowledged: 0,
        }
    }

    /// The first item that wasn't acknowledged, with its number, counted from 1; `None` exactly
    /// where all were.
    pub fn say(&self) -> Option<(u32, Item)>
        ensures { result ≡ said_by self.now }
    {
        let item = self.items.get(self.acknowledged)?;
        Some((self.acknowledged + 1, item))
    }

    /// Hears an acknowledgement: true exactly where its number is that of `say`, whose item then
    /// counts as acknowledged. Nothing changes otherwise.
    pub fn ack(&mut self, number: u32) -> bool
        ensures said { result ≡ is_said self.old number }
        ensures acknowledged { self.new ≡ after_acknowledgement self.old number }
    {
        match self.say() {
            Some((said, _)) if said == number => {
                self.acknowledged = number;
                true
            }
            _ => false,
        }
    }
}

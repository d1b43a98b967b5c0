ghost use Rattle.std.specs.Prelude.{List, [], ◌∷◌};
ghost use Rattle.book_words.specs.declared.act.Ask.{Ask as Asked};
ghost use Rattle.book_words.specs.Callers.{Known, IsAsked, IsReached};

use crate::act::Ask;
use crate::reply::{Answered, Refused};

/// Why an ask isn't answered by the book's reply.
#[derive(Clone, Copy, PartialEq, Eq)]
pub enum AskError {
    /// The book refuses it.
    Refused(Refused),
    /// The disk failed: nothing is acknowledged.
    DiskFault,
    /// There is no memory for it: nothing was done.
    NoMemory,
}

/// Somebody who asks the book: a script, the worker of a lane, or a door of the office.
pub trait Caller {
    /// What is known of it: the list that it has seen, its own entries among them, how many faults
    /// of the disk it was answered, the most rows of the book, and the number that its entries
    /// bear.
    ghost known: { Self → Known };

    /// One caller is reached from another by just these asks, in this order.
    ghost later: { Self → Self → List Asked → Type 0 };

    /// Asks the book. The answer is right in what the caller has then seen, which begins with what
    /// it had seen before and is legal. Its own entries grow by that of a new act alone, and its
    /// faults by one at a `DiskFault` alone. `DiskFault` comes only where the ask would add an
    /// entry, and `NoMemory` only there and at a question for a sample or a page.
    fn ask(&mut self, ask: &Ask) -> Result<Answered, AskError>
        ensures asked { IsAsked (known self.old) (known self.new) ask.now result }
        ensures later { later self.old self.new (ask.now ∷ []) };

    /// It is reached from itself by no ask, and by asks one after another.
    ghost reached: { IsReached later };
}

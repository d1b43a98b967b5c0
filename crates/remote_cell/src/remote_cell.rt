use crate::hearing::Hearing;
use crate::turns::next_item;
use device_facts::counted_once_more;
use disk_core::{Door, Failed};
use lane_worker::{Cell, CellNext};
use std::marker::Model;

/// A cell whose scale sends numbered lines over the connections of a door: `N GRAMS`, `N end` or,
/// where it takes batches, `N batch NAME`, of at most `MAX_LINE` bytes, and an LF. The line of the
/// next number is taken; one that was taken before is acknowledged again by `ack n`, where `n` is the
/// number of items taken, and one that is ahead is passed over. A weight or a batch is acknowledged
/// when the next item is asked for, so that its rows are kept by then, or its lane has ended. A
/// connection is left at its end and where it fails; a line that this cuts is dropped.
///
/// What isn't a line is bad, and so is the end of the connections before `end` was taken; from then
/// on, and behind `end`, each call gives the same and makes no call on the door. After `MAX_TURNS`
/// whole lines and connections a call gives `Spent`, and the next one goes on.
#[derive(Drop)]
pub struct RemoteCell<O: Door> {
    door: O,
    hearing: Hearing,
    faults: u64,
}

impl<O: Door> Model for RemoteCell<O> {
    ghost use Rattle.remote_cell.specs.Told.{RemoteState, port, IsSound};

    ghost Value = { RemoteState O };

    ghost view = { λ c. record { door = c.door; hearing = c.hearing; faults = c.faults } };

    ghost invariant = { λ c. IsSound (port O.Source O.connections O.missed c.door) c.hearing };
}

impl<O: Door> RemoteCell<O> {
    ghost use Rattle.std.specs.Prelude.{◌≡◌, [], IfSome};
    ghost use Rattle.disk_core.specs.Doors.{served};
    ghost use Rattle.remote_cell.specs.Told.{silent};

    /// A cell over a door, which has served no connection yet where it tells its bytes. It takes
    /// batches, or a line that names one is bad. It takes no memory.
    pub fn new(door: O, batches: bool) -> Self
        requires { IfSome (O.connections door) (λ all. served all ≡ []) }
        ensures { result ≡ record { door = door; hearing = silent batches; faults = 0 } }
    {
        RemoteCell {
            door,
            hearing: Hearing::new(batches),
            faults: 0,
        }
    }

    /// Gives the door back. It takes no memory.
    pub fn back(self) -> O
        ensures { result ≡ self.door }
    {
        self.door
    }
}

impl<O: Door> Cell for RemoteCell<O> {
    ghost use Rattle.std.specs.Prelude.{◌≡◌, None, IfSome, Ok};
    ghost use Rattle.device_facts.specs.Count.{CountsFault};
    ghost use Rattle.device_facts.specs.Frame.{NothingElse};
    ghost use Rattle.lane_worker.specs.Cells.{GivesNext};
    ghost use Rattle.remote_cell.specs.Told.{port, site, feed_of, IsSound};
    ghost use Rattle.remote_cell.specs.Heard.{HasHeard};

    ghost feed = { λ c. feed_of (site (port O.Source O.connections O.missed c.door) c.hearing) };

    ghost faults = { λ c. c.faults };

    ghost keeps_rest = { NothingElse };

    /// The next item. The own count of faults rises exactly where the next connection couldn't be
    /// admitted, which is `Failed`.
    fn next(&mut self) -> Result<CellNext, Failed>
        ensures item { GivesNext
            (feed_of (site (port O.Source O.connections O.missed self.old.door) self.old.hearing))
            (feed_of (site (port O.Source O.connections O.missed self.new.door) self.new.hearing))
            result }
        ensures cause { CountsFault self.old.faults self.new.faults result }
        ensures sound { IsSound (port O.Source O.connections O.missed self.new.door) self.new.hearing }
        ensures over { IfSome self.old.hearing.over (λ item. (result ≡ Ok item)
            × (self.new.door ≡ self.old.door) × (self.new.hearing ≡ self.old.hearing)) }
        ensures heard { self.old.hearing.over ≡ None
            → HasHeard (site (port O.Source O.connections O.missed self.old.door) self.old.hearing)
            (site (port O.Source O.connections O.missed self.new.door) self.new.hearing) result }
    {
        let item = next_item(&mut self.door, &mut self.hearing);
        if item.is_err() {
            self.faults = counted_once_more(self.faults);
        }
        item
    }

    // Whether it takes batches is said where it is made.
    fn expect_batches(&mut self) {}
}

use crate::scale_door::ScaleDoor;
use device_facts::counted_once_more;
use disk_core::Failed;
use lane_worker::{Cell, CellNext};
use remote_cell::RemoteCell;
use std::marker::Model;
use stop_file::StopFile;
use tcp_door::TcpDoor;

/// The port of a scale, which standard error is told of.
type PortDoor = ScaleDoor<TcpDoor<HostRuntime>, HostRuntime>;

/// A cell that hears its scale at a port; what names a batch is bad until its lane expects that.
/// Where somebody asks that the hall end it has ended, once its port takes no more: the last weight
/// is acknowledged by then.
#[derive(Drop)]
pub struct PortCell {
    // Its port, until the first item is asked for.
    door: Option<PortDoor>,
    cell: Option<RemoteCell<PortDoor>>,
    batches: bool,
    stop: StopFile,
    faults: u64,
}

impl Model for PortCell {
    ghost use Rattle.std.specs.Prelude.{option_map};
    ghost use Rattle.tcp_door.specs.OpenDoors.{OpenDoor};
    ghost use Rattle.hall_devices.specs.Named.{PortState};

    ghost Value = { PortState };

    ghost view = { λ c. record {
      awaits = option_map (λ (door : OpenDoor). door.asked_port) c.door;
      faults = c.faults;
    } };
}

impl PortCell {
    ghost use Rattle.std.specs.Prelude.{◌≡◌, Some};

    /// A cell over the port of a scale, which has failed nowhere yet.
    pub fn new(door: PortDoor, stop: StopFile) -> Self
        ensures { result ≡ record { awaits = Some door.asked_port; faults = 0 } }
    {
        PortCell {
            door: Some(door),
            cell: None,
            batches: false,
            stop,
            faults: 0,
        }
    }

    // The next item that its scale sends.
    fn hear_next(&mut self) -> Result<CellNext, Failed>
        ensures { self.new.faults ≡ self.old.faults }
    {
        if let Some(door) = self.door.take() {
            self.cell = Some(RemoteCell::new(door, self.batches));
        }
        match &mut self.cell {
            Some(cell) => cell.next(),
            None => Err(Failed),
        }
    }

    // The next item, or the end where the port takes no more since somebody asks for that.
    fn next_item(&mut self) -> Result<CellNext, Failed>
        ensures { self.new.faults ≡ self.old.faults }
    {
        match self.hear_next() {
            Ok(CellNext::Bad { line: _ }) | Err(Failed) if self.stop.is_there() => {
                Ok(CellNext::End)
            }
            item => item,
        }
    }
}

impl Cell for PortCell {
    ghost use Rattle.std.specs.Prelude.{None};
    ghost use Rattle.device_facts.specs.Count.{CountsFault};
    ghost use Rattle.device_facts.specs.Frame.{NothingElse};
    ghost use Rattle.lane_worker.specs.Cells.{told_left};

    ghost feed = { λ cell. told_left None };

    ghost faults = { λ cell. cell.faults };

    ghost keeps_rest = { NothingElse };

    fn next(&mut self) -> Result<CellNext, Failed>
        ensures cause { CountsFault self.old.faults self.new.faults result }
    {
        let item = self.next_item();
        if item.is_err() {
            self.faults = counted_once_more(self.faults);
        }
        item
    }

    fn expect_batches(&mut self) {
        self.batches = true;
    }
}

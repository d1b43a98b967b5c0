ghost use Rattle.std.specs.Prelude.{◌≡◌, ◌+◌, ◌<◌, length, min, IfOk, IsSome};
ghost use Rattle.hall_limits.specs.declared.TheConstants.{MAX_LANE};
ghost use Rattle.lane_files.specs.LateFile.{gate_path};
ghost use Rattle.hall_devices.specs.Named.{folder_of, IsCellOf, AreLanesOf};

use crate::doors::open_door;
use crate::port_cell::PortCell;
use crate::scale_door::ScaleDoor;
use crate::unopened::Unopened;
use command_line::{Command, Wants};
use hall_limits::MAX_LANE;
use lane_files::{FileCell, FileGate, FolderLock, ToldCell, file_cell, file_gate, lock_folder};
use lane_worker::{EitherCell, PairLane};
use stop_file::StopFile;
use tcp_door::Manners;

/// How many connections the cell of a lane takes from its scale.
const MAX_CELL_CONNECTIONS: u32 = 1_000;

/// A cell that hears its scale at a port.
type ToldPort<'a> = ToldCell<PortCell, &'a HostRuntime>;

/// A cell that reads a file, or that hears its scale at a port.
type HallCell<'a> = EitherCell<FileCell<'a, HostRuntime>, ToldPort<'a>>;

/// A lane of the program. Its gate is a file.
pub type HallLane<'a> = PairLane<HallCell<'a>, FileGate<'a, HostRuntime>>;

// The cell of a lane: it hears its scale at a port that rises from that of the first, where the words
// have one, and else it reads a file of the folder. Where a port can't be had `serve` has no lane;
// in a run the cell fails when it is worked.
fn open_cell<'a>(
    rt: &'a HostRuntime,
    wanted: &Wants,
    stop: &StopFile,
    place: u8,
) -> Result<HallCell<'a>, Unopened>
    requires { place < MAX_LANE }
    ensures named { IfOk result (λ cell.
        IsCellOf wanted.now.remote (folder_of wanted.now.cells) place cell) }
{
    let at_door = stop.again(rt.alloc())?;
    let stop = stop.again(rt.alloc())?;
    let Some(first) = wanted.remote else {
        let number = place.saturating_add(1);
        let cell = file_cell(rt.alloc(), rt, folder_of(wanted), number, stop)?;
        return Ok(EitherCell::One(cell));
    };
    let port = first.saturating_add(u16::from(place));
    let door = open_door(*rt, port, MAX_CELL_CONNECTIONS, Manners::SCALE, at_door);
    if wanted.command == Command::Serve && door.listen_error().is_some() {
        return Err(Unopened::NoPort);
    }
    let name = format!(in rt.alloc(); "port {port}")?;
    let cell = PortCell::new(ScaleDoor::new(door, *rt, port), stop);
    Ok(EitherCell::Other(ToldCell::new(cell, rt, name)))
}

// The folder of the lanes' files.
fn folder_of(wanted: &Wants) -> &str
    ensures { result.now ≡ folder_of wanted.now.cells }
{
    match &wanted.cells {
        Some(path) => path.as_str(),
        None => ".",
    }
}

/// The file of the lanes' folder by which somebody asks that `serve` end in good order; no other
/// command looks for one. Where it is there already, standard error says so.
///
/// # Errors
///
/// `Unopened` where there is no memory for its path.
pub fn find_stop(rt: &HostRuntime, wanted: &Wants) -> Result<StopFile, Unopened> {
    if wanted.command != Command::Serve {
        return Ok(StopFile::none());
    }
    let folder = folder_of(wanted);
    let stop = StopFile::in_folder(rt.alloc(), folder)?;
    if stop.is_there() {
        let _ = eprintln!(rt; "hall: {folder}/stop is there: the hall ends in good order at once");
    }
    Ok(stop)
}

/// Locks the folder of the lanes' files, where there are lanes. None where another hall has it, which
/// standard error says.
pub fn lock_cells(rt: &HostRuntime, wanted: &Wants) -> Option<FolderLock>
    ensures { wanted.now.lanes ≡ 0 → IsSome result }
{
    if wanted.lanes == 0 {
        return Some(FolderLock::none());
    }
    lock_folder(rt.alloc(), rt, folder_of(wanted))
}

// The lane at a place: its gate is a file of the folder, and so is its cell, unless the words have a
// port for it.
fn open_lane<'a>(
    rt: &'a HostRuntime,
    wanted: &Wants,
    stop: &StopFile,
    place: u8,
) -> Result<HallLane<'a>, Unopened>
    requires { place < MAX_LANE }
    ensures cell { IfOk result (λ lane.
        IsCellOf wanted.now.remote (folder_of wanted.now.cells) place lane.cell) }
    ensures gate { IfOk result (λ lane. lane.gate.writer.writer.path
        ≡ gate_path (folder_of wanted.now.cells) (place + 1)) }
{
    let cell = open_cell(rt, wanted, stop, place)?;
    let number = place.saturating_add(1);
    let stop = stop.again(rt.alloc())?;
    let gate = file_gate(rt.alloc(), rt, folder_of(wanted), number, stop)?;
    Ok(PairLane::new(cell, gate))
}

/// The lanes that the words ask for. Their cells end where the file is there by which somebody asks
/// for that, and gates that would wait fail.
///
/// # Errors
///
/// `Unopened` where there is no memory, or, of `serve`, a port of a cell can't be had.
pub fn open_lanes<'a>(
    rt: &'a HostRuntime,
    wanted: &Wants,
    stop: &StopFile,
) -> Result<Vec<HallLane<'a>>, Unopened>
    ensures count { IfOk result (λ lanes. length lanes.items ≡ min wanted.now.lanes MAX_LANE) }
    ensures named { IfOk result (λ lanes.
        AreLanesOf wanted.now.remote (folder_of wanted.now.cells) 0 lanes.items) }
{
    let count = wanted.lanes.min(MAX_LANE);
    let mut lanes = Vec::with_capacity(rt.alloc(), usize::from(count))?;
    for place in 0..count {
        let lane = open_lane(rt, wanted, stop, place)?;
        if lanes.push(lane).is_err() {
            return Err(Unopened::NoMemory);
        }
    }
    Ok(lanes)
}

ghost use Rattle.std.specs.Prelude.{◌≡◌, length, min, IfOk};
ghost use Rattle.hall_limits.specs.declared.TheConstants.{MAX_DOOR};
ghost use Rattle.hall_devices.specs.Named.{AreAtPorts};

use crate::unopened::Unopened;
use command_line::Wants;
use hall_limits::MAX_DOOR;
use stop_file::StopFile;
use tcp_door::{Manners, TcpDoor};

/// A door at a port, for so many connections. Where it can't listen, standard error says why; it
/// then fails as it awaits its first connection, unless nobody begins with it.
pub(crate) fn open_door(
    rt: HostRuntime,
    port: u16,
    connections: u32,
    manners: Manners,
    stop: StopFile,
) -> TcpDoor<HostRuntime>
    ensures { result.asked_port ≡ port }
{
    let door = TcpDoor::listen(rt.alloc(), rt, port, connections, manners, stop);
    if let Some(error) = door.listen_error() {
        let _ = eprintln!(rt; "hall: can't listen at port {port}: {error}");
    }
    door
}

/// The doors that the words ask for, at ports that rise from that of the first; they end where the
/// file is there by which somebody asks for that.
///
/// # Errors
///
/// `Unopened` where there is no memory, or one of the ports can't be had.
pub fn open_doors(
    rt: HostRuntime,
    wanted: &Wants,
    stop: &StopFile,
) -> Result<Vec<TcpDoor<HostRuntime>>, Unopened>
    ensures count { IfOk result (λ doors. length doors.items ≡ min wanted.now.doors MAX_DOOR) }
    ensures ports { IfOk result (λ doors. AreAtPorts wanted.now.port 0 doors.items) }
{
    let count = wanted.doors.min(MAX_DOOR);
    let mut doors = Vec::with_capacity(rt.alloc(), usize::from(count))?;
    for number in 0..count {
        let port = wanted.port.saturating_add(u16::from(number));
        let stop = stop.again(rt.alloc())?;
        let door = open_door(rt, port, wanted.connections, Manners::OFFICE, stop);
        if door.listen_error().is_some() {
            return Err(Unopened::NoPort);
        }
        if doors.push(door).is_err() {
            return Err(Unopened::NoMemory);
        }
    }
    Ok(doors)
}

use book_words::Name;
use lane_worker::{LaneEnd, LaneStop, ListGate, PairLane, run_lane};
use memory_hall::open_book;
use remote_cell::RemoteCell;
use std::alloc::Global;
use std::io::{Read, Write};
use std::net::{Ipv4Addr, TcpStream};
use std::test::Fail;
use stop_file::StopFile;
use tcp_door::{Manners, TcpDoor};

// A scale that has said this at a port.
fn say(rt: HostRuntime, port: u16, bytes: &[u8]) -> Result<TcpStream, Fail> {
    let mut scale = TcpStream::connect(&rt, (Ipv4Addr::LOCALHOST, port))?;
    scale.write_all(bytes)?;
    Ok(scale)
}

// How a lane ends whose scale comes to a door.
fn end_over(alloc: Global, door: TcpDoor<HostRuntime>) -> Option<LaneEnd> {
    let batch = Name::new(b"A".as_slice())?;
    let mut hall = open_book(alloc, &[], 4, 1)?;
    let mut lane = PairLane::new(
        RemoteCell::new(door, false),
        ListGate::new(alloc, Vec::new(alloc)),
    );
    let end = run_lane(&mut hall, &mut lane, 1, batch);
    let _ = hall.back().close();
    Some(end)
}

// A scale whose line is cut behind `2 26` says the second weight again on the next.
#[test]
fn a_lane_over_a_port(rt: HostRuntime) -> Result<(), Fail> {
    let door = TcpDoor::listen(rt.alloc(), rt, 0, 2, Manners::SCALE, StopFile::none());
    let port = door.port().unwrap_or(0);
    let _ = say(rt, port, b"1 260\n2 26")?;
    let mut scale = say(rt, port, b"2 261\n3 end\n")?;
    let done = LaneEnd {
        opened: 2,
        stop: LaneStop::Done,
    };
    assert!(rt; end_over(rt.alloc(), door) == Some(done));
    let mut heard = [0; 12];
    scale.read_exact(&mut heard)?;
    assert!(rt; heard == *b"ack 2\nack 3\n");
    Ok(())
}

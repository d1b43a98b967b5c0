use disk_core::{Door, Failed, ListDoor, Sink, Source};
use std::test::Fail;
use stop_file::StopFile;
use tcp_door::{Manners, TcpDoor};

// That a door may go to a thread of its own is said by its type.
fn may_move<O: Door + Send>(_door: &O) -> bool {
    true
}

#[test]
fn a_door_may_move(rt: HostRuntime) -> Result<(), Fail> {
    let alloc = rt.alloc();
    let door = TcpDoor::listen(alloc, rt, 0, 1, Manners::OFFICE, StopFile::none());
    let listed = ListDoor::new(alloc, Vec::new(alloc), Vec::new(alloc));
    assert!(rt; may_move(&door) && may_move(&listed));
    Ok(())
}

// Whether each call of a door fails; it has no connection, so it doesn't stand at the end of one.
fn fails(door: &mut TcpDoor<HostRuntime>) -> bool {
    door.listen_error().is_some()
        && door.port().is_none()
        && door.next() == Err(Failed)
        && !door.has_ended()
        && door.read(&mut [0; 4]) == Err(Failed)
        && door.write(b"x") == Err(Failed)
}

#[test]
fn a_port_that_is_taken_fails_at_each_call(rt: HostRuntime) -> Result<(), Fail> {
    let first = TcpDoor::listen(rt.alloc(), rt, 0, 1, Manners::OFFICE, StopFile::none());
    assert!(rt; first.listen_error().is_none());
    let port = first.port().unwrap_or(0);
    let mut second = TcpDoor::listen(rt.alloc(), rt, port, 1, Manners::OFFICE, StopFile::none());
    assert!(rt; fails(&mut second));
    Ok(())
}

/// Why a door serves no more connections.
#[derive(Clone, Copy, PartialEq, Eq)]
pub enum DoorStop {
    /// No connection waits any more.
    Done,
    /// The next connection couldn't be admitted.
    Door,
    /// There was no memory to begin.
    NoMemory,
    /// As many connections were served as may be.
    Turns,
}

/// The end of the work of a door: how many requests were taken, how many connections a fault of the
/// link ended, and why no more were served.
#[derive(Clone, Copy, PartialEq, Eq)]
pub struct DoorEnd {
    pub served: u32,
    pub links: u32,
    pub stop: DoorStop,
}

/// The most requests of a connection: a client that asks on and on leaves the door to others then.
pub const MAX_REQUESTS: u32 = 1_000;

/// The most connections that a door serves: more than come in years of a hall, so that its work
/// ends whoever comes.
pub const MAX_CONNECTIONS: u32 = 1_000_000;

/// The most bytes of the head text of a request.
pub const MAX_HEAD: usize = 8_192;

/// The most headers of a request.
pub const MAX_HEADERS: usize = 64;

/// The most bytes of the body of a request.
pub const MAX_BODY: usize = 4_096;

/// Of bytes that are so many it is always decided what request they begin with.
pub const REQUEST_ROOM: usize = MAX_HEAD + MAX_BODY;

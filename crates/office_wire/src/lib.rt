//! The requests of the office over HTTP: which bytes are a request, what it asks, and what is at
//! fault with its form.
#![tactic(auto)]

mod acts;
mod asks;
mod body;
mod frames;
mod head_size;
mod headers;
mod limits;
mod members;
mod methods;
mod request_heads;
mod routes;
mod types;

pub use body::desk_ask;
pub use frames::{frame, frame_with_routes};
pub use limits::{MAX_BODY, MAX_HEAD, MAX_HEADERS, REQUEST_ROOM};
pub use office_routes::Routes;
pub use types::{Bad, Frame, Framed, OfficeAsk, Route};

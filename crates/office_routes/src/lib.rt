//! The routes of the office: what is found at the path of a request.
#![tactic(auto)]

mod routes;
mod spot;

pub use routes::Routes;
pub use spot::Spot;

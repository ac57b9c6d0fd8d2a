//! What request a text reads as.
#![tactic(auto)]

mod ask;
mod bodies;
mod fault;
mod fields;
mod head;
pub mod laws;
mod method;
mod request;
mod routes;

pub use ask::{Ask, Query};
pub use bodies::body_of;
pub use fault::WireFault;
pub use fields::json_value;
pub use method::Method;
pub use request::{Read, query_of, read_request};
pub use routes::{Posted, RouteTable, Shown};

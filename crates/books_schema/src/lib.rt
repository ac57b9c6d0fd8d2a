//! The tables of the books: the schema, and one call for each statement.
//!
//! A call works inside the caller's transaction. `Store` is a fault of memory, the disk or size; `Foreign`, a stored
//! row with a value that no row has.
#![tactic(auto)]

mod checking;
pub mod creation;
pub mod dropping;
pub mod ending;
pub mod layouts;
pub mod migration;
pub mod older;
pub mod ready_connection;
pub mod settling;
mod steps;

//! A file of the books held against the acts that it keeps.
#![tactic(auto)]

mod comparing;
mod finding;
mod first_day;
mod halves;
mod newest_tables;
mod one_table;
mod reading;
mod replayed;
mod whole;

pub use finding::{Finding, Unread};
pub use whole::audit;

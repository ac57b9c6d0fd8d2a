//! A decided change, written within the caller's transaction.
#![tactic(auto)]

pub mod added_tables;
pub mod added_texts;
pub mod adding;
mod rows;
mod writing;

pub use writing::write_change;

//! What the tables of the books are, and what their columns read as.
#![tactic(auto)]

pub mod chain;
pub mod column;
pub mod columns;
pub mod error;
pub mod reading;

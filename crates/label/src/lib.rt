//! Labels of goods by the GS1 General Specifications: calendar days, expiration dates, and the text
//! of a label.
#![tactic(auto)]

mod day;
mod digits;
mod expiry;
mod gs1;
mod reader;
mod writer;

pub use day::{BusinessDay, Day};
pub use expiry::expiry_of;
pub use gs1::Label;
pub use reader::read;
pub use writer::write;

//! The receipts of a goods-in file.
#![tactic(auto)]

mod fault;
mod file;
mod reading;
mod row;

pub use fault::FileFault;
pub use file::{ROWS_MAX, read_file};

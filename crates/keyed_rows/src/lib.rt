//! Tables whose rows are put and dropped under a key, sought, and handed over one at a time.
#![tactic(auto)]

mod each_fault;
mod handing;
pub mod mapped;
pub mod reading;
pub mod rows;
pub mod running;
pub mod table;

pub use each_fault::EachFault;
pub use handing::each;

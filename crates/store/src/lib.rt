//! The books: one act is one transaction.
#![tactic(auto)]

mod act_rows;
mod acting;
mod books;
mod card_rows;
mod day;
mod each_fault;
mod earlier_reply;
mod fault;
mod filing;
mod known;
pub mod laws;
mod notices;
mod outside;
mod repeats;
mod reply;
mod showing;
mod tally;

pub use books::{Books, OpenFault};
pub use each_fault::EachFault;
pub use fault::Fault;
pub use reply::Reply;
pub use tally::{RowFault, Tally};

//! The acts that books keep, done again on books in which nothing has been done.
#![tactic(auto)]

mod again;
mod fault;
pub mod laws;
mod order;
mod progress;
mod rows;
mod start;

pub use again::act_again;
pub use fault::NotReplayed;
pub use order::by_act;
pub use progress::Progress;
pub use rows::replay_rows;
pub use start::start_of;

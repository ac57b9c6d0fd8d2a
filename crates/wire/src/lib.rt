//! What bytes an answer is.
#![tactic(auto)]

mod answer;
mod bin;
mod books;
mod expiring;
mod figures;
mod item_names;
pub mod laws;
pub mod logging;
mod members;
mod open_orders;
mod order;
mod picks;
pub mod serving;
pub mod short;
pub mod short_answers;
mod stock;
mod text;
mod trace;

pub use answer::{Answer, Block, write_answer, write_short};
pub use serving::ServeFault;

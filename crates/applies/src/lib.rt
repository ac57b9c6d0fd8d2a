//! The acts of a history's text, done on books that lack them.
#![tactic(auto)]

mod applied;
mod begun;
mod fields;
mod first;
mod known;
pub mod laws;
mod lines;
mod next;
mod whole;

pub use applied::{Applied, NotApplied};
pub use begun::find_begun;
pub use whole::apply_text;

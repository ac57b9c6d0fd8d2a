//! Trials of calls for which there may be no memory: the lines that are printed around a call.
//!
//! Before a call a line that begins with `> ` is printed, and after it one that begins with `< `. Where there was no memory
//! for a call, everything has to be as before, and the same call is made again.
#![tactic(auto)]

mod call;

pub use call::{Call, Told, is_refused};

//! The acts of the books as lines: printed, read, and held against the rows of the acts.
#![tactic(auto)]

mod cut;
mod fault;
mod first_start;
mod known;
mod line;
mod line_fault;
mod lines;
mod printing;
mod reading;
mod spelled;
mod start;
mod turn;

pub use cut::{is_line_of, is_numbered};
pub use fault::HistoryFault;
pub use first_start::FirstStart;
pub use known::{KnownLines, Place};
pub use line::act_text;
pub use line_fault::LineFault;
pub use lines::{HistoryLines, day_after, day_then};
pub use printing::print_history;
pub use reading::{Ended, LINE_MAX, ReadFault, read_line};
pub use start::CardDay;
pub use turn::is_next;
